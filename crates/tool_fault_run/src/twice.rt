// The work over devices one of which fails, and then over sound ones with the same runner.
ghost use Rattle.std.specs.Prelude.{◌≡◌, [], false};
ghost use Rattle.gier_text.specs.TablesModel.{tables_model};
ghost use Rattle.gier_limits.specs.Areas.{longest};
ghost use Rattle.gier_job.specs.Command.{IsPermitted};

use crate::fails::Fails;
use gier_drum::{Drum, FailingDrum, RoomFault};
use gier_io::{FailingSink, FailingSource, Sink, Source};
use gier_job::{Command, Status, work};
use gier_limits::{LIMIT, tracks_for};
use gier_runner::Runner;
use gier_text::Tables;
use std::io;
use std::io::{BufWriter, Write};

// How many bytes may be printed.
const PRINTED: usize = 1 << 22;

/// Does the work with this call failing, and then without, and prints what came of both.
pub fn show_both(rt: &HostRuntime, command: &Command, tape: &[u8], fails: Fails) -> io::Result<()>
    requires permitted { IsPermitted command.now }
    requires plain { command.now.best ≡ false }
{
    let Ok(mut runner) = Runner::open(rt.alloc(), command.settings) else {
        return println!(rt; "want of memory");
    };
    show(rt, command, tape, fails, &mut runner)?;
    show(rt, command, tape, Fails::Nothing, &mut runner)
}

fn show(
    rt: &HostRuntime,
    command: &Command,
    tape: &[u8],
    fails: Fails,
    runner: &mut Runner,
) -> io::Result<()>
    requires permitted { IsPermitted command.now }
    requires plain { command.now.best ≡ false }
    requires settings { runner.old.settings ≡ command.now.settings }
    ensures settings { runner.new.settings ≡ runner.old.settings }
{
    let alloc = rt.alloc();
    let mut source = FailingSource::of(Vec::from_slice(alloc, tape)?, fails.reads(alloc)?);
    let (Ok(mut printer), Ok(mut drum)) = (
        FailingSink::open(alloc, PRINTED, fails.puts(alloc)?),
        FailingDrum::open(alloc, 0, fails.drum(alloc)?),
    ) else {
        return println!(rt; "want of memory");
    };
    let Ok(mut tables) = Tables::open(alloc, LIMIT) else {
        return println!(rt; "want of memory");
    };
    let status = obey(
        command,
        &mut source,
        &mut printer,
        &mut drum,
        &mut tables,
        runner,
    );
    tell(rt, status, drum.calls(), printer.bytes())
}

// Takes the drum's room, and does the work.
fn obey<S: Source, K: Sink, D: Drum>(
    command: &Command,
    tape: &mut S,
    printer: &mut K,
    drum: &mut D,
    tables: &mut Tables,
    runner: &mut Runner,
) -> Status
    requires permitted { IsPermitted command.now }
    requires plain { command.now.best ≡ false }
    requires limit { (tables_model tables.old).limit ≡ longest }
    requires no_faults { (tables_model tables.old).faults ≡ [] }
    requires settings { runner.old.settings ≡ command.now.settings }
    ensures settings { runner.new.settings ≡ runner.old.settings }
{
    match drum.make_room(tracks_for(LIMIT)) {
        Ok(()) => work(command, tape, printer, drum, tables, runner),
        Err(RoomFault::Memory) => Status::Memory,
        Err(RoomFault::Failed) => Status::Drum,
    }
}

fn tell(rt: &HostRuntime, status: Status, calls: u64, printed: &[u8]) -> io::Result<()> {
    let mut out = BufWriter::new(rt.alloc(), io::writer(rt))?;
    writeln!(out, "status {} calls {calls}", status.number())?;
    write!(out, "printed")?;
    for byte in printed {
        write!(out, " {byte}")?;
    }
    writeln!(out)?;
    out.flush()
}
