// Runs one object, and prints what can be seen of the run.
ghost use Rattle.std.specs.Prelude.{◌≡◌, ◌≤◌, ◌+◌, IfOk, true};
ghost use Rattle.gier_exec.specs.Reading.{tracks_for};
ghost use Rattle.tool_object_run.specs.Given.{IsGiven};

use crate::given::{Given, read_bytes};
use crate::stored::{store, tracks_for};
use gier_drum::{Drum, Entry, MemDrum};
use gier_io::{MemSink, MemSource, Sink, Source};
use gier_order::Object;
use gier_runner::{Ending, Runner};
use std::io;
use std::io::{BufWriter, Write};

// How many reads and writes of tracks are noted, and how many bytes may be printed.
const ENTRIES: usize = 1 << 22;

const PRINTED: usize = 1 << 22;

// As many places as misses are told for.
const PLACES: u8 = 64;

/// Runs the object whose words and data stand next on standard input, and prints what can be seen of the run.
pub fn show_one<S: Source>(rt: &HostRuntime, given: &Given, numbers: &mut S) -> io::Result<()>
    requires { IsGiven given.now }
{
    let alloc = rt.alloc();
    let (Ok(mut drum), Ok(mut printer), Ok(mut runner)) = (
        MemDrum::open(alloc, ENTRIES),
        MemSink::open(alloc, PRINTED),
        Runner::open(alloc, given.settings),
    ) else {
        return println!(rt; "want of memory");
    };
    if !is_stored(given, numbers, &mut drum) {
        return println!(rt; "want of memory");
    }
    let stored = drum.journal().len();
    let mut data = MemSource::of(read_bytes(alloc, given.bytes, numbers)?);
    let ending = run(given, &mut runner, &mut drum, &mut data, &mut printer);
    let mut out = BufWriter::new(alloc, io::writer(rt))?;
    show_ending(&mut out, ending, &runner)?;
    show_devices(&mut out, &mut data, given.bytes, printer.bytes())?;
    show_tracks(&mut out, drum.journal(), stored)?;
    show_frames(&mut out, &runner)?;
    out.flush()
}

// Brings the words to the drum; false where it has no room, or failed.
fn is_stored<D: Drum, S: Source>(given: &Given, numbers: &mut S, drum: &mut D) -> bool
    requires { IsGiven given.now }
    ensures { result ≡ true → tracks_for given.now.words ≤ D.room drum.new }
{
    if drum.make_room(tracks_for(given.words)).is_err() {
        return false;
    }
    store(given.words, numbers, drum).is_ok()
}

fn run<D: Drum, S: Source, K: Sink>(
    given: &Given,
    runner: &mut Runner,
    drum: &mut D,
    data: &mut S,
    printer: &mut K,
) -> Ending
    requires given { IsGiven given.now }
    requires room { tracks_for given.now.words ≤ D.room drum.old }
{
    let object = Object {
        first_track: 0,
        words: given.words,
        start: given.start,
        lengths: [0; 8],
    };
    runner.run(&object, drum, data, printer)
}

fn show_ending<W: Write>(out: &mut W, ending: Ending, runner: &Runner) -> io::Result<()> {
    let report = runner.report();
    match ending {
        Ending::Alarm(alarm) => writeln!(out, "ending alarm {}", alarm.name())?,
        Ending::Spoilt(odd) => writeln!(out, "ending spoilt {} {}", odd.place, odd.word)?,
        other => writeln!(out, "ending {}", name_of(other))?,
    }
    writeln!(out, "steps {}", report.steps)?;
    writeln!(out, "words {}", report.words)?;
    writeln!(out, "stop {}", runner.stop())?;
    write!(out, "misses")?;
    for places in 1..=PLACES {
        write!(out, " {}", runner.misses(places))?;
    }
    writeln!(out)
}

// The name of an ending that tells no more.
fn name_of(ending: Ending) -> &'static str {
    match ending {
        Ending::Ended => "ended",
        Ending::Steps => "steps",
        Ending::Read => "read",
        Ending::Write => "write",
        Ending::Drum => "drum",
        Ending::Alarm(_) => "alarm",
        Ending::Spoilt(_) => "spoilt",
    }
}

fn show_devices<W: Write, S: Source>(
    out: &mut W,
    data: &mut S,
    given: u32,
    printed: &[u8],
) -> io::Result<()> {
    writeln!(out, "left {}", left(data, given))?;
    write!(out, "printed")?;
    for byte in printed {
        write!(out, " {byte}")?;
    }
    writeln!(out)
}

// How many bytes are left, of so many at most.
fn left<S: Source>(data: &mut S, most: u32) -> u32 {
    for count in 0..most {
        match data.next() {
            Ok(Some(_)) => {}
            _ => return count,
        }
    }
    most
}

// The tracks that were read behind the entries of the storing.
fn show_tracks<W: Write>(out: &mut W, journal: &[Entry], stored: usize) -> io::Result<()> {
    write!(out, "tracks")?;
    for entry in journal.iter().skip(stored) {
        match entry {
            Entry::Read(track) => write!(out, " {track}")?,
            Entry::Write(track) => write!(out, " written {track}")?,
        }
    }
    writeln!(out)
}

fn show_frames<W: Write>(out: &mut W, runner: &Runner) -> io::Result<()> {
    write!(out, "frames")?;
    for at in 0..u32::MAX {
        match runner.frames().activation(at) {
            Some(activation) => {
                write!(
                    out,
                    " {:?} {} {}",
                    activation.shape, activation.words, activation.back
                )?;
            }
            None => break,
        }
    }
    writeln!(out, "\nend")
}
