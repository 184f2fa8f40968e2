// The tails of a run: how it ended, its report, its table and its cheapest plan. Post-mortem tails stand in mortem.rt.
ghost use Rattle.std.specs.Prelude.{◌≡◌, ◌≤◌, ◌++◌, codes, length, List, Some, slice_get, take};
ghost use Rattle.gier_io.specs.View.{sink_view, PutsOrFails};
ghost use Rattle.gier_job.specs.Tails.{alarm_tail, steps_tail, report_tail, report_transfers, report_words, table_tail};
ghost use Rattle.gier_job.specs.Tails.{numbers_text, best_tail, moves_text, move_text, too_long_tail};

use crate::printing::put_named;
use gier_best::Trace;
use gier_io::{Sink, put_both};
use gier_word::Failed;

/// Names the alarm with which the run ended.
pub(crate) fn put_alarm<K: Sink>(name: &[u8], out: &mut K) -> Result<(), Failed>
    ensures { PutsOrFails (alarm_tail name.now) (sink_view K.holds K.faults out.old) (sink_view K.holds K.faults out.new) result }
{
    out.put(b"\n*** alarm ")?;
    put_both(name, b"\n", out)
}

/// Says that the permitted steps were used up.
pub(crate) fn put_steps<K: Sink>(out: &mut K) -> Result<(), Failed>
    ensures { PutsOrFails steps_tail (sink_view K.holds K.faults out.old) (sink_view K.holds K.faults out.new) result }
{
    out.put(b"\n*** steps\n")
}

/// The steps charged, the reads of tracks, and the most words in use at one time.
pub(crate) fn put_report<K: Sink>(
    steps: u64,
    transfers: u128,
    words: u32,
    out: &mut K,
) -> Result<(), Failed>
    ensures { PutsOrFails (report_tail steps transfers words) (sink_view K.holds K.faults out.old)
        (sink_view K.holds K.faults out.new) result }
{
    put_named(b"\n*** steps ", u128::from(steps), out)?;
    put_transfers(transfers, words, out)
}

fn put_transfers<K: Sink>(transfers: u128, words: u32, out: &mut K) -> Result<(), Failed>
    ensures { PutsOrFails (report_transfers transfers words) (sink_view K.holds K.faults out.old)
        (sink_view K.holds K.faults out.new) result }
{
    put_named(b" transfers ", transfers, out)?;
    put_words(words, out)
}

fn put_words<K: Sink>(words: u32, out: &mut K) -> Result<(), Failed>
    ensures { PutsOrFails (report_words words) (sink_view K.holds K.faults out.old) (sink_view K.holds K.faults out.new) result }
{
    put_named(b" words ", u128::from(words), out)?;
    out.put(b"\n")
}

/// The numbers of misses, for one place and more.
pub(crate) fn put_table<K: Sink>(misses: &[u128], out: &mut K) -> Result<(), Failed>
    ensures { PutsOrFails (table_tail misses.now) (sink_view K.holds K.faults out.old) (sink_view K.holds K.faults out.new) result }
{
    out.put(b"\n*** table")?;
    put_row(misses, out)
}

fn put_row<K: Sink>(misses: &[u128], out: &mut K) -> Result<(), Failed>
    ensures { PutsOrFails (numbers_text misses.now ++ codes "\n") (sink_view K.holds K.faults out.old)
        (sink_view K.holds K.faults out.new) result }
{
    put_numbers(misses, out)?;
    out.put(b"\n")
}

fn put_numbers<K: Sink>(numbers: &[u128], out: &mut K) -> Result<(), Failed>
    ensures { PutsOrFails (numbers_text numbers.now) (sink_view K.holds K.faults out.old)
        (sink_view K.holds K.faults out.new) result }
{
    for number in numbers {
        put_named(b" ", *number, out)?;
    }
    Ok(())
}

/// The cheapest plan that the trace found last, with its cost; None says that there are too many changes of track.
pub(crate) fn put_best<K: Sink>(cost: u32, trace: &Trace, out: &mut K) -> Result<(), Failed>
    requires { cost ≡ length trace.now.plan }
    ensures { PutsOrFails (best_tail cost trace.now.plan) (sink_view K.holds K.faults out.old)
        (sink_view K.holds K.faults out.new) result }
{
    put_named(b"\n*** best ", u128::from(cost), out)?;
    put_plan(cost, trace, out)
}

/// Says that there are too many changes of track for a plan.
pub(crate) fn put_no_plan<K: Sink>(out: &mut K) -> Result<(), Failed>
    ensures { PutsOrFails too_long_tail (sink_view K.holds K.faults out.old) (sink_view K.holds K.faults out.new) result }
{
    out.put(b"\n*** best too long\n")
}

fn put_plan<K: Sink>(cost: u32, trace: &Trace, out: &mut K) -> Result<(), Failed>
    requires { cost ≡ length trace.now.plan }
    ensures { PutsOrFails (moves_text trace.now.plan ++ codes "\n") (sink_view K.holds K.faults out.old)
        (sink_view K.holds K.faults out.new) result }
{
    put_moves(cost, trace, out)?;
    out.put(b"\n")
}

fn put_moves<K: Sink>(cost: u32, trace: &Trace, out: &mut K) -> Result<(), Failed>
    requires { cost ≡ length trace.now.plan }
    ensures { PutsOrFails (moves_text trace.now.plan) (sink_view K.holds K.faults out.old)
        (sink_view K.holds K.faults out.new) result }
{
    for at in 0..cost {
        put_move(trace.entry(at), out)?;
    }
    Ok(())
}

fn put_move<K: Sink>(transfer: (u32, u8), out: &mut K) -> Result<(), Failed>
    ensures { PutsOrFails (move_text transfer) (sink_view K.holds K.faults out.old) (sink_view K.holds K.faults out.new) result }
{
    put_named(b" ", u128::from(transfer.0), out)?;
    put_named(b"/", u128::from(transfer.1), out)
}
