// The tails that tell where a run stopped and which activations were live then. The lines are found by gier_mortem.
ghost use Rattle.std.specs.Prelude.{◌≡◌, ◌≤◌, ◌<◌, ◌+◌, ℕ, [], length, map, slice_index, OnOk, IfErr, IsErrOf};
ghost use Rattle.gier_word.specs.Cause.{HasCause, HasRisen};
ghost use Rattle.gier_text.specs.View.{KeepsTracks};
ghost use Rattle.gier_limits.specs.Areas.{longest, all_tracks, capacity_of, first_of, object_first};
ghost use Rattle.gier_frames.specs.Stop.{activations};
ghost use Rattle.gier_drum.specs.View.{drum_view};
ghost use Rattle.gier_io.specs.Device.{Puts};
ghost use Rattle.gier_io.specs.View.{sink_view};
ghost use Rattle.gier_runner.specs.Live.{shape_of, live_of};
ghost use Rattle.gier_job.specs.Devices.{StopsBehind};
ghost use Rattle.gier_job.specs.Mortem.{line_text, shape_text, live_text, untold_text, PutsLives, PutsMortem};
ghost use Rattle.gier_job.specs.Status.{IsStop};
ghost use Rattle.gier_job.specs.declared.status.Status.TheVariants.{Printer, Drum as DrumStatus};

use crate::printing::put_named;
use crate::status::{Status, of_printer};
use gier_drum::Drum;
use gier_frames::{Activation, Frames, Shape};
use gier_front::first_track;
use gier_io::Sink;
use gier_mortem::{LineStop, Lines};
use gier_order::Object;
use gier_runner::Runner;
use gier_word::Failed;

// At most so many activations are told; of more only the number is.
const MOST_TOLD: u32 = 64;

// Lines are found in text 7, which is the seventh.
const ORDERS_TEXT: u8 = 7;

const ORDERS_PLACE: usize = 6;

/// Tells the line of the construct that stopped the last run, and then each live activation from the innermost outward, at
/// most 64 of them, with the line by which it was entered and its number of words.
pub(crate) fn put_mortem<K: Sink, D: Drum>(
    object: &Object,
    runner: &Runner,
    drum: &mut D,
    out: &mut K,
) -> Result<(), Status>
    requires text { slice_index object.now.lengths 6 ≤ capacity_of longest }
    requires room { all_tracks longest ≤ D.room drum.old }
    ensures put { OnOk result (PutsMortem [] (map live_of (activations runner.now.frames)) (K.holds out.old) (K.holds out.new)) }
    ensures stops { StopsBehind result (sink_view K.holds K.faults out.old) (sink_view K.holds K.faults out.new)
        (drum_view D.room D.tracks D.journal D.faults drum.old) (drum_view D.room D.tracks D.journal D.faults drum.new) }
{
    let mut lines = asked_lines(runner);
    match find_lines(&mut lines, object, drum) {
        Ok(()) => of_printer(put_stop(&lines, runner.frames(), out)),
        Err(stop) => Err(stop),
    }
}

// The line of the order that stopped is asked first, and then one for each activation, so that each has its number.
fn asked_lines(runner: &Runner) -> Lines
    ensures some { 0 < length result.asked.items }
    ensures all { (at : ℕ) → at < 64 → at < length (activations runner.now.frames) → at + 1 < length result.asked.items }
{
    let mut lines = Lines::new();
    lines.ask(runner.stop());
    for at in 0..MOST_TOLD {
        match runner.frames().activation(at) {
            Some(activation) => lines.ask(entry_of(activation)),
            None => return lines,
        }
    }
    lines
}

// The order that entered an activation. For a program or a block it is the first one, whose line isn't told.
fn entry_of(activation: Activation) -> u32 {
    activation.back.saturating_sub(1)
}

fn find_lines<D: Drum>(lines: &mut Lines, object: &Object, drum: &mut D) -> Result<(), Status>
    requires text { slice_index object.now.lengths 6 ≤ capacity_of longest }
    requires room { all_tracks longest ≤ D.room drum.old }
    ensures tracks { KeepsTracks (first_of 7) object_first (D.tracks drum.old) (D.tracks drum.new) }
    ensures asked { length lines.new.asked.items ≡ length lines.old.asked.items }
    ensures room { D.room drum.new ≡ D.room drum.old }
    ensures stop { IfErr result IsStop }
    ensures not_printer { IsErrOf result Printer → ⊥ }
    ensures drum_fault { IsErrOf result DrumStatus → HasRisen (D.faults drum.old) (D.faults drum.new) }
    ensures drum_later { D.faults drum.old ≤ D.faults drum.new }
{
    let symbols = object.lengths[ORDERS_PLACE];
    match lines.find(first_track(ORDERS_TEXT), symbols, drum) {
        Ok(()) => Ok(()),
        Err(LineStop::Drum) => Err(Status::Drum),
        Err(LineStop::Spoilt(odd)) => Err(Status::Spoilt(odd)),
    }
}

fn put_stop<K: Sink>(lines: &Lines, frames: &Frames, out: &mut K) -> Result<(), Failed>
    requires some { 0 < length lines.now.asked.items }
    requires all { (at : ℕ) → at < 64 → at < length (activations frames.now) → at + 1 < length lines.now.asked.items }
    ensures put { OnOk result (PutsMortem [] (map live_of (activations frames.now)) (K.holds out.old) (K.holds out.new)) }
    ensures cause { HasCause (K.faults out.old) (K.faults out.new) result }
{
    match put_line(b"\n*** mortem line ", lines.line(0), out) {
        Ok(()) => put_activations(lines, frames, out),
        Err(failed) => Err(failed),
    }
}

// A number behind a text, and the end of the line.
#[tactic(auto, using(gier_io::proofs::Prints::puts_more))]
fn put_line<K: Sink>(text: &[u8], number: u32, out: &mut K) -> Result<(), Failed>
    ensures put { OnOk result (Puts (K.holds out.old) (line_text text.now number) (K.holds out.new)) }
    ensures cause { HasCause (K.faults out.old) (K.faults out.new) result }
{
    match put_named(text, u128::from(number), out) {
        Ok(()) => out.put(b"\n"),
        Err(failed) => Err(failed),
    }
}

fn put_activations<K: Sink>(lines: &Lines, frames: &Frames, out: &mut K) -> Result<(), Failed>
    requires all { (at : ℕ) → at < 64 → at < length (activations frames.now) → at + 1 < length lines.now.asked.items }
    ensures put { OnOk result (PutsLives (map live_of (activations frames.now)) (K.holds out.old) (K.holds out.new)) }
    ensures cause { HasCause (K.faults out.old) (K.faults out.new) result }
{
    for at in 0..MOST_TOLD {
        match frames.activation(at) {
            Some(activation) => match put_activation(activation, lines.line(at + 1), out) {
                Ok(()) => {}
                Err(failed) => return Err(failed),
            },
            None => return Ok(()),
        }
    }
    put_rest(frames.count(), out)
}

#[tactic(auto, using(gier_io::proofs::Prints::puts_more))]
fn put_activation<K: Sink>(activation: Activation, line: u32, out: &mut K) -> Result<(), Failed>
    ensures put { OnOk result (Puts (K.holds out.old) (live_text (live_of activation) line) (K.holds out.new)) }
    ensures cause { HasCause (K.faults out.old) (K.faults out.new) result }
{
    match put_shape(activation.shape, line, out) {
        Ok(()) => put_line(b" words ", activation.words, out),
        Err(failed) => Err(failed),
    }
}

// What the activation is of, with the line by which it was entered where there is one.
fn put_shape<K: Sink>(shape: Shape, line: u32, out: &mut K) -> Result<(), Failed>
    ensures put { OnOk result (Puts (K.holds out.old) (shape_text (shape_of shape) line) (K.holds out.new)) }
    ensures cause { HasCause (K.faults out.old) (K.faults out.new) result }
{
    match shape {
        Shape::Program => out.put(b"\n*** program"),
        Shape::Block => out.put(b"\n*** block"),
        Shape::Procedure => put_named(b"\n*** procedure line ", u128::from(line), out),
        Shape::Evaluation => put_named(b"\n*** evaluation line ", u128::from(line), out),
    }
}

// How many activations were not told, where there are more.
#[tactic(auto, using(gier_io::proofs::Prints::puts_none, gier_io::proofs::Prints::puts_more))]
fn put_rest<K: Sink>(count: u32, out: &mut K) -> Result<(), Failed>
    ensures put { OnOk result (Puts (K.holds out.old) (untold_text count) (K.holds out.new)) }
    ensures cause { HasCause (K.faults out.old) (K.faults out.new) result }
{
    if count <= MOST_TOLD {
        return Ok(());
    }
    match put_named(b"\n*** and ", u128::from(count - MOST_TOLD), out) {
        Ok(()) => out.put(b" more\n"),
        Err(failed) => Err(failed),
    }
}
