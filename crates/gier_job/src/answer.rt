// The top call: the words are read, all room is taken, and the work is done.
ghost use Rattle.std.specs.Prelude.{◌≡◌, ◌≢◌, ◌≤◌, ℕ, map, true, IfOk};
ghost use Rattle.std.specs.String.{string_bytes};
ghost use Rattle.gier_word.specs.Cause.{HasRisen};
ghost use Rattle.gier_limits.specs.Areas.{object_tracks, longest};
ghost use Rattle.gier_job.specs.Answer.{Refuses, Answers};
ghost use Rattle.gier_job.specs.Command.{IsCommand, IsPermitted, IsWithin, IsFirstWrong};
ghost use Rattle.gier_job.specs.Devices.{devices, NamesFailed};
ghost use Rattle.gier_job.specs.RunTails.{most_changes};
ghost use Rattle.gier_job.specs.declared.command.Command.{Command};
ghost use Rattle.gier_job.specs.declared.status.Status.TheVariants.{Errors, Words, Tape, Printer, Drum as DrumStatus, Memory};

use crate::command::{Command, read_words};
use crate::printing::put_wrong_word;
use crate::status::Status;
use crate::working::work;
use gier_drum::{Drum, RoomFault};
use gier_io::{Sink, Source};
use gier_limits::{LIMIT, object_track, tracks_for};
use gier_runner::Runner;
use gier_text::Tables;
use gier_word::NoMemory;
use std::alloc::Global;

/// Does what the words ask for with the program on the tape, and prints the answer.
///
/// The words are read first: with a wrong one nothing is taken from the tape, and its number is printed (`Words`).
/// Then the drum's room, the tables and the runner are taken; where one of them can't be had, nothing was printed and
/// nothing taken (`Memory`). `Tape`, `Printer` and `Drum` come only where that device's count of faults rose in this call.
/// `check` prints the errors of the program; `run` runs it, with what stands behind the first `#` as its data.
pub fn gier<S: Source, K: Sink, D: Drum>(
    alloc: Global,
    words: &[String],
    tape: &mut S,
    out: &mut K,
    drum: &mut D,
) -> Status
    // Wrong words are told and nothing else is done; with right ones that status doesn't come.
    ensures refused { (number : ℕ) → IsFirstWrong (map string_bytes words.now) number →
        Refuses number result (K.holds out.old) (K.holds out.new) × (tape.new ≡ tape.old) × (drum.new ≡ drum.old) }
    ensures accepted { (command : Command) → IsCommand (map string_bytes words.now) command → result ≢ Words }

    // For want of memory nothing was done.
    ensures untouched { result ≡ Memory → (out.new ≡ out.old) × (tape.new ≡ tape.old) }

    // What a command asks for is answered.
    ensures answers { (command : Command) → IsCommand (map string_bytes words.now) command → Answers command most_changes result
        (devices S.left S.faults K.holds K.faults D.room D.tracks D.journal D.faults tape.old out.old drum.old)
        (devices S.left S.faults K.holds K.faults D.room D.tracks D.journal D.faults tape.new out.new drum.new) }

    // A device is named only where it failed in this call.
    ensures faults { NamesFailed result
        (devices S.left S.faults K.holds K.faults D.room D.tracks D.journal D.faults tape.old out.old drum.old)
        (devices S.left S.faults K.holds K.faults D.room D.tracks D.journal D.faults tape.new out.new drum.new) }
{
    match read_words(words) {
        Ok(command) => open_and_work(alloc, &command, tape, out, drum),
        Err(number) => refuse(number, out),
    }
}

// Takes the drum's room, the tables and the runner, in this order, and does the work.
#[tactic(auto, using(crate::proofs::Answering::answers_memory, crate::proofs::Answering::answers_drum))]
fn open_and_work<S: Source, K: Sink, D: Drum>(
    alloc: Global,
    command: &Command,
    tape: &mut S,
    out: &mut K,
    drum: &mut D,
) -> Status
    requires permitted { IsPermitted command.now }
    ensures not_words { result ≢ Words }
    ensures untouched { result ≡ Memory → (out.new ≡ out.old) × (tape.new ≡ tape.old) }
    ensures answers { Answers command.now most_changes result
        (devices S.left S.faults K.holds K.faults D.room D.tracks D.journal D.faults tape.old out.old drum.old)
        (devices S.left S.faults K.holds K.faults D.room D.tracks D.journal D.faults tape.new out.new drum.new) }
    ensures faults { NamesFailed result
        (devices S.left S.faults K.holds K.faults D.room D.tracks D.journal D.faults tape.old out.old drum.old)
        (devices S.left S.faults K.holds K.faults D.room D.tracks D.journal D.faults tape.new out.new drum.new) }
{
    match drum.make_room(tracks_for(LIMIT)) {
        Ok(()) => {}
        Err(RoomFault::Memory) => return Status::Memory,
        Err(RoomFault::Failed) => return Status::Drum,
    }
    let Ok(mut tables) = Tables::open(alloc, LIMIT) else {
        return Status::Memory;
    };
    let Ok(mut runner) = runner_for(alloc, command) else {
        return Status::Memory;
    };
    work(command, tape, out, drum, &mut tables, &mut runner)
}

// A runner with the settings of a command. It keeps the references of a run only where the cheapest plan is asked for.
fn runner_for(alloc: Global, command: &Command) -> Result<Runner, NoMemory>
    requires within { IsWithin command.now.settings }
    ensures settings { IfOk result (λ runner. runner.settings ≡ command.now.settings) }
    ensures traced { IfOk result (λ runner. command.now.best ≡ true → runner.trace.tracks ≡ object_tracks longest) }
    ensures changes { IfOk result (λ runner. command.now.best ≡ true → runner.trace.limit ≡ most_changes) }
{
    if command.best {
        return Runner::open_traced(alloc, command.settings, object_tracks());
    }
    Runner::open(alloc, command.settings)
}

// How many tracks an object may have.
fn object_tracks() -> u32
    ensures { result ≡ object_tracks longest }
{
    tracks_for(LIMIT) - object_track()
}

fn refuse<K: Sink>(number: u32, out: &mut K) -> Status
    ensures not_tape { result ≢ Tape }
    ensures not_drum { result ≢ DrumStatus }
    ensures not_memory { result ≢ Memory }
    ensures not_errors { result ≢ Errors }
    ensures refused { Refuses number result (K.holds out.old) (K.holds out.new) }
    ensures printer_fault { result ≡ Printer → HasRisen (K.faults out.old) (K.faults out.new) }
    ensures printer_later { K.faults out.old ≤ K.faults out.new }
{
    match put_wrong_word(number, out) {
        Ok(()) => Status::Words,
        Err(_) => Status::Printer,
    }
}
