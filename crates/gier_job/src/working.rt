// The work on one tape, for which all room was taken before: the program is checked, and run where that is asked for.
ghost use Rattle.std.specs.Prelude.{◌≡◌, ◌≢◌, ◌≤◌, ◌<◌, [], OnOk, IfOk, IsErr, IsErrOf, length, true, false, is_some, ℕ, List};
ghost use Rattle.std.specs.Prelude.{Option, Some};
ghost use Rattle.gier_word.specs.Cause.{HasRisen};
ghost use Rattle.gier_drum.specs.View.{drum_view, KeepsDrum, StaysTold};
ghost use Rattle.gier_text.specs.TablesModel.{tables_model};
ghost use Rattle.gier_front.specs.declared.stop.FrontStop.TheVariants.{Errors as HasErrors, Read, Drum as DrumStop};
ghost use Rattle.gier_limits.specs.Areas.{longest, all_tracks, object_tracks};
ghost use Rattle.gier_front.specs.Fronted.{IsFronted, HasTextSix};
ghost use Rattle.gier_front.specs.Stops.{NotSpoilt};
ghost use Rattle.gier_job.specs.Answer.{Answers};
ghost use Rattle.gier_job.specs.Command.{IsFew, IsPermitted};
ghost use Rattle.gier_job.specs.Checked.{Prints, TakesFor, FoundFor, IsNotSpoilt};
ghost use Rattle.gier_job.specs.Devices.{devices, NamesFailed};
ghost use Rattle.gier_job.specs.RunAnswer.{IsRunEnd};
ghost use Rattle.gier_job.specs.Reply.{text_for};
ghost use Rattle.gier_job.specs.Early.{AnswersEarly};
ghost use Rattle.gier_front.specs.Early.{early_faults, FindsEarly};
ghost use Rattle.gier_kinds.specs.Errors.{errors};
ghost use Rattle.gier_job.specs.declared.status.Status.TheVariants.{Errors, Words, Tape, Printer, Drum as DrumStatus, Memory};

use crate::Command;
use crate::running::run_fronted;
use crate::status::Status;
use gier_drum::Drum;
use gier_front::{FrontStop, Fronted, front, print_errors};
use gier_io::{Sink, Source};
use gier_runner::Runner;
use gier_sample::SampleSource;
use gier_text::Tables;

/// Does what a command asks for with the program on the tape, or with the sample that it names, and prints the answer.
///
/// The command is one that `read_words` gives; the tables are for programs of 524,288 bytes and hold no fault; the drum has
/// room for so many; and the runner was opened with the command's settings, for `best=yes` with a trace of all tracks that
/// an object may have. No memory is taken, and neither `Words` nor `Memory` comes.
pub fn work<S: Source, K: Sink, D: Drum>(
    command: &Command,
    tape: &mut S,
    out: &mut K,
    drum: &mut D,
    tables: &mut Tables,
    runner: &mut Runner,
) -> Status
    requires permitted { IsPermitted command.now }
    requires limit { (tables_model tables.old).limit ≡ longest }
    requires no_faults { (tables_model tables.old).faults ≡ [] }
    requires room { all_tracks longest ≤ D.room drum.old }
    requires settings { runner.old.settings ≡ command.now.settings }
    requires traced { command.now.best ≡ true → runner.old.trace.tracks ≡ object_tracks longest }
    ensures not_words { result ≢ Words }
    ensures not_memory { result ≢ Memory }

    // The same room serves again, whatever the answer was.
    ensures limit { (tables_model tables.new).limit ≡ longest }
    ensures room { D.room drum.new ≡ D.room drum.old }
    ensures settings { runner.new.settings ≡ runner.old.settings }
    ensures traces { runner.new.trace.tracks ≡ runner.old.trace.tracks }

    // What the command asks for is answered.
    ensures answers { Answers command.now runner.old.trace.limit result
        (devices S.left S.faults K.holds K.faults D.room D.tracks D.journal D.faults tape.old out.old drum.old)
        (devices S.left S.faults K.holds K.faults D.room D.tracks D.journal D.faults tape.new out.new drum.new) }

    // A device is named only where it failed in this call.
    ensures faults { NamesFailed result
        (devices S.left S.faults K.holds K.faults D.room D.tracks D.journal D.faults tape.old out.old drum.old)
        (devices S.left S.faults K.holds K.faults D.room D.tracks D.journal D.faults tape.new out.new drum.new) }
{
    let found = bring_to_text6(command, tape, drum, tables);
    if command.check {
        return told(found, tables, out);
    }
    match found {
        Ok(fronted) => run_fronted(command, fronted, tape, out, drum, tables, runner),
        Err(stop) => told(Err(stop), tables, out),
    }
}

// Brings the sample that the command names, or else the program on the tape, to text 6.
fn bring_to_text6<S: Source, D: Drum>(
    command: &Command,
    tape: &mut S,
    drum: &mut D,
    tables: &mut Tables,
) -> Result<Fronted, FrontStop>
    requires few { IsFew command.now.sample }
    requires limit { (tables_model tables.old).limit ≡ longest }
    requires no_faults { (tables_model tables.old).faults ≡ [] }
    requires room { all_tracks longest ≤ D.room drum.old }
    ensures fronted { IfOk result IsFronted }
    ensures no_faults { OnOk result ((tables_model tables.new).faults ≡ []) }
    ensures limit { (tables_model tables.new).limit ≡ longest }
    ensures keeps { KeepsDrum StaysTold (drum_view D.room D.tracks D.journal D.faults drum.old)
        (drum_view D.room D.tracks D.journal D.faults drum.new) }
    ensures takes { FoundFor command.now.sample result (S.left tape.old) (S.left tape.new) }
    ensures tape_later { S.faults tape.old ≤ S.faults tape.new }
    ensures errors { IsErrOf result HasErrors → 0 < length (tables_model tables.new).faults }
    ensures read { IsErrOf result Read → HasRisen (S.faults tape.old) (S.faults tape.new) }
    ensures drum { IsErrOf result DrumStop → HasRisen (D.faults drum.old) (D.faults drum.new) }
    ensures sound { is_some (D.tracks drum.old) ≡ true → NotSpoilt result }
    ensures text6 { is_some (D.tracks drum.old) ≡ true → IfOk result (HasTextSix (D.tracks drum.new)) }
    ensures counted { (bytes : List ℕ) → S.left tape.old ≡ Some bytes
        → IfOk result (λ fronted. fronted.bytes ≡ length (text_for command.now.sample bytes)) }
    ensures early { (bytes : List ℕ) → S.left tape.old ≡ Some bytes → is_some (D.tracks drum.old) ≡ true
        → FindsEarly result (early_faults (text_for command.now.sample bytes)) (tables_model tables.new).faults }
{
    match command.sample {
        Some(calls) => front(&mut SampleSource::of(calls), drum, tables),
        None => front(tape, drum, tables),
    }
}

// The status of a checked program. Its errors are printed.
fn told<K: Sink>(found: Result<Fronted, FrontStop>, tables: &Tables, out: &mut K) -> Status
    requires errors { IsErrOf found HasErrors → 0 < length (tables_model tables.now).faults }
    ensures not_words { result ≢ Words }
    ensures not_memory { result ≢ Memory }
    ensures prints { Prints result (K.holds out.old) (K.holds out.new) }
    ensures no_run { IsErr found → IsRunEnd result → ⊥ }
    ensures takes { (sample : Option ℕ) (old new : Option (List ℕ)) → FoundFor sample found old new
        → TakesFor sample result old new }
    ensures tape { result ≡ Tape → IsErrOf found Read }
    ensures drum { result ≡ DrumStatus → IsErrOf found DrumStop }
    ensures printer_fault { result ≡ Printer → HasRisen (K.faults out.old) (K.faults out.new) }
    ensures sound { NotSpoilt found → IsNotSpoilt result }
    ensures early { (text : List ℕ) → FindsEarly found (early_faults text) (tables_model tables.now).faults
        → AnswersEarly result (errors text) (K.holds out.old) (K.holds out.new) }
    ensures printer_later { K.faults out.old ≤ K.faults out.new }
{
    match found {
        Ok(_) => Status::Done,
        Err(FrontStop::Errors) => match print_errors(tables, out) {
            Ok(()) => Status::Errors,
            Err(_) => Status::Printer,
        },
        Err(FrontStop::Read) => Status::Tape,
        Err(FrontStop::Drum) => Status::Drum,
        Err(FrontStop::Spoilt(odd)) => Status::Spoilt(odd),
    }
}
