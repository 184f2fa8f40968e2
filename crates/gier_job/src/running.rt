// Runs a checked program: its object is made, run, and what the command asks for is printed behind what the program printed.
ghost use Rattle.std.specs.Prelude.{◌≡◌, ◌≢◌, ◌≤◌, ◌<◌, ◌+◌, ◌^◌, ◌++◌, ℕ, List, [], IsOk, IsErr, IsErrOf, IfErr, IfOk, IfSome};
ghost use Rattle.std.specs.Prelude.{OnOk, Some, length, map, take, slice_index, is_some, true, false};
ghost use Rattle.gier_word.specs.Cause.{HasCause, HasRisen};
ghost use Rattle.gier_text.specs.TablesModel.{tables_model};
ghost use Rattle.gier_drum.specs.View.{drum_view, KeepsDrum, StaysTold};
ghost use Rattle.gier_io.specs.Device.{Puts};
ghost use Rattle.gier_io.specs.View.{sink_view, PutsOrFails};
ghost use Rattle.gier_order.specs.Counts.{StandsFor as Counts};
ghost use Rattle.gier_best.specs.TraceModel.{HasNoted, AreTracks};
ghost use Rattle.gier_library.specs.Data.{limit};
ghost use Rattle.gier_order.specs.Flat.Run.{flat};
ghost use Rattle.gier_order.specs.declared.object.Object.{Object};
ghost use Rattle.gier_exec.specs.Rows.{code_in};
ghost use Rattle.gier_back.specs.Compiled.{IsObject};
ghost use Rattle.gier_runner.specs.State.{report_of};
ghost use Rattle.gier_exec.specs.Reading.{tracks_for};
ghost use Rattle.gier_limits.specs.Areas.{longest, all_tracks, object_tracks, capacity_of, first_of, object_first};
ghost use Rattle.gier_front.specs.Fronted.{IsFronted, HasTextSix};
ghost use Rattle.gier_job.specs.Command.{IsWithin};
ghost use Rattle.gier_job.specs.Devices.{devices, NamesFailed, StopsBehind};
ghost use Rattle.gier_job.specs.Status.{of_ending, IsOfRun};
ghost use Rattle.gier_job.specs.RunTails.{table_from, most_places};
ghost use Rattle.gier_job.specs.RunAnswer.{IsRunEnd, IsAnswered, IsDefined};
ghost use Rattle.gier_frames.specs.Stop.{activations};
ghost use Rattle.gier_runner.specs.Live.{live_of};
ghost use Rattle.gier_job.specs.Mortem.{PutsTails};
ghost use Rattle.gier_job.specs.TailsOfRun.{end_tail, taken_tail, misses_tail, best_plan_tail, cost_tails, count_tails};
ghost use Rattle.gier_job.specs.TailsOfRun.{run_tails, has_mortem};
ghost use Rattle.gier_job.specs.declared.status.Status.TheVariants.{Tape, Printer, Drum as DrumStatus};

use crate::Command;
use crate::mortem::put_mortem;
use crate::status::{Status, of_ending, of_printer};
use crate::tails::{put_alarm, put_best, put_no_plan, put_report, put_steps, put_table};
use gier_back::{BackStop, back};
use gier_drum::Drum;
use gier_front::Fronted;
use gier_io::{Sink, Source};
use gier_order::Object;
use gier_runner::{Ending, Runner};
use gier_text::Tables;
use gier_word::Failed;

// The table tells the misses for 1 place and more, up to so many.
const MOST_PLACES: usize = 64;

/// Makes the object of the program whose text 6 lies on the drum, runs it with the rest of the tape as its data, and prints
/// the tails.
pub(crate) fn run_fronted<S: Source, K: Sink, D: Drum>(
    command: &Command,
    fronted: Fronted,
    tape: &mut S,
    out: &mut K,
    drum: &mut D,
    tables: &mut Tables,
    runner: &mut Runner,
) -> Status
    requires within { IsWithin command.now.settings }
    requires fronted { IsFronted fronted }
    requires limit { (tables_model tables.old).limit ≡ longest }
    requires no_faults { (tables_model tables.old).faults ≡ [] }
    requires room { all_tracks longest ≤ D.room drum.old }
    requires settings { runner.old.settings ≡ command.now.settings }
    requires traced { command.now.best ≡ true → runner.old.trace.tracks ≡ object_tracks longest }
    ensures of_run { IsOfRun result }
    ensures runs { (tracks : List (List ℕ)) (bytes : List ℕ) → D.tracks drum.new ≡ Some tracks → S.left tape.old ≡ Some bytes
        → IsRunEnd result
        → (object : Object) × IsObject fronted object
        × (HasTextSix (D.tracks drum.old) fronted → IsDefined fronted.bytes tracks command.now.mortem object)
        × IsAnswered command.now runner.old.trace.limit object
        (flat (code_in tracks object) object.start (take limit bytes) command.now.settings.steps command.now.settings.stack)
        result (K.holds out.old) (K.holds out.new) (D.journal drum.new) }
    ensures limit { (tables_model tables.new).limit ≡ longest }
    ensures keeps { KeepsDrum StaysTold (drum_view D.room D.tracks D.journal D.faults drum.old)
        (drum_view D.room D.tracks D.journal D.faults drum.new) }
    ensures settings { runner.new.settings ≡ runner.old.settings }
    ensures traces { runner.new.trace.tracks ≡ runner.old.trace.tracks }
    ensures faults { NamesFailed result
        (devices S.left S.faults K.holds K.faults D.room D.tracks D.journal D.faults tape.old out.old drum.old)
        (devices S.left S.faults K.holds K.faults D.room D.tracks D.journal D.faults tape.new out.new drum.new) }
{
    let object = match back(fronted, drum, tables) {
        Ok(object) => object,
        Err(BackStop::Drum) => return Status::Drum,
        Err(BackStop::Spoilt(odd)) => return Status::Spoilt(odd),
    };
    let ending = runner.run(&object, drum, tape, out);
    match conclude(command, ending, &object, out, drum, runner) {
        Ok(()) => of_ending(ending),
        Err(stop) => stop,
    }
}

// The tails in their order; none where a device failed or the drum was spoilt.
fn conclude<K: Sink, D: Drum>(
    command: &Command,
    ending: Ending,
    object: &Object,
    out: &mut K,
    drum: &mut D,
    runner: &mut Runner,
) -> Result<(), Status>
    requires within { IsWithin command.now.settings }
    requires noted { command.now.best ≡ true → AreTracks runner.old.trace }
    requires text { slice_index object.now.lengths 6 ≤ capacity_of longest }
    requires room { all_tracks longest ≤ D.room drum.old }
    ensures put { (tracks notes : List ℕ) → Counts runner.old.recent tracks → HasNoted runner.old.trace notes
        → OnOk result (PutsTails (has_mortem command.now.mortem ending)
        (run_tails ending command.now (report_of runner.old) runner.old.trace.limit tracks notes)
        (map live_of (activations runner.old.frames))
        (K.holds out.old) (K.holds out.new)) }
    ensures untouched { command.now.mortem ≡ false → drum.new ≡ drum.old }
    ensures settings { runner.new.settings ≡ runner.old.settings }
    ensures traces { runner.new.trace.tracks ≡ runner.old.trace.tracks }
    ensures stops { StopsBehind result (sink_view K.holds K.faults out.old) (sink_view K.holds K.faults out.new)
        (drum_view D.room D.tracks D.journal D.faults drum.old) (drum_view D.room D.tracks D.journal D.faults drum.new) }
{
    match ending {
        Ending::Ended => of_printer(put_counts(command, runner, out)),
        Ending::Alarm(_) | Ending::Steps => {
            match of_printer(put_stopped(command, ending, runner, out)) {
                Ok(()) => {}
                Err(stop) => return Err(stop),
            }
            if command.mortem {
                return put_mortem(object, runner, drum, out);
            }
            Ok(())
        }
        Ending::Read | Ending::Write | Ending::Drum | Ending::Spoilt(_) => Ok(()),
    }
}

// How the run ended, and what is asked for of it.
#[tactic(auto, using(gier_io::proofs::Prints::puts_more))]
fn put_stopped<K: Sink>(
    command: &Command,
    ending: Ending,
    runner: &mut Runner,
    out: &mut K,
) -> Result<(), Failed>
    requires within { IsWithin command.now.settings }
    requires noted { command.now.best ≡ true → AreTracks runner.old.trace }
    ensures settings { runner.new.settings ≡ runner.old.settings }
    ensures traces { runner.new.trace.tracks ≡ runner.old.trace.tracks }
    ensures frames { runner.new.frames ≡ runner.old.frames }
    ensures put { (tracks notes : List ℕ) → Counts runner.old.recent tracks → HasNoted runner.old.trace notes →
        OnOk result (Puts (K.holds out.old) (end_tail ending ++ count_tails command.now
        (report_of runner.old) runner.old.trace.limit tracks notes) (K.holds out.new)) }
    ensures cause { HasCause (K.faults out.old) (K.faults out.new) result }
{
    match put_ending(ending, out) {
        Ok(()) => put_counts(command, runner, out),
        Err(failed) => Err(failed),
    }
}

// The tail that names the ending; there is none for a run that came to its end.
#[tactic(auto, using(gier_io::proofs::Prints::puts_none))]
fn put_ending<K: Sink>(ending: Ending, out: &mut K) -> Result<(), Failed>
    ensures put { OnOk result (Puts (K.holds out.old) (end_tail ending) (K.holds out.new)) }
    ensures cause { HasCause (K.faults out.old) (K.faults out.new) result }
{
    match ending {
        Ending::Alarm(alarm) => put_alarm(alarm.name().as_bytes(), out),
        Ending::Steps => put_steps(out),
        Ending::Ended | Ending::Read | Ending::Write | Ending::Drum | Ending::Spoilt(_) => Ok(()),
    }
}

// The tails that are asked for of every run that no device stopped.
#[tactic(auto, using(gier_io::proofs::Prints::puts_more))]
fn put_counts<K: Sink>(command: &Command, runner: &mut Runner, out: &mut K) -> Result<(), Failed>
    requires within { IsWithin command.now.settings }
    requires noted { command.now.best ≡ true → AreTracks runner.old.trace }
    ensures settings { runner.new.settings ≡ runner.old.settings }
    ensures traces { runner.new.trace.tracks ≡ runner.old.trace.tracks }
    ensures frames { runner.new.frames ≡ runner.old.frames }
    ensures put { (tracks notes : List ℕ) → Counts runner.old.recent tracks → HasNoted runner.old.trace notes →
        OnOk result (Puts (K.holds out.old) (count_tails command.now
        (report_of runner.old) runner.old.trace.limit tracks notes) (K.holds out.new)) }
    ensures cause { HasCause (K.faults out.old) (K.faults out.new) result }
{
    match put_taken(command, runner, out) {
        Ok(()) => put_costs(command, runner, out),
        Err(failed) => Err(failed),
    }
}

// The report, where it is asked for.
#[tactic(auto, using(gier_io::proofs::Prints::puts_none))]
fn put_taken<K: Sink>(command: &Command, runner: &Runner, out: &mut K) -> Result<(), Failed>
    ensures put { OnOk result (Puts (K.holds out.old) (taken_tail command.now.report (report_of runner.now)) (K.holds out.new)) }
    ensures cause { HasCause (K.faults out.old) (K.faults out.new) result }
{
    if !command.report {
        return Ok(());
    }
    let report = runner.report();
    put_report(report.steps, report.transfers, report.words, out)
}

// What the references of the run cost with other numbers of places, and by the cheapest plan.
#[tactic(auto, using(gier_io::proofs::Prints::puts_more))]
fn put_costs<K: Sink>(command: &Command, runner: &mut Runner, out: &mut K) -> Result<(), Failed>
    requires within { IsWithin command.now.settings }
    requires noted { command.now.best ≡ true → AreTracks runner.old.trace }
    ensures settings { runner.new.settings ≡ runner.old.settings }
    ensures traces { runner.new.trace.tracks ≡ runner.old.trace.tracks }
    ensures frames { runner.new.frames ≡ runner.old.frames }
    ensures put { (tracks notes : List ℕ) → Counts runner.old.recent tracks → HasNoted runner.old.trace notes →
        OnOk result (Puts (K.holds out.old) (cost_tails command.now runner.old.trace.limit tracks notes) (K.holds out.new)) }
    ensures cause { HasCause (K.faults out.old) (K.faults out.new) result }
{
    match put_misses(command, runner, out) {
        Ok(()) => put_cheapest(command, runner, out),
        Err(failed) => Err(failed),
    }
}

// The table of misses, where it is asked for.
#[tactic(auto, using(gier_io::proofs::Prints::puts_none))]
fn put_misses<K: Sink>(command: &Command, runner: &Runner, out: &mut K) -> Result<(), Failed>
    ensures put { (tracks : List ℕ) → Counts runner.now.recent tracks →
        OnOk result (Puts (K.holds out.old) (misses_tail command.now.table tracks) (K.holds out.new)) }
    ensures cause { HasCause (K.faults out.old) (K.faults out.new) result }
{
    if !command.table {
        return Ok(());
    }
    put_table(&misses(runner), out)
}

// The misses for 1 place and more.
fn misses(runner: &Runner) -> [u128; MOST_PLACES]
    ensures { (tracks : List ℕ) → Counts runner.now.recent tracks → result ≡ table_from tracks most_places 1 }
{
    let mut misses = [0; MOST_PLACES];
    for at in 0..MOST_PLACES {
        misses[at] = runner.misses(at as u8 + 1);
    }
    misses
}

// The cheapest plan for the references of the run, where it is asked for.
#[tactic(auto, using(gier_io::proofs::Prints::puts_none))]
fn put_cheapest<K: Sink>(command: &Command, runner: &mut Runner, out: &mut K) -> Result<(), Failed>
    requires within { IsWithin command.now.settings }
    requires noted { command.now.best ≡ true → AreTracks runner.old.trace }
    ensures settings { runner.new.settings ≡ runner.old.settings }
    ensures traces { runner.new.trace.tracks ≡ runner.old.trace.tracks }
    ensures frames { runner.new.frames ≡ runner.old.frames }
    ensures put { (notes : List ℕ) → HasNoted runner.old.trace notes →
        OnOk result (Puts (K.holds out.old) (best_plan_tail command.now.best runner.old.trace.limit notes
        command.now.settings.places) (K.holds out.new)) }
    ensures cause { HasCause (K.faults out.old) (K.faults out.new) result }
{
    if !command.best {
        return Ok(());
    }
    let trace = runner.trace();
    match trace.best(command.settings.places) {
        Some(cost) => put_best(cost, trace, out),
        None => put_no_plan(out),
    }
}
