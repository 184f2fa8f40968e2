// One order after another, until one ends the run.
ghost use Rattle.std.specs.Prelude.{◌≡◌, ◌≤◌, ◌<◌, ◌^◌, ◌+◌, ◌++◌, ℕ, List, Some, length};
ghost use Rattle.gier_word.specs.Cause.{HasRisen};
ghost use Rattle.gier_places.specs.Contents.{Agrees};
ghost use Rattle.gier_io.specs.Device.{Puts};
ghost use Rattle.gier_library.specs.Data.{Takes};
ghost use Rattle.gier_library.specs.DataView.{source_of, has_ended, stand_of};
ghost use Rattle.gier_exec.specs.Reading.{tracks_for, view_of};
ghost use Rattle.gier_exec.specs.Rows.{regs_of, code_in};
ghost use Rattle.gier_exec.specs.References.{Refers};
ghost use Rattle.gier_exec.specs.Turning.{IsRest};
ghost use Rattle.gier_runner.specs.FlatRun.{RunsTo};
ghost use Rattle.gier_runner.specs.RunInvariant.{Counted, KeepsSizes, OnlyReads, devices, parts};
ghost use Rattle.gier_runner.specs.declared.ending.Ending.TheVariants.{Read, Write, Drum as DrumFailed};

use crate::Ending;
use crate::ending::ending_of;
use gier_best::Trace;
use gier_drum::Drum;
use gier_exec::{Machine, step_order};
use gier_frames::Frames;
use gier_io::{Sink, Source};
use gier_library::Data;
use gier_order::{Object, Recent};
use gier_places::Places;

/// Obeys the orders from the machine's place on, and leaves the place at the one that ended the run.
#[tactic(auto, using(crate::proofs::Numbers::next_counts, crate::proofs::OrdersTogether::one_more))]
pub(crate) fn run_orders<D: Drum, S: Source, K: Sink>(
    m: &mut Machine,
    frames: &mut Frames,
    places: &mut Places,
    recent: &mut Recent,
    object: &Object,
    drum: &mut D,
    input: &mut Data<S>,
    out: &mut K,
    trace: &mut Trace,
) -> Ending
    requires place { m.old.place < object.now.words }
    requires words { object.now.words ≤ 2 ^ 24 }
    requires in_room { object.now.first_track + tracks_for object.now.words ≤ D.room drum.old }
    requires counted { Counted object.now.words m.old recent.old places.old }
    ensures place { m.new.place < object.now.words }
    ensures flat { (tracks : List (List ℕ)) → D.tracks drum.old ≡ Some tracks → Agrees (Some tracks) places.old.held
        → (read put taken : List ℕ)
        × Refers object.now read (view_of D.room D.tracks D.journal D.faults drum.old places.old recent.old trace.old)
        (view_of D.room D.tracks D.journal D.faults drum.new places.new recent.new trace.new)
        × Puts (K.holds out.old) put (K.holds out.new) × Takes (stand_of S.left input.old) taken (stand_of S.left input.new)
        × ((rest : List ℕ) → IsRest (has_ended input.new) rest
        → RunsTo (code_in tracks object.now) (length frames.old.words) (regs_of m.old frames.old (taken ++ rest))
        (regs_of m.new frames.new rest) read put result) }
    ensures sizes { KeepsSizes object.now.words (parts m.old frames.old places.old trace.old)
        (parts m.new frames.new places.new trace.new) }
    ensures reads { OnlyReads (devices D.room D.tracks D.journal D.faults S.faults K.faults drum.old (source_of input.old) out.old)
        (devices D.room D.tracks D.journal D.faults S.faults K.faults drum.new (source_of input.new) out.new) }
    ensures same_reference { input.new.source.ghost_name ≡ input.old.source.ghost_name }
    ensures drum_failed { result ≡ DrumFailed → HasRisen (D.faults drum.old) (D.faults drum.new) }
    ensures source_failed { result ≡ Read → HasRisen (S.faults (source_of input.old)) (S.faults (source_of input.new)) }
    ensures sink_failed { result ≡ Write → HasRisen (K.faults out.old) (K.faults out.new) }
{
    loop {
        let turn = step_order(m, frames, places, recent, object, drum, input, out, trace);
        if let Some(ending) = ending_of(turn) {
            return ending;
        }
    }
}
