// One order of the machine: its word is read and decoded, and the order is carried out.
ghost use Rattle.std.specs.Prelude.{◌≡◌, ◌≢◌, ◌+◌, ◌*◌, ◌<◌, ◌≤◌, ◌^◌, ◌++◌, ℕ, List, Some, length};
ghost use Rattle.gier_places.specs.Contents.{Agrees};
ghost use Rattle.gier_order.specs.Flat.Rows.{row as row_of_order};
ghost use Rattle.gier_exec.specs.Rows.{regs_of, word_in, code_in};
ghost use Rattle.gier_exec.specs.References.{Refers};
ghost use Rattle.gier_exec.specs.Turning.{IsRest, RefinesTurn, turn_of_stop};
ghost use Rattle.gier_io.specs.Device.{Puts};
ghost use Rattle.gier_library.specs.Data.{Takes};
ghost use Rattle.gier_word.specs.Cause.{HasRisen};
ghost use Rattle.gier_order.specs.Counts.{references_taken};
ghost use Rattle.gier_library.specs.DataView.{source_of, has_ended, stand_of};
ghost use Rattle.gier_best.specs.TraceModel.{AreTracks, KeepsSettings};
ghost use Rattle.gier_exec.specs.Registers.{measure};
ghost use Rattle.gier_exec.specs.Reading.{tracks_for, ReadsMore, view_of};
ghost use Rattle.gier_exec.specs.declared.turn.Turn.TheVariants.{On, Read, Write, Drum as DrumFailed, Spoilt};
ghost use Rattle.gier_exec.specs.declared.stop.Stop.TheVariants.{Odd as StopOdd};
ghost use Rattle.gier_word.specs.declared.refusal.Odd.{Odd};
ghost use Rattle.gier_exec.specs.declared.stop.Miss.TheVariants.{Drum as MissedDrum, Stop as Stopped};
ghost use Rattle.gier_exec.specs.declared.stop.Quit.TheVariants.{Miss as Missed, Read as QuitRead, Write as QuitWrite};

use crate::execute::execute;
use crate::pager::Pager;
use crate::reading::read_word;
use crate::stop::{Miss, Quit, Stop};
use crate::{Machine, Turn};
use gier_best::Trace;
use gier_drum::Drum;
use gier_frames::Frames;
use gier_io::{Sink, Source};
use gier_library::Data;
use gier_order::{Object, Order, Recent};
use gier_places::Places;
use gier_word::Odd;

/// Executes the order at the machine's place.
///
/// The words of the object are read through `places` alone, and each is noted in `recent`, by its track on the drum, and in
/// `trace`, by its track within the object. `Read`, `Write` and `Drum` come only where the device's count of faults rose.
/// A Turn other than On leaves `place` at the order, and Spoilt leaves the machine, the frames, the data and the printer as they
/// were. The object has at most 2^24 words, `place` is one of their addresses, and
/// the tracks of the object lie in the drum's room. Fewer than 2^119 references and transfers were counted.
#[inline(always)]
pub fn step_order<D: Drum, S: Source, K: Sink>(
    m: &mut Machine,
    frames: &mut Frames,
    places: &mut Places,
    recent: &mut Recent,
    object: &Object,
    drum: &mut D,
    input: &mut Data<S>,
    out: &mut K,
    trace: &mut Trace,
) -> Turn
    requires place { m.old.place < object.now.words }
    requires words { object.now.words ≤ 2 ^ 24 }
    requires in_room { object.now.first_track + tracks_for object.now.words ≤ D.room drum.old }
    requires references { references_taken recent.old < 2 ^ 119 }
    requires transfers { places.old.transfers < 2 ^ 119 }
    ensures on { result ≡ On → m.new.place < object.now.words }
    ensures stays { result ≢ On → m.new.place ≡ m.old.place }
    ensures spoilt { (odd : Odd) → result ≡ Spoilt odd → (m.new ≡ m.old)
        × ((frames.new ≡ frames.old) × ((out.new ≡ out.old) × (input.new ≡ input.old))) }
    ensures order { (odd : Odd) → result ≡ Spoilt odd → odd.place ≡ m.old.place }
    ensures row { (tracks : List (List ℕ)) → D.tracks drum.old ≡ Some tracks → Agrees (Some tracks) places.old.held
        → (read put references_taken : List ℕ) × Refers object.now read
        (view_of D.room D.tracks D.journal D.faults drum.old places.old recent.old trace.old)
        (view_of D.room D.tracks D.journal D.faults drum.new places.new recent.new trace.new)
        × Puts (K.holds out.old) put (K.holds out.new)
        × Takes (stand_of S.left input.old) references_taken (stand_of S.left input.new)
        × ((rest : List ℕ) → IsRest (has_ended input.new) rest
        → RefinesTurn (row_of_order (code_in tracks object.now) (length frames.old.words)
        (regs_of m.old frames.old (references_taken ++ rest))) (regs_of m.old frames.old (references_taken
        ++ rest)) (regs_of m.new frames.new rest)
        read put references_taken m.old.place (word_in tracks object.now m.old.place) result) }
    ensures measure { result ≡ On → measure object.now.words m.new < measure object.now.words m.old }
    ensures steps { m.new.steps ≤ m.old.steps }
    ensures references { references_taken recent.new ≤ references_taken recent.old + 2 * object.now.words + 2 }
    ensures transfers { places.new.transfers ≤ places.old.transfers + 2 * object.now.words + 2 }
    ensures places { places.new.places ≡ places.old.places }
    ensures frames { length frames.new.words ≡ length frames.old.words }
    ensures room { D.room drum.new ≡ D.room drum.old }
    ensures tracks { D.tracks drum.new ≡ D.tracks drum.old }
    ensures journal { ReadsMore (D.journal drum.old) (D.journal drum.new) }
    ensures trace { KeepsSettings trace.old trace.new }
    ensures noted { tracks_for object.now.words ≤ trace.old.tracks → AreTracks trace.old → AreTracks trace.new }
    ensures same_reference { input.new.source.ghost_name ≡ input.old.source.ghost_name }
    ensures drum_later { D.faults drum.old ≤ D.faults drum.new }
    ensures drum_failed { result ≡ DrumFailed → HasRisen (D.faults drum.old) (D.faults drum.new) }
    ensures source_later { S.faults (source_of input.old) ≤ S.faults (source_of input.new) }
    ensures source_failed { result ≡ Read → HasRisen (S.faults (source_of input.old)) (S.faults (source_of input.new)) }
    ensures sink_later { K.faults out.old ≤ K.faults out.new }
    ensures sink_failed { result ≡ Write → HasRisen (K.faults out.old) (K.faults out.new) }
{
    let place = m.place();
    let mut pager = Pager {
        drum,
        places,
        recent,
        trace,
    };
    let word = match read_word(object, &mut pager, place) {
        Ok(word) => word,
        Err(_) => return Turn::Drum,
    };
    let Some(order) = Order::decode(word) else {
        return spoilt(place, word);
    };
    match execute(m, frames, object, &mut pager, input, out, order) {
        Ok(next) => {
            m.set_place(next);
            Turn::On
        }
        Err(quit) => turn_of(quit, place, word),
    }
}

// The order at a place isn't allowed there.
fn spoilt(place: u32, word: u64) -> Turn
    ensures { result ≡ Spoilt (record { place = place; word = word }) }
{
    Turn::Spoilt(Odd {
        place: u64::from(place),
        word,
    })
}

// What comes of an order at a place that doesn't let the run go on.
#[inline(always)]
fn turn_of(quit: Quit, place: u32, word: u64) -> Turn
    ensures value { result ≡ turn_of_stop quit place word }
    ensures off { result ≢ On }
    ensures drum { result ≡ DrumFailed → quit ≡ Missed MissedDrum }
    ensures read { result ≡ Read → quit ≡ QuitRead }
    ensures write { result ≡ Write → quit ≡ QuitWrite }
    ensures spoilt { (odd : Odd) → result ≡ Spoilt odd → quit ≡ Missed (Stopped StopOdd) }
    ensures place { (odd : Odd) → result ≡ Spoilt odd → odd ≡ record { place = place; word = word } }
{
    match quit {
        Quit::Read => Turn::Read,
        Quit::Write => Turn::Write,
        Quit::Miss(Miss::Drum) => Turn::Drum,
        Quit::Miss(Miss::Stop(Stop::Ended)) => Turn::Ended,
        Quit::Miss(Miss::Stop(Stop::Alarm(alarm))) => Turn::Alarm(alarm),
        Quit::Miss(Miss::Stop(Stop::Steps)) => Turn::Steps,
        Quit::Miss(Miss::Stop(Stop::Odd)) => spoilt(place, word),
    }
}
