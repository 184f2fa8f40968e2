// The way from the tape to text 6: six passes, one after the other, in which the order of the passes can be read.
ghost use Rattle.std.specs.Prelude.{◌≡◌, ◌≤◌, ◌<◌, ◌+◌, ◌*◌, ℕ, List, length, OnOk, IfOk, IsErrOf, IsTrue, true, false, Some};
ghost use Rattle.std.specs.Prelude.{is_some, []};
ghost use Rattle.gier_word.specs.Cause.{HasRisen};
ghost use Rattle.gier_drum.specs.View.{drum_view, KeepsDrum, StaysTold};
ghost use Rattle.gier_text.specs.SymbolsOnTracks.{tracks_for as tracks_of};
ghost use Rattle.gier_text.specs.TablesModel.{tables_model};
ghost use Rattle.gier_text.specs.Turned.{GoesOn};
ghost use Rattle.gier_text.specs.View.{IsEmpty, IsPlacedAs, Rewinds};
ghost use Rattle.gier_text.specs.declared.text.Way.TheVariants.{Forward};
ghost use Rattle.gier_pass2.specs.Invariant.{IsTextOne};
ghost use Rattle.gier_front.specs.declared.stop.FrontStop.TheVariants.{Errors, Read, Drum as DrumStop};
ghost use Rattle.gier_limits.specs.Areas.{longest, first_of, capacity_of, all_tracks};
ghost use Rattle.gier_symbol.specs.declared.symbol.Symbol.{Symbol};
ghost use Rattle.gier_symbol.specs.Tape.{program_of};
ghost use Rattle.gier_front.specs.Early.{early_faults, faults_of_one, FindsEarly, FindsFirst, ArePlain};
ghost use Rattle.gier_front.specs.Fronted.{IsFronted, HasTextSix, FrontTakes};
ghost use Rattle.gier_front.specs.Passes.{IsToldAs, IsNothing, AreClean};
ghost use Rattle.gier_front.specs.Stops.{NotSpoilt};

use crate::pass_contract::{no_faults, run_pass};
use crate::stop::{FrontStop, of_pass, of_text};
use gier_drum::Drum;
use gier_io::Source;
use gier_limits::{LIMIT, capacity, first_track};
use gier_pass1::{Pass1, ReadStop};
use gier_pass2::Pass2;
use gier_pass3::Pass3;
use gier_pass4::Pass4;
use gier_pass5::Pass5;
use gier_pass6::Pass6;
use gier_text::{DrumText, Fault, FaultKind, Fronted, Tables, Text, Way};

/// Reads a program text from the tape and brings it to text 6 in the first area of the drum.
///
/// The tables are for programs of 524,288 bytes and hold no fault, and the drum has the tracks that `tracks_for` tells for
/// so many. Just the program text with its mark is taken from the tape, or one byte more than the longest one.
pub fn front<S: Source, D: Drum>(
    tape: &mut S,
    drum: &mut D,
    tables: &mut Tables,
) -> Result<Fronted, FrontStop>
    requires limit { (tables_model tables.old).limit ≡ longest }
    requires no_faults { (tables_model tables.old).faults ≡ [] }
    requires room { all_tracks longest ≤ D.room drum.old }
    ensures fronted { IfOk result IsFronted }
    ensures no_faults { OnOk result ((tables_model tables.new).faults ≡ []) }
    ensures limit { (tables_model tables.new).limit ≡ longest }
    ensures keeps { KeepsDrum StaysTold (drum_view D.room D.tracks D.journal D.faults drum.old)
        (drum_view D.room D.tracks D.journal D.faults drum.new) }
    ensures taken { FrontTakes result (S.left tape.old) (S.left tape.new) }
    ensures tape_later { S.faults tape.old ≤ S.faults tape.new }
    ensures errors { IsErrOf result Errors → 0 < length (tables_model tables.new).faults }
    ensures read { IsErrOf result Read → HasRisen (S.faults tape.old) (S.faults tape.new) }
    ensures drum { IsErrOf result DrumStop → HasRisen (D.faults drum.old) (D.faults drum.new) }
    ensures sound { is_some (D.tracks drum.old) ≡ true → NotSpoilt result }
    ensures text6 { is_some (D.tracks drum.old) ≡ true → IfOk result (HasTextSix (D.tracks drum.new)) }
    ensures counted { (bytes : List ℕ) → S.left tape.old ≡ Some bytes
        → IfOk result (λ fronted. fronted.bytes ≡ length (program_of bytes)) }
    ensures early { (bytes : List ℕ) → S.left tape.old ≡ Some bytes → is_some (D.tracks drum.old) ≡ true
        → FindsEarly result (early_faults (program_of bytes)) (tables_model tables.new).faults }
{
    let mut text1 = blank_text(1, LIMIT);
    match read_tape(tape, drum, &mut text1, tables) {
        Ok(bytes) => run_passes(bytes, drum, &mut text1, tables),
        Err(stop) => Err(stop),
    }
}

// The passes behind the first.
fn run_passes<D: Drum>(
    bytes: u32,
    drum: &mut D,
    text1: &mut DrumText<D>,
    tables: &mut Tables,
) -> Result<Fronted, FrontStop>
    requires clean { AreClean bytes (tables_model tables.old) }
    requires few { bytes ≤ longest }
    requires room { all_tracks longest ≤ D.room drum.old }
    requires writing { text1.old.rewound ≡ false }
    requires place { text1.old.first ≡ first_of 1 }
    requires placed { text1.old.first + tracks_of text1.old.capacity ≤ D.room drum.old }
    ensures fronted { IfOk result IsFronted }
    ensures bytes { IfOk result (λ fronted. fronted.bytes ≡ bytes) }
    ensures clean { OnOk result (AreClean bytes (tables_model tables.new)) }
    ensures limit { (tables_model tables.new).limit ≡ (tables_model tables.old).limit }
    ensures keeps { KeepsDrum StaysTold (drum_view D.room D.tracks D.journal D.faults drum.old)
        (drum_view D.room D.tracks D.journal D.faults drum.new) }
    ensures errors { IsErrOf result Errors → 0 < length (tables_model tables.new).faults }
    ensures read { IsErrOf result Read → ⊥ }
    ensures drum { IsErrOf result DrumStop → HasRisen (D.faults drum.old) (D.faults drum.new) }
    ensures sound { is_some (D.tracks drum.old) ≡ true
        → IsToldAs (IsTextOne bytes) (⟦<DrumText<D> as Text>⟧.view text1.old drum.old).held → NotSpoilt result }
    ensures text6 { is_some (D.tracks drum.old) ≡ true
        → IsToldAs (IsTextOne bytes) (⟦<DrumText<D> as Text>⟧.view text1.old drum.old).held
        → IfOk result (HasTextSix (D.tracks drum.new)) }
    ensures early { (list : List Symbol) → (⟦<DrumText<D> as Text>⟧.view text1.old drum.old).held ≡ Some list → ArePlain list
        → is_some (D.tracks drum.old) ≡ true → FindsEarly result (faults_of_one list) (tables_model tables.new).faults }
{
    let mut text2 = blank_text(2, bytes);
    run_pass::<Pass2, DrumText<D>>(bytes, drum, text1, &mut text2, tables)?;
    let mut text3 = blank_text(3, bytes);
    run_pass::<Pass3, DrumText<D>>(bytes, drum, &mut text2, &mut text3, tables)?;
    let mut text4 = blank_text(4, bytes);
    run_pass::<Pass4, DrumText<D>>(bytes, drum, &mut text3, &mut text4, tables)?;
    let mut text5 = blank_text(5, bytes);
    run_pass::<Pass5, DrumText<D>>(bytes, drum, &mut text4, &mut text5, tables)?;
    let mut text6 = blank_text(6, bytes);
    run_pass::<Pass6, DrumText<D>>(bytes, drum, &mut text5, &mut text6, tables)?;
    close(drum, &mut text6, tables)?;
    Ok(Fronted {
        area: 0,
        symbols: text6.len(),
        bytes,
        lengths: [
            text1.len(),
            text2.len(),
            text3.len(),
            text4.len(),
            text5.len(),
        ],
    })
}

// Pass 1. Too long a text has its own error alone.
fn read_tape<S: Source, T: Text>(
    tape: &mut S,
    store: &mut T::Store,
    text: &mut T,
    tables: &mut Tables,
) -> Result<u32, FrontStop>
    requires limit { (tables_model tables.old).limit ≡ longest }
    requires no_faults { (tables_model tables.old).faults ≡ [] }
    requires blank { IsEmpty (T.view text.old store.old) }
    requires placed { T.end_track text.old ≤ T.room store.old }
    ensures few { IfOk result (λ bytes. bytes ≤ longest) }
    ensures counted { (bytes : List ℕ) → S.left tape.old ≡ Some bytes → IfOk result (λ count. count ≡ length (program_of bytes)) }
    ensures no_faults { OnOk result ((tables_model tables.new).faults ≡ []) }
    ensures limit { (tables_model tables.new).limit ≡ longest }
    ensures goes_on { OnOk result (GoesOn (T.view text.old store.old) (T.view text.new store.new)) }
    ensures gives { IsToldAs IsNothing (T.view text.old store.old).held
        → IfOk result (λ bytes. IsToldAs (IsTextOne bytes) (T.view text.new store.new).held) }
    ensures place { IsPlacedAs T.first_track T.end_track text.old text.new }
    ensures keeps { KeepsDrum StaysTold (drum_view T.room T.tracks T.journal T.faults store.old)
        (drum_view T.room T.tracks T.journal T.faults store.new) }
    ensures taken { FrontTakes result (S.left tape.old) (S.left tape.new) }
    ensures tape_later { S.faults tape.old ≤ S.faults tape.new }
    ensures errors { IsErrOf result Errors → 0 < length (tables_model tables.new).faults }
    ensures read { IsErrOf result Read → HasRisen (S.faults tape.old) (S.faults tape.new) }
    ensures drum { IsErrOf result DrumStop → HasRisen (T.faults store.old) (T.faults store.new) }
    ensures sound { T.grows ≡ false → (T.view text.old store.old).capacity ≡ Some (capacity_of longest) → NotSpoilt result }
    ensures early { (bytes : List ℕ) → S.left tape.old ≡ Some bytes → IsToldAs IsNothing (T.view text.old store.old).held
        → FindsFirst result (program_of bytes) (tables_model tables.new).faults (T.view text.new store.new).held }
{
    match Pass1::read(tape, store, text, tables) {
        Ok(bytes) => match no_faults(tables) {
            Ok(()) => Ok(bytes),
            Err(stop) => Err(stop),
        },
        Err(ReadStop::TooLong) => {
            tables.drop_faults();
            tables.add_fault(Fault {
                position: 0,
                line: 0,
                kind: FaultKind::TooLong,
            });
            Err(FrontStop::Errors)
        }
        Err(ReadStop::Read) => Err(FrontStop::Read),
        Err(ReadStop::Pass(stop)) => Err(of_pass(stop)),
    }
}

// Ends the writing of text 6, so that all of it lies on the drum.
fn close<T: Text>(store: &mut T::Store, text: &mut T, tables: &mut Tables) -> Result<(), FrontStop>
    requires writing { (T.view text.old store.old).rewound ≡ false }
    requires placed { T.end_track text.old ≤ T.room store.old }
    ensures cleared { tables_model tables.new ≡ record (tables_model tables.old) { used = 0; lists = [] } }
    ensures count { OnOk result ((T.view text.new store.new).count ≡ (T.view text.old store.old).count) }
    ensures capacity { OnOk result ((T.view text.new store.new).capacity ≡ (T.view text.old store.old).capacity) }
    ensures rewinds { OnOk result (Rewinds (T.view text.old store.old) Forward (T.view text.new store.new)) }
    ensures place { IsPlacedAs T.first_track T.end_track text.old text.new }
    ensures keeps { KeepsDrum StaysTold (drum_view T.room T.tracks T.journal T.faults store.old)
        (drum_view T.room T.tracks T.journal T.faults store.new) }
    ensures errors { IsErrOf result Errors → ⊥ }
    ensures read { IsErrOf result Read → ⊥ }
    ensures drum { IsErrOf result DrumStop → HasRisen (T.faults store.old) (T.faults store.new) }
    ensures sound { T.grows ≡ false → NotSpoilt result }
{
    tables.clear();
    match text.rewind(store, Way::Forward) {
        Ok(()) => Ok(()),
        Err(stop) => Err(of_text(stop)),
    }
}

// A text with this number, from 1 to 8, of which nothing was written, in its area.
fn blank_text<D: Drum>(number: u8, bytes: u32) -> DrumText<D>
    requires few { bytes ≤ longest }
    ensures empty { (result.count ≡ 0) × (result.rewound ≡ false) }
    ensures place { (result.first ≡ first_of number) × (result.capacity ≡ capacity_of bytes) }
    ensures told { (drum : D) → is_some (D.tracks drum) ≡ true
        → IsToldAs IsNothing (⟦<DrumText<D> as Text>⟧.view result drum).held }
{
    DrumText::at(first_track(number), capacity(bytes))
}
