// The way from text 6 to the object: three passes, one after the other.
ghost use Rattle.std.specs.Prelude.{◌≡◌, ◌≤◌, ◌+◌, ◌*◌, [], List, ℕ, IfOk, OnOk, IsErrOf, Some, false, reverse, is_some, true};
ghost use Rattle.std.specs.Prelude.{length, slice_index};
ghost use Rattle.gier_word.specs.Cause.{HasRisen};
ghost use Rattle.gier_drum.specs.View.{drum_view, PreservesDrum};
ghost use Rattle.gier_symbol.specs.declared.symbol.Symbol.{Symbol};
ghost use Rattle.gier_limits.specs.Areas.{longest, all_tracks, first_of, capacity_of, words_of, object_first};
ghost use Rattle.gier_text.specs.declared.pass.PassStop.TheVariants.{Drum as PassDrum};
ghost use Rattle.gier_text.specs.declared.text.Way.TheVariants.{Backward};
ghost use Rattle.gier_text.specs.SymbolsOnTracks.{tracks_for as tracks_of_text};
ghost use Rattle.gier_text.specs.Potential.{IsShort, IsWithinPotential};
ghost use Rattle.gier_text.specs.TablesModel.{tables_model, fresh};
ghost use Rattle.gier_text.specs.Turned.{CanDrive};
ghost use Rattle.gier_text.specs.View.{KeepsTracks, SameTracks};
ghost use Rattle.gier_pass8.specs.Invariant.{Relates};
ghost use Rattle.gier_pass9.specs.ObjectOfText.{object_words, HoldsWords};
ghost use Rattle.gier_pass9.specs.Object.{tracks_of};
ghost use Rattle.gier_pass9.specs.PassOutput.{IsWrong};
ghost use Rattle.gier_back.specs.declared.stop.BackStop.TheVariants.{Drum as DrumStop};
ghost use Rattle.gier_text.specs.SymbolsOnTracks.{text_on};
ghost use Rattle.gier_back.specs.Compiled.{AreLengths, HoldsSeven, IsObject, IsMade, IsNoObject};
ghost use Rattle.gier_back.specs.Passes.{Passes, Writes, Stays, HasRoom};
ghost use Rattle.gier_back.specs.Stops.{OnlyDrum, DrumOr, SpoiltAs};

use crate::stop::{BackStop, of_pass};
use crate::turned::drive_turned;
use gier_drum::Drum;
use gier_limits::{capacity, first_track, object_track, object_words};
use gier_order::Object;
use gier_pass7::Pass7;
use gier_pass8::Pass8;
use gier_pass9::Pass9;
use gier_text::{DrumText, Fronted, PassStop, Tables, Text, Way, pass_stop};

/// Brings text 6, which lies in the first area of the drum, to an object behind the areas.
///
/// The tables are for programs of 524,288 bytes and hold no fault, and the drum has the tracks that programs of so many bytes need.
/// Text 7 lies in the second area afterwards.
pub fn back<D: Drum>(
    fronted: Fronted,
    drum: &mut D,
    tables: &mut Tables,
) -> Result<Object, BackStop>
    requires limit { (tables_model tables.old).limit ≡ longest }
    requires no_faults { (tables_model tables.old).faults ≡ [] }
    requires room { all_tracks longest ≤ D.room drum.old }
    requires area { fronted.area ≡ 0 }
    requires bytes { fronted.bytes ≤ longest }
    requires symbols { fronted.symbols ≤ capacity_of fronted.bytes }
    ensures object { IfOk result (IsObject fronted) }
    ensures made { (list : List Symbol) → text_on (D.tracks drum.old) (first_of 6) fronted.symbols ≡ Some list
        → IsWithinPotential 6 fronted.bytes list → IfOk result (IsMade (D.tracks drum.new) fronted.bytes) }
    ensures in_room { IfOk result (λ object. object.first_track + tracks_of object.words ≤ D.room drum.new) }
    ensures limit { (tables_model tables.new).limit ≡ longest }
    ensures text7 { (list : List Symbol) → text_on (D.tracks drum.old) (first_of 6) fronted.symbols ≡ Some list
        → IsWithinPotential 6 fronted.bytes list
        → IfOk result (λ object. HoldsSeven (D.tracks drum.new) (first_of 7) fronted.bytes (slice_index object.lengths 6)) }
    ensures changes { PreservesDrum (KeepsTracks 0 (all_tracks longest)) (drum_view D.room D.tracks D.journal D.faults drum.old)
        (drum_view D.room D.tracks D.journal D.faults drum.new) }
    ensures drum { IsErrOf result DrumStop → HasRisen (D.faults drum.old) (D.faults drum.new) }
    ensures sound { (list : List Symbol) → text_on (D.tracks drum.old) (first_of 6) fronted.symbols ≡ Some list
        → IsWithinPotential 6 fronted.bytes list → SpoiltAs result (IsNoObject fronted.bytes) }
{
    let bytes = fronted.bytes;
    let mut text6 = found_text(&fronted);
    let mut text7 = blank_text(7, bytes);
    match run_pass7(bytes, drum, &mut text6, &mut text7, tables) {
        Ok(()) => {}
        Err(stop) => return Err(of_pass(stop)),
    }
    let symbols7 = text7.len();
    let mut text8 = blank_text(8, bytes);
    match run_pass8(bytes, drum, &mut text7, &mut text8, tables) {
        Ok(()) => {}
        Err(stop) => return Err(of_pass(stop)),
    }
    let symbols8 = text8.len();
    match run_pass9(bytes, drum, &mut text8, tables) {
        Ok(words) => Ok(Object {
            first_track: object_track(),
            words,
            start: 0,
            lengths: lengths(&fronted, symbols7, symbols8),
        }),
        Err(stop) => Err(of_pass(stop)),
    }
}

// The lengths of all texts.
fn lengths(fronted: &Fronted, seven: u32, eight: u32) -> [u32; 8]
    requires seven { seven ≤ capacity_of fronted.now.bytes }
    requires eight { eight ≤ capacity_of fronted.now.bytes }
    ensures all { AreLengths fronted.now result }
    ensures seven { slice_index result 6 ≡ seven }
{
    let [first, second, third, fourth, fifth] = fronted.lengths;
    [
        first,
        second,
        third,
        fourth,
        fifth,
        fronted.symbols,
        seven,
        eight,
    ]
}

// No lists and no faults.
fn prepare(tables: &mut Tables)
    ensures { tables_model tables.new ≡ fresh (tables_model tables.old).limit }
{
    tables.clear();
    tables.drop_faults();
}

// Orders with marks: text 6 to text 7.
fn run_pass7<T: Text>(
    bytes: u32,
    store: &mut T::Store,
    input: &mut T,
    output: &mut T,
    tables: &mut Tables,
) -> Result<(), PassStop>
    requires bytes { bytes ≤ (tables_model tables.old).limit }
    requires can { CanDrive T.view T.first_track T.end_track T.room input.old output.old store.old }
    ensures passed { Passes T.view T.first_track T.end_track
        (drum_view T.room T.tracks T.journal T.faults) input.old output.old store.old
        output.new store.new result }
    ensures writes { (list : List Symbol) → (T.view input.old store.old).held ≡ Some list
        → (T.view output.old store.old).held ≡ Some []
        → OnOk result (Writes (IsShort 7 bytes) (T.view output.new store.new)) }
    ensures limit { (tables_model tables.new).limit ≡ (tables_model tables.old).limit }
    ensures sound { T.grows ≡ false → (list : List Symbol) → (T.view input.old store.old).held ≡ Some list
        → IsWithinPotential 6 bytes list
        → HasRoom (T.view output.old store.old) (capacity_of bytes) → OnlyDrum result }
{
    prepare(tables);
    let mut pass = Pass7::open(tables, bytes);
    drive_turned(&mut pass, Way::Forward, store, input, output, tables)
}

// Rooms and addresses that lie ahead: text 7 to text 8.
fn run_pass8<T: Text>(
    bytes: u32,
    store: &mut T::Store,
    input: &mut T,
    output: &mut T,
    tables: &mut Tables,
) -> Result<(), PassStop>
    requires bytes { bytes ≤ (tables_model tables.old).limit }
    requires can { CanDrive T.view T.first_track T.end_track T.room input.old output.old store.old }
    ensures passed { Passes T.view T.first_track T.end_track
        (drum_view T.room T.tracks T.journal T.faults) input.old output.old store.old
        output.new store.new result }
    ensures writes { (list : List Symbol) → (T.view input.old store.old).held ≡ Some list
        → (T.view output.old store.old).held ≡ Some []
        → OnOk result (Writes (Relates bytes (reverse list)) (T.view output.new store.new)) }
    ensures stays { OnOk result (Stays T.view T.first_track T.end_track input.old store.old Backward store.new) }
    ensures limit { (tables_model tables.new).limit ≡ (tables_model tables.old).limit }
    ensures sound { T.grows ≡ false → (list : List Symbol) → (T.view input.old store.old).held ≡ Some list
        → IsShort 7 bytes list
        → HasRoom (T.view output.old store.old) (capacity_of bytes) → OnlyDrum result }
{
    prepare(tables);
    let mut pass = Pass8::open(tables, bytes);
    drive_turned(&mut pass, Way::Backward, store, input, output, tables)
}

// Final addresses: text 8 to the words of the object.
fn run_pass9<D: Drum>(
    bytes: u32,
    drum: &mut D,
    text: &mut DrumText<D>,
    tables: &mut Tables,
) -> Result<u32, PassStop>
    requires bytes { bytes ≤ longest }
    requires room { all_tracks longest ≤ D.room drum.old }
    requires writing { text.old.rewound ≡ false }
    requires placed { text.old.first + tracks_of_text text.old.capacity ≤ first_of 7 }
    ensures words { IfOk result (λ words. (1 ≤ words) × (words ≤ words_of bytes)) }
    ensures made { (list : List Symbol) → (⟦<DrumText<D> as Text>⟧.view text.old drum.old).held ≡ Some list
        → IfOk result (λ words. (length (object_words (tables_model tables.old).limit (reverse list)) ≡ words)
        × HoldsWords (D.tracks drum.new) object_first (object_words (tables_model tables.old).limit (reverse list))) }
    ensures limit { (tables_model tables.new).limit ≡ (tables_model tables.old).limit }
    ensures changes { PreservesDrum (KeepsTracks 0 (all_tracks longest)) (drum_view D.room D.tracks D.journal D.faults drum.old)
        (drum_view D.room D.tracks D.journal D.faults drum.new) }
    ensures area { SameTracks (first_of 7) object_first (D.tracks drum.old) (D.tracks drum.new) }
    ensures drum { IsErrOf result PassDrum → HasRisen (D.faults drum.old) (D.faults drum.new) }
    ensures sound { (list : List Symbol) → (⟦<DrumText<D> as Text>⟧.view text.old drum.old).held ≡ Some list
        → DrumOr result (IsWrong (words_of bytes) (reverse list)) }
{
    match text.rewind(drum, Way::Backward) {
        Ok(()) => {}
        Err(stop) => return Err(pass_stop(stop)),
    }
    Pass9::write(text, object_track(), object_words(bytes), drum, tables)
}

// Text 6, as the front left it.
fn found_text<D: Drum>(fronted: &Fronted) -> DrumText<D>
    requires bytes { fronted.now.bytes ≤ longest }
    requires symbols { fronted.now.symbols ≤ capacity_of fronted.now.bytes }
    ensures writing { result.rewound ≡ false }
    ensures place { (result.first ≡ first_of 6) × (result.capacity ≡ fronted.now.symbols) }
    ensures held { (drum : D) → (⟦<DrumText<D> as Text>⟧.view result drum).held
        ≡ text_on (D.tracks drum) (first_of 6) fronted.now.symbols }
{
    DrumText::again(first_track(6), fronted.symbols)
}

// A text with this number, from 1 to 8, of which nothing was written, in its area.
fn blank_text<D: Drum>(number: u8, bytes: u32) -> DrumText<D>
    requires few { bytes ≤ longest }
    ensures empty { (result.count ≡ 0) × (result.rewound ≡ false) }
    ensures place { (result.first ≡ first_of number) × (result.capacity ≡ capacity_of bytes) }
    ensures told { (drum : D) → is_some (D.tracks drum) ≡ true → (⟦<DrumText<D> as Text>⟧.view result drum).held ≡ Some [] }
{
    DrumText::at(first_track(number), capacity(bytes))
}
