// Lists an object: a row for each of its words, by the symbols of the text of orders on the drum.
ghost use Rattle.std.specs.Prelude.{◌≡◌, ◌≢◌, ◌≤◌, ◌+◌, ◌/◌, true, IsErrOf, slice_index};
ghost use Rattle.gier_word.specs.Cause.{HasRisen};
ghost use Rattle.gier_limits.specs.Areas.{longest, all_tracks, capacity_of, object_first};
ghost use Rattle.gier_text.specs.SymbolsOnTracks.{tracks_for as tracks_of_text};
ghost use Rattle.gier_text.specs.declared.text.TextStop.TheVariants.{Failed as TextFailed};
ghost use Rattle.gier_rows.specs.declared.listing.ListStop.TheVariants.{Drum as DrumFailed, Printer as PrinterFailed};

use crate::printing::put_row;
use crate::reading::read_row;
use gier_drum::Drum;
use gier_io::Sink;
use gier_limits::first_track;
use gier_order::Object;
use gier_symbol::{Symbol, Tag};
use gier_text::{DrumText, Text, TextStop, Way};
use gier_word::Odd;

// The text of orders is the seventh.
const ORDERS_TEXT: u8 = 7;

const ORDERS_PLACE: usize = 6;

/// Why a listing isn't whole.
#[derive(Debug, Clone, Copy, PartialEq, Eq)]
pub enum ListStop {
    /// The drum failed, and its count of faults rose.
    Drum,
    /// The printer failed, and its count of faults rose.
    Printer,
    /// Two words are no symbol's code, or the text of orders has more words than the object, or fewer; then the place is how many
    /// were listed and the word 0.
    Spoilt(Odd),
}

/// Prints a row for each word of an object, in the order of their addresses. Text 7 of the program, whose length stands in the
/// object, lies in its area of the drum, and the drum is only read.
///
/// A row is `  6: JUMP 14      line 2    track 0 word 6`: the address, with a colon where text 7 has a label; the order's name and
/// the fields that it uses, or `word` and a number; the line; the track, counted from the object's first one, and the place on it.
pub fn put_listing<K: Sink, D: Drum>(
    object: &Object,
    out: &mut K,
    drum: &mut D,
) -> Result<(), ListStop>
    requires placed { object.now.first_track ≡ object_first }
    requires in_room { object.now.first_track + (object.now.words + 39) / 40 ≤ D.room drum.old }
    requires text { slice_index object.now.lengths 6 ≤ capacity_of longest }
    requires room { all_tracks longest ≤ D.room drum.old }
    ensures room { D.room drum.new ≡ D.room drum.old }
    ensures drum_failed { IsErrOf result DrumFailed → HasRisen (D.faults drum.old) (D.faults drum.new) }
    ensures sink_failed { IsErrOf result PrinterFailed → HasRisen (K.faults out.old) (K.faults out.new) }
{
    let symbols = object.lengths[ORDERS_PLACE];
    let mut text: DrumText<D> = DrumText::again(first_track(ORDERS_TEXT), symbols);
    match text.rewind(drum, Way::Forward) {
        Ok(()) => put_rows(object, symbols, &mut text, out, drum),
        Err(stop) => Err(of_text(stop)),
    }
}

// What was listed so far: the address of the next word, and whether a label stands there.
#[derive(Debug, Clone, Copy)]
struct Listed {
    address: u32,
    label: bool,
}

fn put_rows<K: Sink, D: Drum>(
    object: &Object,
    symbols: u32,
    text: &mut DrumText<D>,
    out: &mut K,
    drum: &mut D,
) -> Result<(), ListStop>
    requires placed { object.now.first_track ≡ object_first }
    requires in_room { object.now.first_track + (object.now.words + 39) / 40 ≤ D.room drum.old }
    requires reading { text.old.rewound ≡ true }
    requires text { text.old.first + tracks_of_text text.old.capacity ≤ D.room drum.old }
    ensures room { D.room drum.new ≡ D.room drum.old }
    ensures drum_failed { IsErrOf result DrumFailed → HasRisen (D.faults drum.old) (D.faults drum.new) }
    ensures drum_later { D.faults drum.old ≤ D.faults drum.new }
    ensures sink_failed { IsErrOf result PrinterFailed → HasRisen (K.faults out.old) (K.faults out.new) }
{
    let mut listed = Listed {
        address: 0,
        label: false,
    };
    for _ in 0..symbols {
        let symbol = match text.read_next(drum) {
            Ok(Some(symbol)) => symbol,
            Ok(None) => return end_of(object, listed),
            Err(stop) => return Err(of_text(stop)),
        };
        match put_symbol(object, symbol, &mut listed, out, drum) {
            Ok(()) => {}
            Err(stop) => return Err(stop),
        }
    }
    end_of(object, listed)
}

// Prints the row of a symbol that stands for a word, and notes a label.
fn put_symbol<K: Sink, D: Drum>(
    object: &Object,
    symbol: Symbol,
    listed: &mut Listed,
    out: &mut K,
    drum: &mut D,
) -> Result<(), ListStop>
    requires placed { object.now.first_track ≡ object_first }
    requires in_room { object.now.first_track + (object.now.words + 39) / 40 ≤ D.room drum.old }
    ensures room { D.room drum.new ≡ D.room drum.old }
    ensures drum_failed { IsErrOf result DrumFailed → HasRisen (D.faults drum.old) (D.faults drum.new) }
    ensures drum_later { D.faults drum.old ≤ D.faults drum.new }
    ensures sink_failed { IsErrOf result PrinterFailed → HasRisen (K.faults out.old) (K.faults out.new) }
    ensures sink_later { K.faults out.old ≤ K.faults out.new }
{
    if symbol.tag == Tag::LabelPlace.number() {
        listed.label = true;
        return Ok(());
    }
    if !is_word(symbol.tag) {
        return Ok(());
    }
    let Listed { address, label } = *listed;
    if address >= object.words {
        return Err(odd_at(address));
    }
    listed.address = address + 1;
    listed.label = false;
    match read_row(object, address, symbol, drum) {
        Ok(row) => match put_row(row, label, out) {
            Ok(()) => Ok(()),
            Err(_) => Err(ListStop::Printer),
        },
        Err(_) => Err(ListStop::Drum),
    }
}

// Whether a symbol of the text of orders that is no mark of a label stands for a word of the object.
fn is_word(tag: u16) -> bool {
    tag != Tag::Need.number() && tag != Tag::ObjectWords.number()
}

// The listing is whole where each word of the object has a row.
fn end_of(object: &Object, listed: Listed) -> Result<(), ListStop>
    ensures drum { IsErrOf result DrumFailed → ⊥ }
    ensures sink { IsErrOf result PrinterFailed → ⊥ }
{
    if listed.address == object.words {
        Ok(())
    } else {
        Err(odd_at(listed.address))
    }
}

// The text of orders has more words than the object, or fewer.
fn odd_at(address: u32) -> ListStop
    ensures drum { result ≢ DrumFailed }
    ensures sink { result ≢ PrinterFailed }
{
    ListStop::Spoilt(Odd {
        place: u64::from(address),
        word: 0,
    })
}

// A text on a drum takes no memory and is only read, so the two other stops don't come.
fn of_text(stop: TextStop) -> ListStop
    ensures drum { result ≡ DrumFailed → stop ≡ TextFailed }
    ensures sink { result ≢ PrinterFailed }
{
    match stop {
        TextStop::Failed => ListStop::Drum,
        TextStop::Spoilt(odd) => ListStop::Spoilt(odd),
        TextStop::Memory | TextStop::Full => ListStop::Spoilt(Odd { place: 0, word: 0 }),
    }
}
