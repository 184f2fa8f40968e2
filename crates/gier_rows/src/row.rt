// A row of a listing, made of a word and of its symbol in the text of orders.
ghost use Rattle.std.specs.Prelude.{◌≡◌};
ghost use Rattle.gier_rows.specs.Rows.{IsRow, is_data, shown_of};

use gier_limits::WORDS_ON_TRACK;
use gier_order::Order;
use gier_symbol::{Symbol, Tag};

/// What a word is.
#[derive(Debug, Clone, Copy, PartialEq, Eq)]
pub enum Shown {
    /// The code of this order.
    Decoded(Order),
    /// Data, or the code of no order.
    Bare(u64),
}

/// A row of a listing.
#[derive(Debug, Clone, Copy, PartialEq, Eq)]
pub struct Row {
    /// The address of the word in its object.
    pub address: u32,
    /// The number of its track, 0 for the object's first one.
    pub track: u32,
    /// Its place on the track, 0 to 39.
    pub place: u32,
    /// What the word is.
    pub shown: Shown,
    /// The line of the program to which it belongs.
    pub line: u32,
}

impl Row {
    /// The row of the word at this address. The symbol is the one that stands for the word in the text of orders.
    pub fn of(address: u32, word: u64, symbol: Symbol) -> Row
        ensures { IsRow address word symbol result }
    {
        Row {
            address,
            track: address / WORDS_ON_TRACK,
            place: address % WORDS_ON_TRACK,
            shown: content_of(symbol.tag, word),
            line: symbol.line,
        }
    }
}

fn content_of(tag: u16, word: u64) -> Shown
    ensures { result ≡ shown_of tag word }
{
    if is_data(tag) {
        return Shown::Bare(word);
    }
    match Order::decode(word) {
        Some(order) => Shown::Decoded(order),
        None => Shown::Bare(word),
    }
}

fn is_data(tag: u16) -> bool
    ensures { result ≡ is_data tag }
{
    tag == Tag::Word.number() || tag == Tag::LabelWord.number()
}
