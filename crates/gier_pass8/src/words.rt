// Words that pack several things: an order of number, level and address, and what is known of a label. No table is touched here.
ghost use Rattle.std.specs.Prelude.{◌≡◌, ◌<◌, ◌^◌, IsTrue};
ghost use Rattle.gier_symbol.specs.Symbols.{IsSymbol};
ghost use Rattle.gier_symbol.specs.Texts.{stands_in};
ghost use Rattle.gier_pass8.specs.Words.{sum_of, label_of, word_of, number_in, with_address};

use gier_limits::{ADDRESSES, ORDER_FIELDS};
use gier_symbol::{LAST_ORDER, ORDER_BASE, Symbol, Tag};

const LAST_ADDRESS: u64 = ADDRESSES - 1;

/// A sum of addresses or rooms; a greater one than there may be becomes the greatest that may.
pub(crate) fn sum(a: u64, b: u64) -> u64
    requires a { a < 2 ^ 40 }
    requires b { b < 2 ^ 40 }
    ensures value { result ≡ sum_of a b }
    ensures address { result < 2 ^ 24 }
{
    if a + b < ADDRESSES {
        a + b
    } else {
        LAST_ADDRESS
    }
}

/// What is known of a label.
#[derive(Debug, Clone, Copy, PartialEq, Eq)]
pub(crate) enum Label {
    /// Nothing.
    New,
    /// There is a use of it, and its mark wasn't read yet.
    Used,
    /// Its mark was read, and it stands for this address.
    At(u64),
}

impl Label {
    /// What the word tells.
    pub(crate) fn of(word: u64) -> Label
        ensures value { result ≡ label_of word }
        ensures small { word < 2 ^ 40 → word_of result < 2 ^ 40 }
    {
        match word {
            0 => Label::New,
            1 => Label::Used,
            _ => Label::At(word - 2),
        }
    }

    /// The word that tells this.
    pub(crate) fn word(self) -> u64
        requires { word_of self < 2 ^ 40 }
        ensures { result ≡ word_of self }
    {
        match self {
            Label::New => 0,
            Label::Used => 1,
            Label::At(address) => address + 2,
        }
    }
}

/// The address of a packed order, or the label number in its place.
pub(crate) fn number_in(packed: u64) -> u64
    ensures value { result ≡ number_in packed }
    ensures address { result < 2 ^ 24 }
{
    packed % ADDRESSES
}

/// The order that is packed in the symbol's value, with another address. Where it is none, a word.
pub(crate) fn filled(s: Symbol, address: u64) -> Symbol
    requires symbol { IsSymbol s }
    requires address { address < 2 ^ 24 }
    ensures value { result ≡ with_address s address }
    ensures symbol { IsSymbol result }
    ensures letter { IsTrue (stands_in 8 result.tag) }
{
    let order = s.value / ORDER_FIELDS;
    let value = s.value % ORDER_FIELDS / ADDRESSES * ADDRESSES + address;
    if 0 < order && order <= u64::from(LAST_ORDER) {
        Symbol {
            tag: ORDER_BASE + order as u16,
            value,
            line: s.line,
        }
    } else {
        Symbol::new(Tag::Word, s.value, s.line)
    }
}
