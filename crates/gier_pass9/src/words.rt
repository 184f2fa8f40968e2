// The word that a symbol of text 8 stands for, by the labels whose marks were read. No table is changed here but by a mark.
ghost use Rattle.std.specs.Prelude.{◌≡◌, ◌≤◌, ◌<◌, ◌^◌, ℕ};
ghost use Rattle.gier_symbol.specs.Symbols.{IsSymbol};
ghost use Rattle.gier_text.specs.TablesModel.{tables_model};
ghost use Rattle.gier_labels.specs.Labels.{HasLabels};
ghost use Rattle.gier_pass9.specs.Words.{room_of, address_in, address_of, with_address, order_word, word_of, KeepsLabels};
ghost use Rattle.gier_pass9.specs.ObjectOfText.{with_mark, marks_of, word_by};

use gier_limits::{ADDRESSES, ORDER_FIELDS};
use gier_symbol::{ORDER_BASE, Symbol, Tag};
use gier_text::Tables;

const LAST_ADDRESS: u64 = ADDRESSES - 1;

// The word of a label whose mark was read is one more than its address; that of any other is 0.
const MARKED: u64 = 1;

/// For how many labels of either kind there is room, where the longest program has so many bytes.
pub(crate) fn room(limit: u32) -> u32
    requires { limit ≤ 2 ^ 19 }
    ensures { result ≡ room_of limit }
{
    20 * limit + 64
}

/// The mark of a label stands before the word with this number.
pub(crate) fn set_mark(tables: &mut Tables, label: u64, place: u32, room: u32)
    requires labels { HasLabels room (tables_model tables.old) }
    ensures kept { KeepsLabels room (tables_model tables.old) (tables_model tables.new) }
    ensures marks { (other : ℕ) → marks_of (tables_model tables.new) other
        ≡ with_mark room label place (marks_of (tables_model tables.old)) other }
{
    gier_labels::set_word(tables, label, u64::from(place) + MARKED, room);
}

// The address that the word of a label tells; 0 where its mark wasn't read.
fn address_in(word: u64) -> u64
    ensures value { result ≡ address_in word }
    ensures address { result < 2 ^ 24 }
{
    word.saturating_sub(MARKED).min(LAST_ADDRESS)
}

fn address(tables: &Tables, label: u64) -> u64
    requires labels { (room : ℕ) × HasLabels room (tables_model tables.now) }
    ensures value { result ≡ address_of (tables_model tables.now) label }
    ensures address { result < 2 ^ 24 }
{
    address_in(gier_labels::word(tables, label))
}

// An order with another address.
fn with_address(word: u64, address: u64) -> u64
    requires word { word < 2 ^ 40 }
    requires address { address < 2 ^ 24 }
    ensures value { result ≡ with_address word address }
    ensures small { result < 2 ^ 40 }
{
    word / ADDRESSES * ADDRESSES + address
}

fn order_word(s: Symbol) -> u64
    requires symbol { IsSymbol s }
    requires order { 128 ≤ s.tag }
    ensures value { result ≡ order_word s }
    ensures small { result < 2 ^ 40 }
{
    u64::from(s.tag - ORDER_BASE) * ORDER_FIELDS + s.value % ORDER_FIELDS
}

/// The word of the object that a symbol of text 8 other than a mark stands for.
pub(crate) fn word_for(tables: &Tables, s: Symbol) -> u64
    requires labels { (room : ℕ) × HasLabels room (tables_model tables.now) }
    requires symbol { IsSymbol s }
    ensures value { result ≡ word_of (tables_model tables.now) s }
    ensures made { result ≡ word_by (marks_of (tables_model tables.now)) s }
    ensures small { result < 2 ^ 40 }
{
    if s.tag == Tag::LabelOrder.number() {
        return with_address(s.value, address(tables, s.value % ADDRESSES));
    }
    if s.tag == Tag::LabelWord.number() {
        return address(tables, s.value);
    }
    if s.tag < ORDER_BASE {
        return s.value;
    }
    order_word(s)
}
