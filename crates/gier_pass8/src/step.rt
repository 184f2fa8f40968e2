// How each symbol of text 7 is taken: at most one is written for it.
ghost use Rattle.std.specs.Prelude.{◌≡◌, ◌≤◌, ◌<◌, ◌+◌, ◌*◌, ◌^◌, IfSome, IsTrue};
ghost use Rattle.gier_symbol.specs.Symbols.{IsSymbol};
ghost use Rattle.gier_text.specs.TablesModel.{tables_model};
ghost use Rattle.gier_pass8.specs.Words.{word_of, sum_of, number_in, with_address};
ghost use Rattle.gier_symbol.specs.declared.tag.Tag.TheVariants.{LabelPlace};
ghost use Rattle.gier_symbol.specs.Texts.{is_tag_of};
ghost use Rattle.gier_pass8.specs.Steps.{known, mark_with, order_with, word_with, last_need, text8_of, word8_of, place_before};
ghost use Rattle.gier_pass8.specs.Lists.{HasLists, IsWritable, Keeps};
ghost use Rattle.gier_pass8.specs.Knowledge.{Knows, with_known, with_label_used, known_word, known_behind, needs_of, with_need};
ghost use Rattle.gier_pass8.specs.Knowledge.{without_need, needs_behind};
ghost use Rattle.gier_pass8.specs.declared.words.Label.TheVariants.{Used, At};

use crate::words::{Label, filled, number_in, sum};
use gier_limits::ADDRESSES;
use gier_symbol::{Symbol, Tag, stands_in};
use gier_text::Tables;

/// The list of what activations need whose rooms weren't met yet, the innermost last.
pub(crate) const NEEDS: u8 = 1;

pub(crate) const NEED_WIDTH: u8 = 1;

const NEED: u8 = 0;

/// What the pass knows beside its tables.
#[derive(Debug, Drop)]
pub(crate) struct State {
    // How many bytes the program has.
    pub(crate) bytes: u32,
    // How many words of the object stand before what was read.
    pub(crate) place: u64,
    ghost few: { bytes ≤ 524288 },
    ghost address: { place < 2 ^ 24 },
}

/// How many needs, and how many label numbers of either kind, are kept.
pub(crate) fn room(bytes: u32) -> u32
    requires { bytes ≤ 524288 }
    ensures { result ≡ 20 * bytes + 64 }
{
    20 * bytes + 64
}

impl State {
    // What is known of a label.
    fn label(&self, tables: &Tables, number: u64) -> Label
        requires lists { HasLists self.now.bytes (tables_model tables.now) }
        ensures value { result ≡ known (tables_model tables.now) number }
        ensures small { word_of result < 2 ^ 40 }
    {
        Label::of(gier_labels::word(tables, number))
    }

    fn set_used(&self, tables: &mut Tables, number: u64)
        requires lists { HasLists self.now.bytes (tables_model tables.old) }
        ensures lists { Keeps self.now.bytes (tables_model tables.old) (tables_model tables.new) }
        ensures labels { Knows (20 * self.now.bytes + 64) (tables_model tables.new)
            (λ label. with_known number Used label (known (tables_model tables.old) label)) }
        ensures needs { needs_of (tables_model tables.new) ≡ needs_of (tables_model tables.old) }
    {
        gier_labels::set_word(tables, number, Label::Used.word(), room(self.bytes));
    }

    fn set_place(&self, tables: &mut Tables, number: u64)
        requires lists { HasLists self.now.bytes (tables_model tables.old) }
        ensures lists { Keeps self.now.bytes (tables_model tables.old) (tables_model tables.new) }
        ensures labels { Knows (20 * self.now.bytes + 64) (tables_model tables.new)
            (λ label. with_known number (At self.now.place) label (known (tables_model tables.old) label)) }
        ensures needs { needs_of (tables_model tables.new) ≡ needs_of (tables_model tables.old) }
    {
        gier_labels::set_word(
            tables,
            number,
            Label::At(self.place).word(),
            room(self.bytes),
        );
    }

    // The mark of a label is written where there are uses behind it, for which the address is still to be found.
    fn mark(&self, tables: &mut Tables, s: Symbol) -> Option<Symbol>
        requires lists { HasLists self.now.bytes (tables_model tables.old) }
        requires symbol { IsSymbol s }
        requires kind { IsTrue (is_tag_of LabelPlace s.tag) }
        ensures lists { Keeps self.now.bytes (tables_model tables.old) (tables_model tables.new) }
        ensures value { result ≡ mark_with (known (tables_model tables.old) s.value) s }
        ensures labels { Knows (20 * self.now.bytes + 64) (tables_model tables.new)
            (λ label. with_known s.value (At self.now.place) label (known (tables_model tables.old) label)) }
        ensures needs { needs_of (tables_model tables.new) ≡ needs_of (tables_model tables.old) }
        ensures written { IfSome result IsWritable }
    {
        let known = self.label(tables, s.value);
        self.set_place(tables, s.value);
        match known {
            Label::New => None,
            _ => Some(s),
        }
    }

    // An order with a label number. Its address is known where the label's mark stands behind it.
    fn label_order(&self, tables: &mut Tables, s: Symbol) -> Symbol
        requires lists { HasLists self.now.bytes (tables_model tables.old) }
        requires symbol { IsWritable s }
        ensures lists { Keeps self.now.bytes (tables_model tables.old) (tables_model tables.new) }
        ensures value { result ≡ order_with (known (tables_model tables.old) (number_in s.value)) s }
        ensures labels { Knows (20 * self.now.bytes + 64) (tables_model tables.new) (λ label.
            with_label_used (known (tables_model tables.old) (number_in s.value)) (number_in s.value) label
            (known (tables_model tables.old) label)) }
        ensures needs { needs_of (tables_model tables.new) ≡ needs_of (tables_model tables.old) }
        ensures written { IsWritable result }
    {
        let number = number_in(s.value);
        match self.label(tables, number) {
            Label::At(address) => filled(s, sum(address, 0)),
            _ => {
                self.set_used(tables, number);
                s
            }
        }
    }

    // A word that is a label number.
    fn label_word(&self, tables: &mut Tables, s: Symbol) -> Symbol
        requires lists { HasLists self.now.bytes (tables_model tables.old) }
        requires symbol { IsWritable s }
        ensures lists { Keeps self.now.bytes (tables_model tables.old) (tables_model tables.new) }
        ensures value { result ≡ word_with (known (tables_model tables.old) s.value) s }
        ensures labels { Knows (20 * self.now.bytes + 64) (tables_model tables.new)
            (λ label. with_label_used (known (tables_model tables.old) s.value) s.value label
            (known (tables_model tables.old) label)) }
        ensures needs { needs_of (tables_model tables.new) ≡ needs_of (tables_model tables.old) }
        ensures written { IsWritable result }
    {
        match self.label(tables, s.value) {
            Label::At(address) => Symbol::new(Tag::Word, sum(address, 0), s.line),
            _ => {
                self.set_used(tables, s.value);
                s
            }
        }
    }

    // Keeps what the activation needs whose last order comes next.
    fn push_need(&self, tables: &mut Tables, need: u64)
        requires lists { HasLists self.now.bytes (tables_model tables.old) }
        requires small { need < 2 ^ 40 }
        ensures lists { Keeps self.now.bytes (tables_model tables.old) (tables_model tables.new) }
        ensures labels { Knows (20 * self.now.bytes + 64) (tables_model tables.new)
            (λ label. known (tables_model tables.old) label) }
        ensures needs { needs_of (tables_model tables.new)
            ≡ with_need (20 * self.now.bytes + 64) need (needs_of (tables_model tables.old)) }
    {
        if tables.len(NEEDS) < room(self.bytes) {
            tables.push(NEEDS, &[need]);
        }
    }

    // What the innermost activation needs, which has been read whole; 0 where there is none.
    fn pop_need(&self, tables: &mut Tables) -> u64
        requires lists { HasLists self.now.bytes (tables_model tables.old) }
        ensures lists { Keeps self.now.bytes (tables_model tables.old) (tables_model tables.new) }
        ensures value { result ≡ last_need (tables_model tables.old) }
        ensures labels { Knows (20 * self.now.bytes + 64) (tables_model tables.new)
            (λ label. known (tables_model tables.old) label) }
        ensures needs { needs_of (tables_model tables.new) ≡ without_need (needs_of (tables_model tables.old)) }
        ensures small { result < 2 ^ 40 }
    {
        let count = tables.len(NEEDS);
        if count == 0 {
            return 0;
        }
        let need = tables.word(NEEDS, count - 1, NEED);
        tables.cut(NEEDS, count - 1);
        need
    }

    // The order that begins an activation, with its whole room.
    fn open_room(&self, tables: &mut Tables, s: Symbol) -> Symbol
        requires lists { HasLists self.now.bytes (tables_model tables.old) }
        requires symbol { IsSymbol s }
        ensures lists { Keeps self.now.bytes (tables_model tables.old) (tables_model tables.new) }
        ensures value { result ≡ with_address s (sum_of (number_in s.value) (last_need (tables_model tables.old))) }
        ensures labels { Knows (20 * self.now.bytes + 64) (tables_model tables.new)
            (λ label. known (tables_model tables.old) label) }
        ensures needs { needs_of (tables_model tables.new) ≡ without_need (needs_of (tables_model tables.old)) }
        ensures written { IsWritable result }
    {
        let need = self.pop_need(tables);
        filled(s, sum(number_in(s.value), need))
    }

    /// Takes a symbol, and gives what is to be written for it.
    pub(crate) fn step(&mut self, tables: &mut Tables, s: Symbol) -> Option<Symbol>
        requires lists { HasLists self.old.bytes (tables_model tables.old) }
        requires symbol { IsSymbol s }
        ensures lists { Keeps self.old.bytes (tables_model tables.old) (tables_model tables.new) }
        ensures bytes { self.new.bytes ≡ self.old.bytes }
        ensures value { result ≡ text8_of (tables_model tables.old) s }
        ensures labels { Knows (20 * self.old.bytes + 64) (tables_model tables.new)
            (known_behind (tables_model tables.old) self.old.place s) }
        ensures needs { needs_of (tables_model tables.new)
            ≡ needs_behind (20 * self.old.bytes + 64) s (needs_of (tables_model tables.old)) }
        ensures place { self.new.place ≡ place_before self.old.place s }
        ensures written { IfSome result IsWritable }
    {
        if s.tag == Tag::ObjectWords.number() {
            self.place = sum(s.value, 0);
            return None;
        }
        if s.tag == Tag::Need.number() {
            self.push_need(tables, s.value);
            return None;
        }
        if s.tag == Tag::LabelPlace.number() {
            return self.mark(tables, s);
        }
        self.place = self.place.saturating_sub(1);
        if s.tag == Tag::OpenRoom.number() {
            return Some(self.open_room(tables, s));
        }
        self.step_word(tables, s)
    }

    // A word of the object that isn't the beginning of an activation.
    fn step_word(&self, tables: &mut Tables, s: Symbol) -> Option<Symbol>
        requires lists { HasLists self.now.bytes (tables_model tables.old) }
        requires symbol { IsSymbol s }
        ensures lists { Keeps self.now.bytes (tables_model tables.old) (tables_model tables.new) }
        ensures value { result ≡ word8_of (tables_model tables.old) s }
        ensures labels { Knows (20 * self.now.bytes + 64) (tables_model tables.new) (known_word (tables_model tables.old) s) }
        ensures needs { needs_of (tables_model tables.new) ≡ needs_of (tables_model tables.old) }
        ensures written { IfSome result IsWritable }
    {
        if !stands_in(8, s.tag) {
            return None;
        }
        if s.tag == Tag::LabelOrder.number() {
            return Some(self.label_order(tables, s));
        }
        if s.tag == Tag::LabelWord.number() {
            return Some(self.label_word(tables, s));
        }
        Some(s)
    }
}
