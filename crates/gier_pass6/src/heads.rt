// What the entries of scopes tell: the kind of each identifier, and for each procedure its formals and whether its declaration is
// open.
ghost use Rattle.std.specs.Prelude.{◌≡◌, ◌<◌, ◌^◌, ◌&&◌, nat_lt, IsTrue};
ghost use Rattle.gier_text.specs.TablesModel.{tables_model};
ghost use Rattle.gier_text.specs.Lists.{list_at};

use crate::kind::{Kind, is_numbered};
use crate::open::LAST_WORD;
use crate::state::{State, numbered_room, room};
use gier_text::Tables;
use std::cmp;

/// The list with the kind of the identifier of each number, as it was entered last.
pub(crate) const NAMES: u8 = 2;

/// The list with the place in `DESCRIPTIONS` of each label, switch and procedure, by its number.
pub(crate) const NUMBERED: u8 = 3;

/// The list with a word for each label, switch and procedure, and behind that of a procedure the kinds of its formals.
/// The word of a procedure is 1 while its declaration is open, and else 0.
pub(crate) const DESCRIPTIONS: u8 = 4;

/// Each entry of these lists is one word.
pub(crate) const WORD_WIDTH: u8 = 1;

/// A number that nothing has.
pub(crate) const NO_NUMBER: u64 = LAST_WORD;

impl State {
    ghost use Rattle.gier_pass6.specs.StateInvariants.{StateInvariant, PreservesState};

    // How many labels, switches and procedures were entered.
    pub(crate) fn entered(&self, tables: &Tables) -> u64
        requires ready { StateInvariant self.now (tables_model tables.now) }
    {
        u64::from(tables.len(NUMBERED))
    }

    // A word of one of the lists of this file, or a default where there is no such entry.
    fn word_in(&self, tables: &Tables, list: u8, at: u64, default: u64) -> u64
        requires ready { StateInvariant self.now (tables_model tables.now) }
        requires own { IsTrue (nat_lt 1 list && nat_lt list 5) }
        requires small { default < 2 ^ 40 }
        ensures { result < 2 ^ 40 }
    {
        if at < u64::from(tables.len(list)) {
            tables.word(list, at as u32, 0)
        } else {
            default
        }
    }

    fn set_word_in(&self, tables: &mut Tables, list: u8, at: u64, word: u64)
        requires ready { StateInvariant self.now (tables_model tables.old) }
        requires own { IsTrue (nat_lt 1 list && nat_lt list 5) }
        ensures { PreservesState self.now (tables_model tables.old) self.now (tables_model tables.new) }
    {
        if at < u64::from(tables.len(list)) {
            tables.set_word(list, at as u32, 0, cmp::min(word, LAST_WORD));
        }
    }

    fn push_word(&self, tables: &mut Tables, list: u8, capacity: u32, word: u64)
        requires ready { StateInvariant self.now (tables_model tables.old) }
        requires own { IsTrue (nat_lt 1 list && nat_lt list 5) }
        requires capacity { (list_at (tables_model tables.old).lists list).capacity ≡ capacity }
        ensures { PreservesState self.now (tables_model tables.old) self.now (tables_model tables.new) }
    {
        if tables.len(list) < capacity {
            tables.push(list, &[cmp::min(word, LAST_WORD)]);
        }
    }

    // Takes the description of the identifier that was entered.
    pub(crate) fn enter(&self, tables: &mut Tables, name: u64, kind: Kind)
        requires ready { StateInvariant self.now (tables_model tables.old) }
        ensures { PreservesState self.now (tables_model tables.old) self.now (tables_model tables.new) }
    {
        self.set_word_in(tables, NAMES, name, kind.number());
        if is_numbered(kind) {
            let at = u64::from(tables.len(DESCRIPTIONS));
            self.push_word(tables, NUMBERED, numbered_room(self.bytes), at);
            self.push_word(tables, DESCRIPTIONS, room(self.bytes), 0);
        }
    }

    // Takes the description of a formal of the procedure that was entered last.
    pub(crate) fn add_formal(&self, tables: &mut Tables, kind: Kind)
        requires ready { StateInvariant self.now (tables_model tables.old) }
        ensures { PreservesState self.now (tables_model tables.old) self.now (tables_model tables.new) }
    {
        self.push_word(tables, DESCRIPTIONS, room(self.bytes), kind.number());
    }

    // The kind of the identifier with this number.
    pub(crate) fn kind_of(&self, tables: &Tables, name: u64) -> Kind
        requires ready { StateInvariant self.now (tables_model tables.now) }
    {
        Kind::of(self.word_in(tables, NAMES, name, 0))
    }

    // The place of a procedure in `DESCRIPTIONS`.
    fn place_of(&self, tables: &Tables, number: u64) -> u64
        requires ready { StateInvariant self.now (tables_model tables.now) }
        ensures { result < 2 ^ 40 }
    {
        self.word_in(tables, NUMBERED, number, NO_NUMBER)
    }

    // Notes whether the declaration of a procedure is open.
    pub(crate) fn set_open(&self, tables: &mut Tables, number: u64, open: bool)
        requires ready { StateInvariant self.now (tables_model tables.old) }
        ensures { PreservesState self.now (tables_model tables.old) self.now (tables_model tables.new) }
    {
        let place = self.place_of(tables, number);
        self.set_word_in(tables, DESCRIPTIONS, place, u64::from(open));
    }

    // Whether the declaration of a procedure is open.
    pub(crate) fn is_open(&self, tables: &Tables, number: u64) -> bool
        requires ready { StateInvariant self.now (tables_model tables.now) }
    {
        self.word_in(tables, DESCRIPTIONS, self.place_of(tables, number), 0) == 1
    }

    // The kind of a procedure's formal; the first one is 1.
    pub(crate) fn formal_of(&self, tables: &Tables, number: u64, formal: u64) -> Kind
        requires ready { StateInvariant self.now (tables_model tables.now) }
    {
        let place = self.place_of(tables, number) + cmp::min(formal, LAST_WORD);
        Kind::of(self.word_in(tables, DESCRIPTIONS, place, 0))
    }
}
