// Calls of formal procedures with actuals: the kinds of the actuals are compared with those of the formals where the program runs.
ghost use Rattle.std.specs.Prelude.{◌≡◌, ◌<◌};
ghost use Rattle.gier_text.specs.TablesModel.{tables_model};

use crate::calls::FORMAL_WORDS;
use crate::kinds::packed_number;
use crate::lists::short;
use crate::names::Name;
use crate::open::StackEntry;
use crate::state::State;
use gier_order::Operation;
use gier_text::Tables;

/// So many kinds stand in a word, four bits each, the first in the highest.
pub(crate) const KINDS_IN_WORD: u64 = 10;

const LAST_PLACE: u64 = KINDS_IN_WORD - 1;

const KIND_BITS: u64 = 4;

// Before the actuals places are left free for their number and for the words of the kinds of at most 255 of them.
const MOST_WORDS: u64 = 26;

// The words with kinds stand behind the number of actuals.
const FIRST_WORD: u64 = 1;

// A word of kinds with one more.
fn with_kind(word: u64, place: u64, kind: u8) -> u64
    requires { place < 10 }
{
    short(word.saturating_add(u64::from(kind) << (KIND_BITS * (LAST_PLACE - place))))
}

fn kind_in(word: u64, place: u64) -> u8
    requires { place < 10 }
{
    gier_agree::kind_at(word, place as u8)
}

// Whether an actual of this kind is evaluated before the call where its formal is by value.
fn is_evaluated_before(kind: u8) -> bool {
    kind == gier_agree::Kind::Integer.number() || kind == gier_agree::Kind::Boolean.number()
}

impl State {
    ghost use Rattle.gier_pass7.specs.StateInvariants.{StateInvariant, PreservesState};

    // The call begins; gives the place in the outbox for the number of actuals.
    pub(crate) fn formal_call_begins(&mut self, tables: &mut Tables, name: Name) -> u64
        requires ready { StateInvariant self.old (tables_model tables.old) }
        ensures { PreservesState self.old (tables_model tables.old) self.new (tables_model tables.new) }
    {
        self.on_cell(tables, Operation::Agree, name.place, name.line);
        let at = self.place(tables);
        self.reserve(tables, FIRST_WORD + MOST_WORDS);
        self.hold();
        at
    }

    // Notes the kind of the next actual of the call.
    pub(crate) fn note_kind(
        &mut self,
        tables: &mut Tables,
        call: StackEntry,
        kind: Option<gier_agree::Kind>,
    )
        requires ready { StateInvariant self.old (tables_model tables.old) }
        ensures { PreservesState self.old (tables_model tables.old) self.new (tables_model tables.new) }
    {
        let index = call.count / KINDS_IN_WORD;
        let place = call.count % KINDS_IN_WORD;
        if index >= MOST_WORDS {
            return;
        }
        let at = call.at.saturating_add(FIRST_WORD + index);
        if place == 0 {
            self.word_there(tables, at, 0, call.line);
        }
        let word = self.value_there(tables, at);
        self.set_value(tables, at, with_kind(word, place, packed_number(kind)));
    }

    // The kind of an actual of the call, from 0.
    fn noted_kind(&self, tables: &Tables, call: StackEntry, actual: u64) -> u8
        requires ready { StateInvariant self.now (tables_model tables.now) }
    {
        let at = call.at.saturating_add(FIRST_WORD + actual / KINDS_IN_WORD);
        kind_in(self.value_there(tables, at), actual % KINDS_IN_WORD)
    }

    // All actuals were taken.
    pub(crate) fn formal_call_ends(&mut self, tables: &mut Tables, call: StackEntry)
        requires ready { StateInvariant self.old (tables_model tables.old) }
        ensures { PreservesState self.old (tables_model tables.old) self.new (tables_model tables.new) }
    {
        self.word_there(tables, call.at, call.count, call.line);
        self.actuals_end(call);
        for actual in 0..call.count {
            let kind = self.noted_kind(tables, call, actual);
            if is_evaluated_before(kind) {
                self.value_actual(tables, call, actual);
            }
        }
        self.order(tables, Operation::Short, 0, self.free, call.line);
        self.on_cell(tables, Operation::CallF, call.place, call.line);
        self.release();
    }

    // An expression is evaluated before the call where its formal is by value.
    fn value_actual(&mut self, tables: &mut Tables, call: StackEntry, actual: u64)
        requires ready { StateInvariant self.old (tables_model tables.old) }
        ensures { PreservesState self.old (tables_model tables.old) self.new (tables_model tables.new) }
    {
        let place = self
            .free
            .saturating_add(actual.saturating_mul(FORMAL_WORDS));
        let number = actual.saturating_add(1);
        let behind = self.new_label();
        self.order(tables, Operation::Short, 0, number, call.line);
        self.on_cell(tables, Operation::ByVal, call.place, call.line);
        self.label_order(tables, Operation::False, 0, behind, call.line);
        self.order(tables, Operation::Value, self.level, place, call.line);
        self.keep(tables, place, call.line);
        self.mark(tables, behind);
    }
}
