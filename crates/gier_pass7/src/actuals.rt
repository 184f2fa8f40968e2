// The ends of actuals: an identifier alone, an array element alone, a string or an expression.
ghost use Rattle.std.specs.Prelude.{◌≡◌, ◌<◌};
ghost use Rattle.gier_text.specs.TablesModel.{tables_model};

use crate::calls::FORMAL_WORDS;
use crate::formal_calls::KINDS_IN_WORD;
use crate::kinds::{
    actual_of_name, actual_of_value, formal_kind, is_array, is_array_formal, is_cell, is_name,
    is_procedure, is_procedure_formal, is_value, packed_number,
};
use crate::names::{Name, PendingName, address_in, level_in};
use crate::open::{EntryKind, StackEntry};
use crate::state::State;
use gier_order::Operation;
use gier_text::Tables;
use gier_tree::Kind;

// Values of a kind in a packed word are below this.
const KINDS: u64 = 16;

impl State {
    ghost use Rattle.gier_pass7.specs.StateInvariants.{StateInvariant, PreservesState};

    // An actual ends.
    pub(crate) fn actual_ends(&mut self, tables: &mut Tables)
        requires ready { StateInvariant self.old (tables_model tables.old) }
        ensures { PreservesState self.old (tables_model tables.old) self.new (tables_model tables.new) }
    {
        let top = self.top(tables);
        let held = self.held;
        self.held = PendingName::Nothing;
        let kind = match held {
            PendingName::Name(name) => {
                self.name_actual(tables, top, name);
                actual_of_name(name.kind)
            }
            PendingName::Element(line) => self.element_actual(tables, top, line),
            PendingName::Nothing => self.other_actual(tables, top),
        };
        self.pop(tables);
        if top.what != EntryKind::Argument {
            self.free = self.free.saturating_add(FORMAL_WORDS);
            self.count_actual(tables, kind);
        }
    }

    fn count_actual(&mut self, tables: &mut Tables, kind: Option<gier_agree::Kind>)
        requires ready { StateInvariant self.old (tables_model tables.old) }
        ensures { PreservesState self.old (tables_model tables.old) self.new (tables_model tables.new) }
    {
        let call = self.top(tables);
        if is_procedure_formal(call.kind) {
            self.note_kind(tables, call, kind);
        }
        self.change(
            tables,
            StackEntry {
                count: call.count.saturating_add(1),
                ..call
            },
        );
    }

    // An identifier alone.
    fn name_actual(&mut self, tables: &mut Tables, top: StackEntry, name: Name)
        requires ready { StateInvariant self.old (tables_model tables.old) }
        ensures { PreservesState self.old (tables_model tables.old) self.new (tables_model tables.new) }
    {
        if top.what == EntryKind::Argument {
            self.alone_in_expression(tables, name);
        } else if is_value(top.kind) {
            self.alone_in_expression(tables, name);
            self.keep(tables, self.free, top.line);
        } else {
            self.reference(tables, top, name);
        }
    }

    // An identifier alone that isn't evaluated before the call.
    fn reference(&mut self, tables: &mut Tables, top: StackEntry, name: Name)
        requires ready { StateInvariant self.old (tables_model tables.old) }
        ensures { PreservesState self.old (tables_model tables.old) self.new (tables_model tables.new) }
    {
        let kind = name.kind;
        if is_array(kind) || is_array_formal(kind) {
            self.array_of(tables, kind, name.place, name.line);
            self.keep(tables, self.free, name.line);
        } else if kind == Kind::StringFormal {
            self.on_cell(tables, Operation::Take, name.place, name.line);
            self.keep(tables, self.free, name.line);
        } else if is_procedure_formal(kind) || kind == Kind::SwitchFormal {
            self.formal_pair(tables, name);
        } else if is_procedure(kind) || kind == Kind::Switch {
            self.declared_pair(tables, name);
        } else {
            self.name_evaluated(tables, top, name);
        }
    }

    // Both words of a formal switch or procedure.
    fn formal_pair(&mut self, tables: &mut Tables, name: Name)
        requires ready { StateInvariant self.old (tables_model tables.old) }
        ensures { PreservesState self.old (tables_model tables.old) self.new (tables_model tables.new) }
    {
        let level = level_in(name.place);
        let second = address_in(name.place).saturating_add(1);
        self.on_cell(tables, Operation::Take, name.place, name.line);
        self.keep(tables, self.free, name.line);
        self.order(tables, Operation::Take, level, second, name.line);
        self.keep(tables, self.free.saturating_add(1), name.line);
    }

    // The address of a declared switch or procedure, and the base of the activation that declares it.
    fn declared_pair(&mut self, tables: &mut Tables, name: Name)
        requires ready { StateInvariant self.old (tables_model tables.old) }
        ensures { PreservesState self.old (tables_model tables.old) self.new (tables_model tables.new) }
    {
        let number = address_in(name.place);
        if is_procedure(name.kind) && name.count > 0 {
            let label = self.described(tables, number, name.count, name.line);
            self.label_order(tables, Operation::Short, 0, label, name.line);
        } else {
            self.label_order(tables, Operation::Short, 0, number, name.line);
        }
        self.keep_pair(tables, level_in(name.place), name.line);
    }

    // The kinds of a procedure's formals before it; gives their label.
    fn described(&mut self, tables: &mut Tables, number: u64, count: u64, line: u32) -> u64
        requires ready { StateInvariant self.old (tables_model tables.old) }
        ensures { PreservesState self.old (tables_model tables.old) self.new (tables_model tables.new) }
    {
        let behind = self.new_label();
        let label = self.new_label();
        self.jump(tables, behind, line);
        self.mark(tables, label);
        self.label_order(tables, Operation::Kinds, count, number, line);
        for index in 0..count.div_ceil(KINDS_IN_WORD) {
            let first = index.saturating_mul(KINDS_IN_WORD);
            let word = self.packed_formals(tables, number, first, count);
            self.word(tables, word, line);
        }
        self.mark(tables, behind);
        label
    }

    // The kinds of ten formals from this one on, in a word.
    fn packed_formals(&self, tables: &Tables, number: u64, first: u64, count: u64) -> u64
        requires ready { StateInvariant self.now (tables_model tables.now) }
    {
        let mut word = 0u64;
        for place in 0..KINDS_IN_WORD {
            let formal = first.saturating_add(place);
            let kind = if formal < count {
                packed_number(formal_kind(self.formal(tables, number, formal)))
            } else {
                0
            };
            word = word.saturating_mul(KINDS).saturating_add(u64::from(kind));
        }
        word
    }

    // An array element alone.
    fn element_actual(
        &mut self,
        tables: &mut Tables,
        top: StackEntry,
        line: u32,
    ) -> Option<gier_agree::Kind>
        requires ready { StateInvariant self.old (tables_model tables.old) }
        ensures { PreservesState self.old (tables_model tables.old) self.new (tables_model tables.new) }
    {
        if top.what == EntryKind::Evaluation {
            self.variable_ends(tables, line);
            return actual_of_value(self.value);
        }
        self.fetch(tables, line);
        self.other_actual(tables, top)
    }

    // A string, or an expression that was evaluated or coded as an evaluation.
    fn other_actual(&mut self, tables: &mut Tables, top: StackEntry) -> Option<gier_agree::Kind>
        requires ready { StateInvariant self.old (tables_model tables.old) }
        ensures { PreservesState self.old (tables_model tables.old) self.new (tables_model tables.new) }
    {
        let kind = actual_of_value(self.value);
        match top.what {
            EntryKind::Evaluation => self.expression_ends(tables, top.line),
            EntryKind::Actual => self.keep(tables, self.free, top.line),
            _ => {}
        }
        kind
    }
}
