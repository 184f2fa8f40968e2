// Calls of declared, standard and formal procedures.
ghost use Rattle.std.specs.Prelude.{◌≡◌};
ghost use Rattle.gier_text.specs.TablesModel.{tables_model};

use crate::kinds::{is_procedure, is_procedure_formal, library_number, value_type};
use crate::names::{Name, address_in};
use crate::open::{EntryKind, NOTHING, StackEntry};
use crate::state::State;
use gier_order::Operation;
use gier_text::Tables;
use gier_tree::Kind;

/// Each formal takes so many words.
pub(crate) const FORMAL_WORDS: u64 = 2;

impl State {
    ghost use Rattle.gier_pass7.specs.StateInvariants.{StateInvariant, PreservesState};

    // A call without actuals.
    pub(crate) fn call_alone(&mut self, tables: &mut Tables, name: Name)
        requires ready { StateInvariant self.old (tables_model tables.old) }
        ensures { PreservesState self.old (tables_model tables.old) self.new (tables_model tables.new) }
    {
        self.operand_begins(tables);
        if is_procedure_formal(name.kind) {
            self.on_cell(tables, Operation::Formal, name.place, name.line);
        } else if is_procedure(name.kind) {
            self.enter(tables, name.place, name.line);
        } else {
            self.library(tables, name.kind, name.line);
        }
        self.operand_ends(value_type(name.kind));
    }

    // Enters a declared procedure, whose actuals stand from the first free working place on.
    fn enter(&mut self, tables: &mut Tables, place: u64, line: u32)
        requires ready { StateInvariant self.old (tables_model tables.old) }
        ensures { PreservesState self.old (tables_model tables.old) self.new (tables_model tables.new) }
    {
        self.order(tables, Operation::Short, 0, self.free, line);
        self.on_number(tables, Operation::Call, place, line);
    }

    fn library(&mut self, tables: &mut Tables, kind: Kind, line: u32)
        requires ready { StateInvariant self.old (tables_model tables.old) }
        ensures { PreservesState self.old (tables_model tables.old) self.new (tables_model tables.new) }
    {
        self.order(tables, Operation::Lib, 0, library_number(kind), line);
    }

    // The identifier of a procedure, behind which actuals begin.
    pub(crate) fn call_begins(&mut self, tables: &mut Tables, name: Name)
        requires ready { StateInvariant self.old (tables_model tables.old) }
        ensures { PreservesState self.old (tables_model tables.old) self.new (tables_model tables.new) }
    {
        self.operand_begins(tables);
        let at = if is_procedure_formal(name.kind) {
            self.formal_call_begins(tables, name)
        } else {
            0
        };
        self.push(
            tables,
            StackEntry {
                what: EntryKind::Call,
                line: name.line,
                kind: name.kind,
                place: name.place,
                at,
                ..NOTHING
            },
        );
    }

    // An actual begins, whose first symbol has this line.
    pub(crate) fn actual_begins(&mut self, tables: &mut Tables, line: u32)
        requires ready { StateInvariant self.old (tables_model tables.old) }
        ensures { PreservesState self.old (tables_model tables.old) self.new (tables_model tables.new) }
    {
        let call = self.top(tables);
        let what = if library_number(call.kind) > 0 {
            EntryKind::Argument
        } else {
            EntryKind::Actual
        };
        let kind = self.formal_of(tables, call);
        self.push(
            tables,
            StackEntry {
                what,
                line,
                kind,
                ..NOTHING
            },
        );
    }

    // The kind of the formal for the next actual, where it is known.
    fn formal_of(&self, tables: &Tables, call: StackEntry) -> Kind
        requires ready { StateInvariant self.now (tables_model tables.now) }
    {
        if is_procedure(call.kind) {
            self.formal(tables, address_in(call.place), call.count)
        } else {
            Kind::Undeclared
        }
    }

    // All actuals were taken.
    pub(crate) fn call_ends(&mut self, tables: &mut Tables)
        requires ready { StateInvariant self.old (tables_model tables.old) }
        ensures { PreservesState self.old (tables_model tables.old) self.new (tables_model tables.new) }
    {
        let call = self.top(tables);
        self.pop(tables);
        self.operand_ends(value_type(call.kind));
        if is_procedure_formal(call.kind) {
            self.formal_call_ends(tables, call);
        } else if is_procedure(call.kind) {
            self.actuals_end(call);
            self.enter(tables, call.place, call.line);
        } else {
            self.library(tables, call.kind, call.line);
        }
    }

    // The working places of the actuals become free.
    pub(crate) fn actuals_end(&mut self, call: StackEntry)
        ensures { self.new.bytes ≡ self.old.bytes }
    {
        self.touch(self.free);
        self.free = self
            .free
            .saturating_sub(call.count.saturating_mul(FORMAL_WORDS));
    }
}
