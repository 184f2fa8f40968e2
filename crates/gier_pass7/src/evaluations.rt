// Evaluations: expressions as actuals that are taken by name, and elements of switches.
ghost use Rattle.std.specs.Prelude.{◌≡◌};
ghost use Rattle.gier_text.specs.TablesModel.{tables_model};

use crate::kinds::{ValueType, is_cell, is_evaluated, is_name};
use crate::names::Name;
use crate::open::{EntryKind, StackEntry};
use crate::orders::packed;
use crate::state::State;
use gier_order::Operation;
use gier_text::Tables;

// Working places of an evaluation begin here.
const FIRST: u64 = 5;

/// What an evaluation is of; the number of a variant is the level of its order.
#[derive(Debug, Clone, Copy, PartialEq, Eq)]
pub(crate) enum Thunk {
    Expression = 0,
    Variable = 1,
    Label = 2,
    NameFormal = 3,
}

impl Thunk {
    fn number(self) -> u64 {
        self as u64
    }
}

fn thunk_of(value: ValueType) -> Thunk {
    match value {
        ValueType::Label => Thunk::Label,
        _ => Thunk::Expression,
    }
}

impl State {
    ghost use Rattle.gier_pass7.specs.StateInvariants.{StateInvariant, PreservesState};

    // Where an actual by name isn't an identifier alone, an evaluation begins with its first operand.
    pub(crate) fn actual_opens(&mut self, tables: &mut Tables)
        requires ready { StateInvariant self.old (tables_model tables.old) }
        ensures { PreservesState self.old (tables_model tables.old) self.new (tables_model tables.new) }
    {
        let top = self.top(tables);
        if top.what == EntryKind::Actual && is_evaluated(top.kind) {
            self.evaluation_begins(tables, top);
        }
    }

    // The actual at the top becomes an evaluation. What it is of is known at its end.
    fn evaluation_begins(&mut self, tables: &mut Tables, top: StackEntry)
        requires ready { StateInvariant self.old (tables_model tables.old) }
        ensures { PreservesState self.old (tables_model tables.old) self.new (tables_model tables.new) }
    {
        let behind = self.new_label();
        let label = self.new_label();
        self.jump(tables, behind, top.line);
        self.mark(tables, label);
        let at = self.place(tables);
        self.change(
            tables,
            StackEntry {
                what: EntryKind::Evaluation,
                label: behind,
                other: label,
                at,
                free: self.free,
                high_water: self.high_water,
                level: self.level,
                ..top
            },
        );
        self.thunk(tables, Thunk::Expression, top.line);
        self.hold();
    }

    // The first order of an evaluation, and its working places.
    pub(crate) fn thunk(&mut self, tables: &mut Tables, kind: Thunk, line: u32)
        requires ready { StateInvariant self.old (tables_model tables.old) }
        ensures { PreservesState self.old (tables_model tables.old) self.new (tables_model tables.new) }
    {
        self.open_room(tables, Operation::Thunk, kind.number(), FIRST, line);
        self.free = FIRST;
        self.high_water = FIRST;
        self.level = 0;
    }

    // The end of what an evaluation needs; the activation around it goes on.
    pub(crate) fn thunk_ends(&mut self, tables: &mut Tables, open: StackEntry)
        requires ready { StateInvariant self.old (tables_model tables.old) }
        ensures { PreservesState self.old (tables_model tables.old) self.new (tables_model tables.new) }
    {
        self.need(tables, FIRST);
        self.free = open.free;
        self.high_water = open.high_water;
        self.level = open.level;
    }

    // The evaluation at the top ends; it is an actual.
    pub(crate) fn evaluation_ends(&mut self, tables: &mut Tables, kind: Thunk)
        requires ready { StateInvariant self.old (tables_model tables.old) }
        ensures { PreservesState self.old (tables_model tables.old) self.new (tables_model tables.new) }
    {
        let top = self.top(tables);
        let order = packed(Operation::Thunk, kind.number(), FIRST);
        self.set_value(tables, top.at, order);
        self.release();
        self.thunk_ends(tables, top);
        self.mark(tables, top.label);
        self.label_order(tables, Operation::Short, 0, top.other, top.line);
        self.keep_pair(tables, 0, top.line);
    }

    // Keeps the address of an actual, and behind it the base of an activation.
    pub(crate) fn keep_pair(&mut self, tables: &mut Tables, level: u64, line: u32)
        requires ready { StateInvariant self.old (tables_model tables.old) }
        ensures { PreservesState self.old (tables_model tables.old) self.new (tables_model tables.new) }
    {
        self.keep(tables, self.free, line);
        self.order(tables, Operation::Base, level, 0, line);
        self.keep(tables, self.free.saturating_add(1), line);
    }

    // The evaluation at the top was of a whole expression.
    pub(crate) fn expression_ends(&mut self, tables: &mut Tables, line: u32)
        requires ready { StateInvariant self.old (tables_model tables.old) }
        ensures { PreservesState self.old (tables_model tables.old) self.new (tables_model tables.new) }
    {
        self.plain(tables, Operation::Back, line);
        self.evaluation_ends(tables, thunk_of(self.value));
    }

    // The evaluation at the top was of a variable, whose address was found.
    pub(crate) fn variable_ends(&mut self, tables: &mut Tables, line: u32)
        requires ready { StateInvariant self.old (tables_model tables.old) }
        ensures { PreservesState self.old (tables_model tables.old) self.new (tables_model tables.new) }
    {
        self.plain(tables, Operation::Give, line);
        self.evaluation_ends(tables, Thunk::Variable);
    }

    // The actual at the top is an identifier alone, and an evaluation.
    pub(crate) fn name_evaluated(&mut self, tables: &mut Tables, top: StackEntry, name: Name)
        requires ready { StateInvariant self.old (tables_model tables.old) }
        ensures { PreservesState self.old (tables_model tables.old) self.new (tables_model tables.new) }
    {
        if is_cell(name.kind) {
            self.evaluation_begins(tables, top);
            self.address_of(tables, name.kind, name.place, name.line);
            self.variable_ends(tables, name.line);
        } else if is_name(name.kind) {
            self.evaluation_begins(tables, top);
            self.on_cell(tables, Operation::Pass, name.place, name.line);
            self.plain(tables, Operation::Back, name.line);
            self.evaluation_ends(tables, Thunk::NameFormal);
        } else {
            self.alone_in_expression(tables, name);
            self.expression_ends(tables, name.line);
        }
    }
}
