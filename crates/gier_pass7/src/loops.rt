// For statements: the elements in order, each with jumps to the one controlled statement behind them.
ghost use Rattle.std.specs.Prelude.{◌≡◌};
ghost use Rattle.gier_text.specs.TablesModel.{tables_model};

use crate::lists::{RECORD, forget};
use crate::names::Name;
use crate::open::{EntryKind, NOTHING, StackEntry, line_of};
use crate::state::State;
use gier_order::Operation;
use gier_text::Tables;

// Behind the first free working place, where the run goes on after a turn, stand the address of the variable and then its value for
// the sum.
const ADDRESS: u64 = 1;

const SUM: u64 = 2;

// No label has this number; it stands for one that isn't numbered yet.
const NO_LABEL: u64 = 0;

impl State {
    ghost use Rattle.gier_pass7.specs.StateInvariants.{StateInvariant, PreservesState};

    pub(crate) fn for_begins(&mut self, tables: &mut Tables)
        requires ready { StateInvariant self.old (tables_model tables.old) }
        ensures { PreservesState self.old (tables_model tables.old) self.new (tables_model tables.new) }
    {
        self.push(
            tables,
            StackEntry {
                what: EntryKind::For,
                label: NO_LABEL,
                ..NOTHING
            },
        );
    }

    // The controlled variable of the for statement at the top.
    pub(crate) fn variable(&mut self, tables: &mut Tables, top: StackEntry, name: Name)
        requires ready { StateInvariant self.old (tables_model tables.old) }
        ensures { PreservesState self.old (tables_model tables.old) self.new (tables_model tables.new) }
    {
        self.change(
            tables,
            StackEntry {
                kind: name.kind,
                place: name.place,
                count: u64::from(name.line),
                ..top
            },
        );
    }

    // The address of the variable, kept behind the first free working place.
    fn set_begins(&mut self, tables: &mut Tables, statement: StackEntry, line: u32)
        requires ready { StateInvariant self.old (tables_model tables.old) }
        ensures { PreservesState self.old (tables_model tables.old) self.new (tables_model tables.new) }
    {
        let at = self.free.saturating_add(ADDRESS);
        self.address_of(
            tables,
            statement.kind,
            statement.place,
            line_of(statement.count),
        );
        self.keep(tables, at, line);
    }

    // The variable's value, kept at a working place; those from the next one on are free.
    fn value_kept(&mut self, tables: &mut Tables, statement: StackEntry, at: u64, line: u32)
        requires ready { StateInvariant self.old (tables_model tables.old) }
        ensures { PreservesState self.old (tables_model tables.old) self.new (tables_model tables.new) }
    {
        self.value_of(
            tables,
            statement.kind,
            statement.place,
            line_of(statement.count),
        );
        self.keep(tables, at, line);
        self.free = at.saturating_add(1);
        self.full = false;
    }

    // A for element begins, whose first symbol has this line.
    pub(crate) fn element_begins(&mut self, tables: &mut Tables, line: u32)
        requires ready { StateInvariant self.old (tables_model tables.old) }
        ensures { PreservesState self.old (tables_model tables.old) self.new (tables_model tables.new) }
    {
        let statement = self.top(tables);
        self.push(
            tables,
            StackEntry {
                what: EntryKind::Element,
                line,
                free: self.free,
                at: self.place(tables),
                count: u64::from(self.line),
                other: self.label,
                ..NOTHING
            },
        );
        self.hold();
        self.set_begins(tables, statement, line);
        self.free = self.free.saturating_add(SUM);
    }

    // The first expression of an element ends: the variable receives it.
    fn first_ends(&mut self, tables: &mut Tables, element: StackEntry)
        requires ready { StateInvariant self.old (tables_model tables.old) }
        ensures { PreservesState self.old (tables_model tables.old) self.new (tables_model tables.new) }
    {
        let at = element.free.saturating_add(ADDRESS);
        self.order(tables, Operation::Put, 0, at, element.line);
        self.release();
    }

    // `_step`: the variable plus the second expression comes before each turn but the first.
    pub(crate) fn step_begins(&mut self, tables: &mut Tables)
        requires ready { StateInvariant self.old (tables_model tables.old) }
        ensures { PreservesState self.old (tables_model tables.old) self.new (tables_model tables.new) }
    {
        let element = self.top(tables);
        let statement = self.below(tables);
        let line = element.line;
        self.first_ends(tables, element);
        let test = self.new_label();
        let turn = self.new_label();
        self.jump(tables, test, line);
        self.mark(tables, turn);
        self.free = element.free;
        self.set_begins(tables, statement, line);
        let at = element.free.saturating_add(SUM);
        self.value_kept(tables, statement, at, line);
        self.change(
            tables,
            StackEntry {
                what: EntryKind::Step,
                label: turn,
                other: test,
                ..element
            },
        );
        forget(self.bytes, tables, RECORD);
        self.recording = true;
    }

    // `_until`: the test before each turn.
    pub(crate) fn until_begins(&mut self, tables: &mut Tables)
        requires ready { StateInvariant self.old (tables_model tables.old) }
        ensures { PreservesState self.old (tables_model tables.old) self.new (tables_model tables.new) }
    {
        let element = self.top(tables);
        let statement = self.below(tables);
        let line = element.line;
        let first = element.free.saturating_add(ADDRESS);
        let second = element.free.saturating_add(SUM);
        self.order(tables, Operation::Add, 0, second, line);
        self.order(tables, Operation::Put, 0, first, line);
        self.mark(tables, element.other);
        self.value_kept(tables, statement, first, line);
        self.change(
            tables,
            StackEntry {
                what: EntryKind::Until,
                ..element
            },
        );
    }

    // The third expression ends, and the second one comes again.
    fn again_begins(&mut self, tables: &mut Tables, element: StackEntry)
        requires ready { StateInvariant self.old (tables_model tables.old) }
        ensures { PreservesState self.old (tables_model tables.old) self.new (tables_model tables.new) }
    {
        let first = element.free.saturating_add(ADDRESS);
        self.order(tables, Operation::Sub, 0, first, element.line);
        self.keep(tables, first, element.line);
        self.free = first.saturating_add(1);
        self.full = false;
        self.change(
            tables,
            StackEntry {
                what: EntryKind::Again,
                ..element
            },
        );
    }

    // The second expression of a step element was coded again.
    pub(crate) fn again_ends(&mut self, tables: &mut Tables)
        requires ready { StateInvariant self.old (tables_model tables.old) }
        ensures { PreservesState self.old (tables_model tables.old) self.new (tables_model tables.new) }
    {
        let element = self.top(tables);
        let first = element.free.saturating_add(ADDRESS);
        self.order(tables, Operation::Test, 0, first, element.line);
        self.turn_if(tables, element);
    }

    // `_while`: each turn begins with the element, whose label is only known to be one now.
    pub(crate) fn while_begins(&mut self, tables: &mut Tables)
        requires ready { StateInvariant self.old (tables_model tables.old) }
        ensures { PreservesState self.old (tables_model tables.old) self.new (tables_model tables.new) }
    {
        let element = self.top(tables);
        let label = element.other;
        self.gap(tables, element.at, 1, label, label.saturating_add(1));
        let before = line_of(element.count);
        self.mark_there(tables, element.at, label, before);
        self.first_ends(tables, element);
        self.free = element.free.saturating_add(ADDRESS);
        self.change(
            tables,
            StackEntry {
                what: EntryKind::While,
                label,
                ..element
            },
        );
    }

    // A for element ends, but for a step element, whose second expression is still to be coded again.
    pub(crate) fn element_ends(&mut self, tables: &mut Tables)
        requires ready { StateInvariant self.old (tables_model tables.old) }
        ensures { PreservesState self.old (tables_model tables.old) self.new (tables_model tables.new) }
    {
        let element = self.top(tables);
        match element.what {
            EntryKind::Element => {
                self.first_ends(tables, element);
                let next = self.new_label();
                self.turn(tables, element, next);
                self.mark(tables, next);
            }
            EntryKind::Until => self.again_begins(tables, element),
            EntryKind::While => self.turn_if(tables, element),
            _ => {}
        }
    }

    // A turn where R isn't false, and else the next element.
    fn turn_if(&mut self, tables: &mut Tables, element: StackEntry)
        requires ready { StateInvariant self.old (tables_model tables.old) }
        ensures { PreservesState self.old (tables_model tables.old) self.new (tables_model tables.new) }
    {
        let next = self.new_label();
        self.label_order(tables, Operation::False, 0, next, element.line);
        self.turn(tables, element, element.label);
        self.mark(tables, next);
    }

    // The element at the top ends with a turn of the controlled statement, behind which the run goes on at a label.
    fn turn(&mut self, tables: &mut Tables, element: StackEntry, label: u64)
        requires ready { StateInvariant self.old (tables_model tables.old) }
        ensures { PreservesState self.old (tables_model tables.old) self.new (tables_model tables.new) }
    {
        self.pop(tables);
        self.free = element.free;
        self.label_order(tables, Operation::Short, 0, label, element.line);
        self.keep(tables, self.free, element.line);
        let statement = self.top(tables);
        if statement.label == NO_LABEL {
            let controlled = self.new_label();
            self.change(
                tables,
                StackEntry {
                    label: controlled,
                    ..statement
                },
            );
            self.jump(tables, controlled, element.line);
        } else {
            self.jump(tables, statement.label, element.line);
        }
    }

    // Behind all elements.
    pub(crate) fn controlled_begins(&mut self, tables: &mut Tables)
        requires ready { StateInvariant self.old (tables_model tables.old) }
        ensures { PreservesState self.old (tables_model tables.old) self.new (tables_model tables.new) }
    {
        let statement = self.top(tables);
        let end = self.new_label();
        self.jump(tables, end, statement.line);
        self.mark(tables, statement.label);
        self.free = self.free.saturating_add(1);
        self.change(
            tables,
            StackEntry {
                other: end,
                ..statement
            },
        );
        self.scope_begins(tables, EntryKind::Controlled);
    }

    pub(crate) fn for_ends(&mut self, tables: &mut Tables)
        requires ready { StateInvariant self.old (tables_model tables.old) }
        ensures { PreservesState self.old (tables_model tables.old) self.new (tables_model tables.new) }
    {
        let statement = self.top(tables);
        self.pop(tables);
        self.free = self.free.saturating_sub(1);
        self.order(tables, Operation::Turn, 0, self.free, statement.line);
        self.mark(tables, statement.other);
    }
}
