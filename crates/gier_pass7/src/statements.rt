// Assignments, go to statements, and conditionals.
ghost use Rattle.std.specs.Prelude.{◌≡◌};
ghost use Rattle.gier_text.specs.TablesModel.{tables_model};

use crate::open::{EntryKind, NOTHING, StackEntry};
use crate::state::State;
use gier_order::Operation;
use gier_text::Tables;

impl State {
    ghost use Rattle.gier_pass7.specs.StateInvariants.{StateInvariant, PreservesState};

    // The address of a left part was found; an assignment has the line of its first one.
    pub(crate) fn left_part(&mut self, tables: &mut Tables, line: u32)
        requires ready { StateInvariant self.old (tables_model tables.old) }
        ensures { PreservesState self.old (tables_model tables.old) self.new (tables_model tables.new) }
    {
        if self.top(tables).what != EntryKind::Assignment {
            self.push(
                tables,
                StackEntry {
                    what: EntryKind::Assignment,
                    line,
                    ..NOTHING
                },
            );
        }
        let top = self.top(tables);
        self.keep_next(tables, top.line);
        self.change(
            tables,
            StackEntry {
                count: top.count.saturating_add(1),
                ..top
            },
        );
    }

    // The statement that is open ends. Where it is an assignment, all left parts receive the value.
    pub(crate) fn statement_ends(&mut self, tables: &mut Tables)
        requires ready { StateInvariant self.old (tables_model tables.old) }
        ensures { PreservesState self.old (tables_model tables.old) self.new (tables_model tables.new) }
    {
        let top = self.top(tables);
        if top.what != EntryKind::Assignment {
            return;
        }
        self.pop(tables);
        self.free = self.free.saturating_sub(top.count);
        for left in 0..top.count {
            let place = self.free.saturating_add(left);
            self.order(tables, Operation::Put, 0, place, top.line);
        }
    }

    pub(crate) fn goto_begins(&mut self, tables: &mut Tables, line: u32)
        requires ready { StateInvariant self.old (tables_model tables.old) }
        ensures { PreservesState self.old (tables_model tables.old) self.new (tables_model tables.new) }
    {
        self.push(
            tables,
            StackEntry {
                what: EntryKind::Goto,
                line,
                ..NOTHING
            },
        );
    }

    pub(crate) fn goto_ends(&mut self, tables: &mut Tables)
        requires ready { StateInvariant self.old (tables_model tables.old) }
        ensures { PreservesState self.old (tables_model tables.old) self.new (tables_model tables.new) }
    {
        let line = self.top(tables).line;
        self.pop(tables);
        self.plain(tables, Operation::Go, line);
    }

    pub(crate) fn conditional_begins(&mut self, tables: &mut Tables)
        requires ready { StateInvariant self.old (tables_model tables.old) }
        ensures { PreservesState self.old (tables_model tables.old) self.new (tables_model tables.new) }
    {
        self.push(
            tables,
            StackEntry {
                what: EntryKind::Conditional,
                ..NOTHING
            },
        );
    }

    // The first symbol of a conditional or a for statement behind labels: its orders have this line.
    pub(crate) fn begins_at(&mut self, tables: &mut Tables, line: u32)
        requires ready { StateInvariant self.old (tables_model tables.old) }
        ensures { PreservesState self.old (tables_model tables.old) self.new (tables_model tables.new) }
    {
        let top = self.top(tables);
        self.change(tables, StackEntry { line, ..top });
    }

    // Behind the condition.
    pub(crate) fn then(&mut self, tables: &mut Tables)
        requires ready { StateInvariant self.old (tables_model tables.old) }
        ensures { PreservesState self.old (tables_model tables.old) self.new (tables_model tables.new) }
    {
        let top = self.top(tables);
        let label = self.new_label();
        self.label_order(tables, Operation::False, 0, label, top.line);
        self.change(tables, StackEntry { label, ..top });
    }

    // Behind the first branch.
    pub(crate) fn otherwise(&mut self, tables: &mut Tables)
        requires ready { StateInvariant self.old (tables_model tables.old) }
        ensures { PreservesState self.old (tables_model tables.old) self.new (tables_model tables.new) }
    {
        let top = self.top(tables);
        let label = self.new_label();
        self.jump(tables, label, top.line);
        self.mark(tables, top.label);
        self.change(tables, StackEntry { label, ..top });
    }

    // Behind the last branch.
    pub(crate) fn conditional_ends(&mut self, tables: &mut Tables)
        requires ready { StateInvariant self.old (tables_model tables.old) }
        ensures { PreservesState self.old (tables_model tables.old) self.new (tables_model tables.new) }
    {
        let label = self.top(tables).label;
        self.pop(tables);
        self.mark(tables, label);
    }
}
