// Array elements and switch designators.
ghost use Rattle.std.specs.Prelude.{◌≡◌};
ghost use Rattle.gier_text.specs.TablesModel.{tables_model};

use crate::kinds::{is_switch, value_type};
use crate::names::{Name, PendingName};
use crate::open::{EntryKind, NOTHING, StackEntry};
use crate::state::State;
use gier_order::Operation;
use gier_text::Tables;
use gier_tree::Kind;

impl State {
    ghost use Rattle.gier_pass7.specs.StateInvariants.{StateInvariant, PreservesState};

    // The identifier of an array or switch, behind which subscripts begin.
    pub(crate) fn subscripts_begin(&mut self, tables: &mut Tables, name: Name)
        requires ready { StateInvariant self.old (tables_model tables.old) }
        ensures { PreservesState self.old (tables_model tables.old) self.new (tables_model tables.new) }
    {
        self.operand_begins(tables);
        let what = if is_switch(name.kind) {
            EntryKind::SwitchDesignator
        } else {
            self.array_of(tables, name.kind, name.place, name.line);
            self.keep_next(tables, name.line);
            EntryKind::ArrayElement
        };
        self.push(
            tables,
            StackEntry {
                what,
                line: name.line,
                kind: name.kind,
                place: name.place,
                ..NOTHING
            },
        );
    }

    // A subscript ends.
    pub(crate) fn subscript_ends(&mut self, tables: &mut Tables)
        requires ready { StateInvariant self.old (tables_model tables.old) }
        ensures { PreservesState self.old (tables_model tables.old) self.new (tables_model tables.new) }
    {
        let top = self.top(tables);
        if top.what == EntryKind::ArrayElement {
            self.keep_next(tables, top.line);
        }
    }

    // All subscripts were taken.
    pub(crate) fn subscripted(&mut self, tables: &mut Tables, count: u64)
        requires ready { StateInvariant self.old (tables_model tables.old) }
        ensures { PreservesState self.old (tables_model tables.old) self.new (tables_model tables.new) }
    {
        let top = self.top(tables);
        self.pop(tables);
        self.value = value_type(top.kind);
        match top.what {
            EntryKind::ArrayElement => self.element(tables, top, count),
            EntryKind::SwitchDesignator => self.designator(tables, top),
            _ => {}
        }
    }

    fn element(&mut self, tables: &mut Tables, open: StackEntry, count: u64)
        requires ready { StateInvariant self.old (tables_model tables.old) }
        ensures { PreservesState self.old (tables_model tables.old) self.new (tables_model tables.new) }
    {
        self.free = self.free.saturating_sub(count.saturating_add(1));
        self.order(tables, Operation::Index, count, self.free, open.line);
        self.held = PendingName::Element(open.line);
    }

    fn designator(&mut self, tables: &mut Tables, open: StackEntry)
        requires ready { StateInvariant self.old (tables_model tables.old) }
        ensures { PreservesState self.old (tables_model tables.old) self.new (tables_model tables.new) }
    {
        if open.kind == Kind::Switch {
            self.on_number(tables, Operation::Switch, open.place, open.line);
        } else {
            self.on_cell(tables, Operation::SwForm, open.place, open.line);
        }
        self.full = true;
    }
}
