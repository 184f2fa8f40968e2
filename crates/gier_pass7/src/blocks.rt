// The program and its blocks.
ghost use Rattle.std.specs.Prelude.{◌≡◌};
ghost use Rattle.gier_text.specs.TablesModel.{tables_model};

use crate::open::{EntryKind, NOTHING, StackEntry};
use crate::state::State;
use gier_order::Operation;
use gier_text::Tables;

/// The header of an activation of the program or of a block.
pub(crate) const HEADER: u64 = 3;

// The level of the program.
const PROGRAM_LEVEL: u64 = 1;

impl State {
    ghost use Rattle.gier_pass7.specs.StateInvariants.{StateInvariant, PreservesState};

    // Something of which nothing but its end matters.
    pub(crate) fn open_plain(&mut self, tables: &mut Tables, what: EntryKind)
        requires ready { StateInvariant self.old (tables_model tables.old) }
        ensures { PreservesState self.old (tables_model tables.old) self.new (tables_model tables.new) }
    {
        self.push(tables, StackEntry { what, ..NOTHING });
    }

    // The first order has the line of the first statement's `_begin`, so it waits for that, and so do the labels before it.
    pub(crate) fn program_begins(&mut self, tables: &mut Tables, line: u32)
        requires ready { StateInvariant self.old (tables_model tables.old) }
        ensures { PreservesState self.old (tables_model tables.old) self.new (tables_model tables.new) }
    {
        let top = self.top(tables);
        if top.what != EntryKind::Program {
            return;
        }
        self.level = PROGRAM_LEVEL;
        self.free = HEADER;
        self.high_water = HEADER;
        self.open_room(tables, Operation::Start, PROGRAM_LEVEL, HEADER, line);
        for label in 0..top.count {
            self.mark(tables, label);
        }
        self.number = top.count;
        self.change(tables, StackEntry { line, ..top });
    }

    pub(crate) fn program_ends(&mut self, tables: &mut Tables)
        requires ready { StateInvariant self.old (tables_model tables.old) }
        ensures { PreservesState self.old (tables_model tables.old) self.new (tables_model tables.new) }
    {
        let top = self.top(tables);
        self.pop(tables);
        self.plain(tables, Operation::Stop, top.line);
        self.need(tables, HEADER);
        self.object_words(tables);
    }

    pub(crate) fn block_begins(&mut self, tables: &mut Tables, line: u32)
        requires ready { StateInvariant self.old (tables_model tables.old) }
        ensures { PreservesState self.old (tables_model tables.old) self.new (tables_model tables.new) }
    {
        self.scope_begins(tables, EntryKind::BlockHead);
        let top = self.top(tables);
        self.change(
            tables,
            StackEntry {
                line,
                free: self.free,
                high_water: self.high_water,
                place: self.address,
                ..top
            },
        );
        self.room = HEADER;
    }

    // The `_begin` of a block, behind its entries.
    pub(crate) fn begin(&mut self, tables: &mut Tables)
        requires ready { StateInvariant self.old (tables_model tables.old) }
        ensures { PreservesState self.old (tables_model tables.old) self.new (tables_model tables.new) }
    {
        let top = self.top(tables);
        if top.what != EntryKind::BlockHead {
            return;
        }
        self.level = self.level.saturating_add(1);
        self.address = HEADER;
        self.free = self.room;
        self.high_water = self.room;
        self.open_room(tables, Operation::Block, self.level, self.room, top.line);
        self.change(
            tables,
            StackEntry {
                what: EntryKind::Block,
                ..top
            },
        );
    }

    pub(crate) fn block_ends(&mut self, tables: &mut Tables)
        requires ready { StateInvariant self.old (tables_model tables.old) }
        ensures { PreservesState self.old (tables_model tables.old) self.new (tables_model tables.new) }
    {
        let top = self.top(tables);
        self.pop(tables);
        self.plain(tables, Operation::Leave, top.line);
        self.need(tables, self.free);
        self.free = top.free;
        self.high_water = top.high_water;
        self.address = top.place;
        self.number = top.number;
        self.level = self.level.saturating_sub(1);
    }

    // A controlled statement ends; its labels do too.
    pub(crate) fn controlled_ends(&mut self, tables: &mut Tables)
        requires ready { StateInvariant self.old (tables_model tables.old) }
        ensures { PreservesState self.old (tables_model tables.old) self.new (tables_model tables.new) }
    {
        let top = self.top(tables);
        self.pop(tables);
        self.number = top.number;
    }
}
