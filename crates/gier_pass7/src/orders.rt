// What the pass writes: orders, words and marks, with numbers for labels.
ghost use Rattle.std.specs.Prelude.{◌≡◌, ◌<◌, ◌^◌};
ghost use Rattle.gier_text.specs.TablesModel.{tables_model};
ghost use Rattle.gier_pass7.specs.Codes.{head, fields, order_code};

use crate::lists::{OUTBOX, head_at, len, push_outbox, set_outbox, value_at};
use crate::state::State;
use gier_limits::{ADDRESSES, LINES, ORDER_FIELDS};
use gier_order::Operation;
use gier_symbol::{ORDER_BASE, Tag};
use gier_text::Tables;
use std::cmp;

const LAST_ADDRESS: u64 = ADDRESSES - 1;

const LAST_LEVEL: u64 = 255;

const LAST_LINE: u32 = (1 << 24) - 1;

/// The first word of a symbol with this tag and line.
pub(crate) fn head(tag: u16, line: u32) -> u64
    ensures { result ≡ head tag line }
{
    u64::from(tag) * LINES + u64::from(cmp::min(line, LAST_LINE))
}

/// The tag that a first word tells.
pub(crate) fn tag_in(head: u64) -> u64 {
    head / LINES
}

/// Level and address of an order; what is greater than the greatest becomes that.
pub(crate) fn fields(level: u64, address: u64) -> u64
    ensures value { result ≡ fields level address }
    ensures small { result < 2 ^ 32 }
{
    cmp::min(level, LAST_LEVEL) * ADDRESSES + cmp::min(address, LAST_ADDRESS)
}

/// An order with its number, level and address.
pub(crate) fn packed(operation: Operation, level: u64, address: u64) -> u64
    ensures { result ≡ order_code operation level address }
{
    u64::from(operation.number()) * ORDER_FIELDS + fields(level, address)
}

impl State {
    ghost use Rattle.gier_pass7.specs.StateInvariants.{StateInvariant, PreservesState};

    // How many entries wait in the outbox.
    pub(crate) fn place(&self, tables: &Tables) -> u64
        requires ready { StateInvariant self.now (tables_model tables.now) }
    {
        len(self.bytes, tables, OUTBOX)
    }

    fn put(&mut self, tables: &mut Tables, tag: u16, value: u64, line: u32)
        requires ready { StateInvariant self.old (tables_model tables.old) }
        ensures { PreservesState self.old (tables_model tables.old) self.new (tables_model tables.new) }
    {
        push_outbox(self.bytes, tables, head(tag, line), value);
        self.line = line;
    }

    // A symbol that is a word of the object.
    fn put_one(&mut self, tables: &mut Tables, tag: u16, value: u64, line: u32)
        requires ready { StateInvariant self.old (tables_model tables.old) }
        ensures { PreservesState self.old (tables_model tables.old) self.new (tables_model tables.new) }
    {
        self.words = self.words.saturating_add(1);
        self.put(tables, tag, value, line);
    }

    pub(crate) fn order(
        &mut self,
        tables: &mut Tables,
        operation: Operation,
        level: u64,
        address: u64,
        line: u32,
    )
        requires ready { StateInvariant self.old (tables_model tables.old) }
        ensures { PreservesState self.old (tables_model tables.old) self.new (tables_model tables.new) }
    {
        let tag = ORDER_BASE + u16::from(operation.number());
        self.put_one(tables, tag, fields(level, address), line);
    }

    // An order without level and address.
    pub(crate) fn plain(&mut self, tables: &mut Tables, operation: Operation, line: u32)
        requires ready { StateInvariant self.old (tables_model tables.old) }
        ensures { PreservesState self.old (tables_model tables.old) self.new (tables_model tables.new) }
    {
        self.order(tables, operation, 0, 0, line);
    }

    // An order whose address is a label number.
    pub(crate) fn label_order(
        &mut self,
        tables: &mut Tables,
        operation: Operation,
        level: u64,
        label: u64,
        line: u32,
    )
        requires ready { StateInvariant self.old (tables_model tables.old) }
        ensures { PreservesState self.old (tables_model tables.old) self.new (tables_model tables.new) }
    {
        let value = packed(operation, level, label);
        self.put_one(tables, Tag::LabelOrder.number(), value, line);
    }

    pub(crate) fn jump(&mut self, tables: &mut Tables, label: u64, line: u32)
        requires ready { StateInvariant self.old (tables_model tables.old) }
        ensures { PreservesState self.old (tables_model tables.old) self.new (tables_model tables.new) }
    {
        self.label_order(tables, Operation::Jump, 0, label, line);
    }

    pub(crate) fn word(&mut self, tables: &mut Tables, word: u64, line: u32)
        requires ready { StateInvariant self.old (tables_model tables.old) }
        ensures { PreservesState self.old (tables_model tables.old) self.new (tables_model tables.new) }
    {
        self.put_one(tables, Tag::Word.number(), word, line);
    }

    // The place at which a label is defined. It has the line of the symbol before it.
    pub(crate) fn mark(&mut self, tables: &mut Tables, label: u64)
        requires ready { StateInvariant self.old (tables_model tables.old) }
        ensures { PreservesState self.old (tables_model tables.old) self.new (tables_model tables.new) }
    {
        self.put(
            tables,
            Tag::LabelPlace.number(),
            cmp::min(label, LAST_ADDRESS),
            self.line,
        );
    }

    // An order that begins an activation, whose address is its room without what it needs.
    pub(crate) fn open_room(
        &mut self,
        tables: &mut Tables,
        operation: Operation,
        level: u64,
        room: u64,
        line: u32,
    )
        requires ready { StateInvariant self.old (tables_model tables.old) }
        ensures { PreservesState self.old (tables_model tables.old) self.new (tables_model tables.new) }
    {
        let value = packed(operation, level, room);
        self.put_one(tables, Tag::OpenRoom.number(), value, line);
    }

    // What the current activation needs, whose working places begin here.
    pub(crate) fn need(&mut self, tables: &mut Tables, first: u64)
        requires ready { StateInvariant self.old (tables_model tables.old) }
        ensures { PreservesState self.old (tables_model tables.old) self.new (tables_model tables.new) }
    {
        let need = self.high_water.saturating_sub(first);
        self.put(
            tables,
            Tag::Need.number(),
            cmp::min(need, LAST_ADDRESS),
            self.line,
        );
    }

    // The number of words of the object.
    pub(crate) fn object_words(&mut self, tables: &mut Tables)
        requires ready { StateInvariant self.old (tables_model tables.old) }
        ensures { PreservesState self.old (tables_model tables.old) self.new (tables_model tables.new) }
    {
        self.put(
            tables,
            Tag::ObjectWords.number(),
            cmp::min(self.words, LAST_ADDRESS),
            self.line,
        );
    }

    // A number for a label that the program doesn't declare.
    pub(crate) fn new_label(&mut self) -> u64
        ensures { self.new.bytes ≡ self.old.bytes }
    {
        let label = self.label;
        self.label = label.saturating_add(1);
        label
    }

    // Leaves entries of the outbox free.
    pub(crate) fn reserve(&self, tables: &mut Tables, count: u64)
        requires ready { StateInvariant self.now (tables_model tables.old) }
        ensures { PreservesState self.now (tables_model tables.old) self.now (tables_model tables.new) }
    {
        for _turn in 0..count {
            push_outbox(self.bytes, tables, 0, 0);
        }
    }

    // Writes a word of the object at a place that was left free.
    pub(crate) fn word_there(&mut self, tables: &mut Tables, at: u64, word: u64, line: u32)
        requires ready { StateInvariant self.old (tables_model tables.old) }
        ensures { PreservesState self.old (tables_model tables.old) self.new (tables_model tables.new) }
    {
        self.words = self.words.saturating_add(1);
        set_outbox(self.bytes, tables, at, head(Tag::Word.number(), line), word);
    }

    // The same with a word that is a label number.
    pub(crate) fn label_there(&mut self, tables: &mut Tables, at: u64, label: u64, line: u32)
        requires ready { StateInvariant self.old (tables_model tables.old) }
        ensures { PreservesState self.old (tables_model tables.old) self.new (tables_model tables.new) }
    {
        self.words = self.words.saturating_add(1);
        let first = head(Tag::LabelWord.number(), line);
        set_outbox(self.bytes, tables, at, first, cmp::min(label, LAST_ADDRESS));
    }

    // The same with the place of a label.
    pub(crate) fn mark_there(&self, tables: &mut Tables, at: u64, label: u64, line: u32)
        requires ready { StateInvariant self.now (tables_model tables.old) }
        ensures { PreservesState self.now (tables_model tables.old) self.now (tables_model tables.new) }
    {
        let first = head(Tag::LabelPlace.number(), line);
        set_outbox(self.bytes, tables, at, first, cmp::min(label, LAST_ADDRESS));
    }

    // The value of an entry of the outbox.
    pub(crate) fn value_there(&self, tables: &Tables, at: u64) -> u64
        requires ready { StateInvariant self.now (tables_model tables.now) }
    {
        value_at(self.bytes, tables, at)
    }

    // Gives an entry of the outbox another value.
    pub(crate) fn set_value(&self, tables: &mut Tables, at: u64, value: u64)
        requires ready { StateInvariant self.now (tables_model tables.old) }
        ensures { PreservesState self.now (tables_model tables.old) self.now (tables_model tables.new) }
    {
        let first = head_at(self.bytes, tables, at);
        set_outbox(self.bytes, tables, at, first, value);
    }

    // Gives an entry of the outbox another line.
    pub(crate) fn set_line(&self, tables: &mut Tables, at: u64, line: u32)
        requires ready { StateInvariant self.now (tables_model tables.old) }
        ensures { PreservesState self.now (tables_model tables.old) self.now (tables_model tables.new) }
    {
        let first = head_at(self.bytes, tables, at) / LINES * LINES;
        let line = u64::from(cmp::min(line, LAST_LINE));
        set_outbox(
            self.bytes,
            tables,
            at,
            first.saturating_add(line),
            value_at(self.bytes, tables, at),
        );
    }

    // Something that may still change stands in the outbox.
    pub(crate) fn hold(&mut self)
        ensures { self.new.bytes ≡ self.old.bytes }
    {
        self.open_patches = self.open_patches.saturating_add(1);
    }

    pub(crate) fn release(&mut self)
        ensures { self.new.bytes ≡ self.old.bytes }
    {
        self.open_patches = self.open_patches.saturating_sub(1);
    }
}
