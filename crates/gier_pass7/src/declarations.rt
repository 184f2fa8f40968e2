// What is declared: entries of scopes, array segments, switches and procedures.
ghost use Rattle.std.specs.Prelude.{◌≡◌};
ghost use Rattle.gier_text.specs.TablesModel.{tables_model};

use crate::backpatch::FORWARD_LABELS;
use crate::calls::FORMAL_WORDS;
use crate::evaluations::Thunk;
use crate::kinds::{is_numbered, kind_of};
use crate::lists::{DESCRIPTIONS, NUMBERED, len, push_word, word_at};
use crate::open::{EntryKind, NOTHING, StackEntry};
use crate::state::State;
use gier_order::Operation;
use gier_text::Tables;
use gier_tree::Kind;

// The header of a procedure's activation.
const PROCEDURE_HEADER: u64 = 5;

// A descriptor has two words, and two more for each dimension.
const DESCRIPTOR_WORDS: u64 = 2;

const BOUNDS: u64 = 2;

impl State {
    ghost use Rattle.gier_pass7.specs.StateInvariants.{StateInvariant, PreservesState};

    // The description of an entry, or of a formal of the procedure that was entered last.
    pub(crate) fn describe(&mut self, tables: &mut Tables, kind: u64)
        requires ready { StateInvariant self.old (tables_model tables.old) }
        ensures { PreservesState self.old (tables_model tables.old) self.new (tables_model tables.new) }
    {
        if self.entry {
            self.entry = false;
            self.enter_kind(tables, kind_of(kind));
        } else {
            push_word(self.bytes, tables, DESCRIPTIONS, kind);
        }
    }

    fn enter_kind(&mut self, tables: &mut Tables, kind: Kind)
        requires ready { StateInvariant self.old (tables_model tables.old) }
        ensures { PreservesState self.old (tables_model tables.old) self.new (tables_model tables.new) }
    {
        match kind {
            Kind::IntegerVariable | Kind::BooleanVariable => {
                self.room = self.room.saturating_add(1);
            }
            Kind::IntegerArray | Kind::BooleanArray => {
                self.room = self.room.saturating_add(DESCRIPTOR_WORDS);
            }
            _ => {}
        }
        if is_numbered(kind) {
            let at = len(self.bytes, tables, DESCRIPTIONS);
            push_word(self.bytes, tables, NUMBERED, at);
            push_word(self.bytes, tables, DESCRIPTIONS, kind.number());
        }
    }

    // The dimensions of the array that was entered last.
    pub(crate) fn dimensions(&mut self, count: u64)
        ensures { self.new.bytes ≡ self.old.bytes }
    {
        self.room = self.room.saturating_add(count.saturating_mul(BOUNDS));
    }

    // The kind of a label, switch or procedure.
    fn kind_numbered(&self, tables: &Tables, number: u64) -> Kind
        requires ready { StateInvariant self.now (tables_model tables.now) }
    {
        let place = word_at(self.bytes, tables, NUMBERED, number);
        kind_of(word_at(self.bytes, tables, DESCRIPTIONS, place))
    }

    // The kind of a procedure's formal, from 0.
    pub(crate) fn formal(&self, tables: &Tables, number: u64, formal: u64) -> Kind
        requires ready { StateInvariant self.now (tables_model tables.now) }
    {
        let place = word_at(self.bytes, tables, NUMBERED, number);
        let at = place.saturating_add(formal).saturating_add(1);
        kind_of(word_at(self.bytes, tables, DESCRIPTIONS, at))
    }

    // A scope begins: labels, switches and procedures that it declares have the next numbers.
    pub(crate) fn scope_begins(&mut self, tables: &mut Tables, what: EntryKind)
        requires ready { StateInvariant self.old (tables_model tables.old) }
        ensures { PreservesState self.old (tables_model tables.old) self.new (tables_model tables.new) }
    {
        self.push(
            tables,
            StackEntry {
                what,
                number: self.number,
                ..NOTHING
            },
        );
        self.number = len(self.bytes, tables, NUMBERED);
    }

    // The number of the label, switch or procedure that is declared next.
    fn next_number(&mut self) -> u64
        ensures { self.new.bytes ≡ self.old.bytes }
    {
        let number = self.number;
        self.number = number.saturating_add(1);
        number
    }

    // An identifier in a declaring place.
    pub(crate) fn declares(&mut self, tables: &mut Tables)
        requires ready { StateInvariant self.old (tables_model tables.old) }
        ensures { PreservesState self.old (tables_model tables.old) self.new (tables_model tables.new) }
    {
        let top = self.top(tables);
        match top.what {
            EntryKind::TypeDeclaration => self.address = self.address.saturating_add(1),
            EntryKind::Program | EntryKind::Segment => self.count_one(tables, top),
            EntryKind::Switch | EntryKind::Procedure => {}
            _ => {
                let number = self.next_number();
                self.mark(tables, number);
            }
        }
    }

    // The entry at the top counts one more.
    pub(crate) fn count_one(&mut self, tables: &mut Tables, top: StackEntry)
        requires ready { StateInvariant self.old (tables_model tables.old) }
        ensures { PreservesState self.old (tables_model tables.old) self.new (tables_model tables.new) }
    {
        self.change(
            tables,
            StackEntry {
                count: top.count.saturating_add(1),
                ..top
            },
        );
    }

    pub(crate) fn segment_begins(&mut self, tables: &mut Tables, line: u32)
        requires ready { StateInvariant self.old (tables_model tables.old) }
        ensures { PreservesState self.old (tables_model tables.old) self.new (tables_model tables.new) }
    {
        self.push(
            tables,
            StackEntry {
                what: EntryKind::Segment,
                line,
                ..NOTHING
            },
        );
    }

    // A bound of a segment ends.
    pub(crate) fn bound_ends(&mut self, tables: &mut Tables)
        requires ready { StateInvariant self.old (tables_model tables.old) }
        ensures { PreservesState self.old (tables_model tables.old) self.new (tables_model tables.new) }
    {
        let top = self.top(tables);
        self.keep_next(tables, top.line);
        self.change(
            tables,
            StackEntry {
                other: top.other.saturating_add(1),
                ..top
            },
        );
    }

    // All bounds were taken, and the arrays of the segment come.
    pub(crate) fn segment_ends(&mut self, tables: &mut Tables)
        requires ready { StateInvariant self.old (tables_model tables.old) }
        ensures { PreservesState self.old (tables_model tables.old) self.new (tables_model tables.new) }
    {
        let top = self.top(tables);
        self.pop(tables);
        self.free = self.free.saturating_sub(top.other);
        let dimensions = top.other / BOUNDS;
        for _turn in 0..top.count {
            self.order(tables, Operation::Short, 0, self.free, top.line);
            self.order(tables, Operation::Array, dimensions, self.address, top.line);
            self.address = self
                .address
                .saturating_add(DESCRIPTOR_WORDS)
                .saturating_add(top.other);
        }
    }

    pub(crate) fn switch_begins(&mut self, tables: &mut Tables, line: u32)
        requires ready { StateInvariant self.old (tables_model tables.old) }
        ensures { PreservesState self.old (tables_model tables.old) self.new (tables_model tables.new) }
    {
        let number = self.next_number();
        let behind = self.new_label();
        self.jump(tables, behind, line);
        self.mark(tables, number);
        self.push(
            tables,
            StackEntry {
                what: EntryKind::Switch,
                line,
                label: behind,
                other: self.label,
                at: self.place(tables),
                ..NOTHING
            },
        );
        self.label = self.label.saturating_add(FORWARD_LABELS);
        self.hold();
    }

    pub(crate) fn switch_element_begins(&mut self, tables: &mut Tables, line: u32)
        requires ready { StateInvariant self.old (tables_model tables.old) }
        ensures { PreservesState self.old (tables_model tables.old) self.new (tables_model tables.new) }
    {
        let top = self.top(tables);
        self.mark(tables, top.other.saturating_add(top.count));
        self.count_one(tables, top);
        self.push(
            tables,
            StackEntry {
                what: EntryKind::SwitchElement,
                line,
                free: self.free,
                high_water: self.high_water,
                level: self.level,
                ..NOTHING
            },
        );
        self.thunk(tables, Thunk::Label, line);
    }

    pub(crate) fn switch_element_ends(&mut self, tables: &mut Tables)
        requires ready { StateInvariant self.old (tables_model tables.old) }
        ensures { PreservesState self.old (tables_model tables.old) self.new (tables_model tables.new) }
    {
        let top = self.top(tables);
        self.pop(tables);
        self.plain(tables, Operation::Back, top.line);
        self.thunk_ends(tables, top);
    }

    // All elements were taken: their number and their labels stand before them.
    pub(crate) fn switch_ends(&mut self, tables: &mut Tables)
        requires ready { StateInvariant self.old (tables_model tables.old) }
        ensures { PreservesState self.old (tables_model tables.old) self.new (tables_model tables.new) }
    {
        let top = self.top(tables);
        self.pop(tables);
        self.gap(
            tables,
            top.at,
            top.count.saturating_add(1),
            top.other.saturating_add(FORWARD_LABELS),
            top.other.saturating_add(top.count),
        );
        self.word_there(tables, top.at, top.count, top.line);
        for element in 0..top.count {
            let at = top.at.saturating_add(element).saturating_add(1);
            let label = top.other.saturating_add(element);
            self.label_there(tables, at, label, top.line);
        }
        self.release();
        self.mark(tables, top.label);
    }

    pub(crate) fn procedure_begins(&mut self, tables: &mut Tables, line: u32)
        requires ready { StateInvariant self.old (tables_model tables.old) }
        ensures { PreservesState self.old (tables_model tables.old) self.new (tables_model tables.new) }
    {
        let place = self.next_number();
        self.push(
            tables,
            StackEntry {
                what: EntryKind::Procedure,
                line,
                place,
                free: self.free,
                high_water: self.high_water,
                number: self.number,
                ..NOTHING
            },
        );
        self.number = len(self.bytes, tables, NUMBERED);
    }

    // The head of a procedure was taken.
    pub(crate) fn body_begins(&mut self, tables: &mut Tables)
        requires ready { StateInvariant self.old (tables_model tables.old) }
        ensures { PreservesState self.old (tables_model tables.old) self.new (tables_model tables.new) }
    {
        let top = self.top(tables);
        let function = self.is_function(tables, top.place);
        let words = top
            .count
            .saturating_mul(FORMAL_WORDS)
            .saturating_add(function);
        let room = words.saturating_add(PROCEDURE_HEADER);
        let label = self.new_label();
        self.jump(tables, label, top.line);
        self.mark(tables, top.place);
        self.level = self.level.saturating_add(1);
        self.open_room(tables, Operation::Proc, self.level, room, top.line);
        self.word(tables, words, top.line);
        self.change(tables, StackEntry { label, ..top });
        self.free = room;
        self.high_water = room;
        self.push(
            tables,
            StackEntry {
                what: EntryKind::Body,
                ..NOTHING
            },
        );
    }

    // 1 where the procedure has a value, and else 0.
    fn is_function(&self, tables: &Tables, number: u64) -> u64
        requires ready { StateInvariant self.now (tables_model tables.now) }
    {
        match self.kind_numbered(tables, number) {
            Kind::IntegerProcedure | Kind::BooleanProcedure => 1,
            _ => 0,
        }
    }

    pub(crate) fn procedure_ends(&mut self, tables: &mut Tables)
        requires ready { StateInvariant self.old (tables_model tables.old) }
        ensures { PreservesState self.old (tables_model tables.old) self.new (tables_model tables.new) }
    {
        let top = self.top(tables);
        self.pop(tables);
        let function = self.is_function(tables, top.place);
        self.order(tables, Operation::Return, 0, function, top.line);
        self.need(tables, self.free);
        self.mark(tables, top.label);
        self.free = top.free;
        self.high_water = top.high_water;
        self.number = top.number;
        self.level = self.level.saturating_sub(1);
    }
}
