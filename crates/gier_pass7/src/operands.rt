// Operands and operators: what is evaluated, and how a left operand is kept until its operator comes.
ghost use Rattle.std.specs.Prelude.{◌≡◌};
ghost use Rattle.gier_text.specs.TablesModel.{tables_model};

use crate::kinds::ValueType;
use crate::lists::{SPILLS, drop_last, len, push_word, word_at};
use crate::operations::{Operator, operator_of, result_type};
use crate::state::State;
use gier_limits::ADDRESSES;
use gier_order::Operation;
use gier_symbol::{Symbol, Tag};
use gier_text::Tables;
use std::cmp;

impl State {
    ghost use Rattle.gier_pass7.specs.StateInvariants.{StateInvariant, PreservesState};

    // Working places up to this one are used.
    pub(crate) fn touch(&mut self, end: u64)
        ensures { self.new.bytes ≡ self.old.bytes }
    {
        self.high_water = cmp::max(self.high_water, end);
    }

    pub(crate) fn keep(&mut self, tables: &mut Tables, at: u64, line: u32)
        requires ready { StateInvariant self.old (tables_model tables.old) }
        ensures { PreservesState self.old (tables_model tables.old) self.new (tables_model tables.new) }
    {
        self.touch(at.saturating_add(1));
        self.order(tables, Operation::Keep, 0, at, line);
    }

    // Keeps the value in the first free working place, which is then taken.
    pub(crate) fn keep_next(&mut self, tables: &mut Tables, line: u32)
        requires ready { StateInvariant self.old (tables_model tables.old) }
        ensures { PreservesState self.old (tables_model tables.old) self.new (tables_model tables.new) }
    {
        self.keep(tables, self.free, line);
        self.free = self.free.saturating_add(1);
        self.full = false;
    }

    // An operand begins. One before it is kept; the line of that is its operator's.
    pub(crate) fn operand_begins(&mut self, tables: &mut Tables)
        requires ready { StateInvariant self.old (tables_model tables.old) }
        ensures { PreservesState self.old (tables_model tables.old) self.new (tables_model tables.new) }
    {
        self.actual_opens(tables);
        if self.full {
            let at = self.place(tables);
            push_word(self.bytes, tables, SPILLS, at);
            self.hold();
            self.keep_next(tables, 0);
        }
    }

    // An operand was evaluated.
    pub(crate) fn operand_ends(&mut self, value: ValueType)
        ensures { self.new.bytes ≡ self.old.bytes }
    {
        self.full = true;
        self.value = value;
    }

    // An operator behind its operands.
    pub(crate) fn operation(&mut self, tables: &mut Tables, s: Symbol)
        requires ready { StateInvariant self.old (tables_model tables.old) }
        ensures { PreservesState self.old (tables_model tables.old) self.new (tables_model tables.new) }
    {
        let tag = Tag::of(cmp::min(s.value, u64::from(u16::MAX)) as u16);
        match operator_of(tag) {
            Operator::Binary(operation) => self.binary(tables, operation, s.line),
            Operator::Unary(operation) => self.plain(tables, operation, s.line),
            Operator::Nothing => {}
        }
        self.operand_ends(result_type(tag));
    }

    fn binary(&mut self, tables: &mut Tables, operation: Operation, line: u32)
        requires ready { StateInvariant self.old (tables_model tables.old) }
        ensures { PreservesState self.old (tables_model tables.old) self.new (tables_model tables.new) }
    {
        let last = len(self.bytes, tables, SPILLS).saturating_sub(1);
        let at = word_at(self.bytes, tables, SPILLS, last);
        drop_last(self.bytes, tables, SPILLS);
        self.set_line(tables, at, line);
        self.release();
        self.free = self.free.saturating_sub(1);
        self.order(tables, operation, 0, self.free, line);
    }

    pub(crate) fn number(&mut self, tables: &mut Tables, s: Symbol)
        requires ready { StateInvariant self.old (tables_model tables.old) }
        ensures { PreservesState self.old (tables_model tables.old) self.new (tables_model tables.new) }
    {
        self.operand_begins(tables);
        if s.value < ADDRESSES {
            self.order(tables, Operation::Short, 0, s.value, s.line);
        } else {
            self.plain(tables, Operation::Long, s.line);
            self.word(tables, s.value, s.line);
        }
        self.operand_ends(ValueType::Integer);
    }

    pub(crate) fn logical(&mut self, tables: &mut Tables, value: bool, line: u32)
        requires ready { StateInvariant self.old (tables_model tables.old) }
        ensures { PreservesState self.old (tables_model tables.old) self.new (tables_model tables.new) }
    {
        self.operand_begins(tables);
        self.order(tables, Operation::Short, 0, u64::from(value), line);
        self.operand_ends(ValueType::Boolean);
    }
}
