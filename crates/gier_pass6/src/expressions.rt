// Operators: each waits until its right operand has ended, and is written behind it.
ghost use Rattle.gier_symbol.specs.Symbols.{IsSymbol};
ghost use Rattle.gier_text.specs.TablesModel.{tables_model};

use crate::open::{EntryKind, STACK, StackEntry};
use crate::state::State;
use crate::types::operator;
use gier_symbol::{Symbol, Tag};
use gier_text::{FaultKind, Tables};

fn tag_of(number: u64) -> Option<Tag> {
    if number < 256 {
        Tag::of(number as u16)
    } else {
        None
    }
}

// Whether the entry is an operator that binds at least as strongly as this level.
fn binds(top: StackEntry, level: u8) -> bool {
    match top.what {
        EntryKind::Operator | EntryKind::FaultyOperator => operator(tag_of(top.data)).level
            >= level,
        _ => false,
    }
}

impl State {
    ghost use Rattle.gier_pass6.specs.StateInvariants.{StateInvariant, PreservesState};

    // Ends the operator that waits on the top.
    fn operate(&mut self, tables: &mut Tables, top: StackEntry)
        requires ready { StateInvariant self.old (tables_model tables.old) }
        ensures { PreservesState self.old (tables_model tables.old) self.new (tables_model tables.new) }
    {
        let row = operator(tag_of(top.data));
        if top.what == EntryKind::Operator && !self.value.fits(row.takes) {
            self.raise(tables, FaultKind::Operand, top.spot);
        }
        self.value = row.gives;
        self.pop(tables, 1);
        self.give(tables, Tag::Operation, top.data, top.spot.line);
    }

    // Ends the operators that bind at least as strongly as this level.
    pub(crate) fn finish(&mut self, tables: &mut Tables, level: u8)
        requires ready { StateInvariant self.old (tables_model tables.old) }
        ensures { PreservesState self.old (tables_model tables.old) self.new (tables_model tables.new) }
    {
        for _turn in 0..tables.len(STACK) {
            let top = self.open_at(tables, 0);
            if !binds(top, level) {
                return;
            }
            self.operate(tables, top);
        }
    }

    // An operator between two operands.
    pub(crate) fn infix(&mut self, tables: &mut Tables, tag: Tag, s: Symbol)
        requires ready { StateInvariant self.old (tables_model tables.old) }
        requires symbol { IsSymbol s }
        ensures { PreservesState self.old (tables_model tables.old) self.new (tables_model tables.new) }
    {
        let row = operator(Some(tag));
        self.finish(tables, row.level);
        let spot = self.here(s);
        if self.value.fits(row.takes) {
            self.open_one(tables, EntryKind::Operator, u64::from(tag.number()), spot);
            return;
        }
        self.raise(tables, FaultKind::Operand, spot);
        self.open_one(
            tables,
            EntryKind::FaultyOperator,
            u64::from(tag.number()),
            spot,
        );
    }

    // An operator before its only operand.
    pub(crate) fn prefix(&mut self, tables: &mut Tables, tag: Tag, s: Symbol)
        requires ready { StateInvariant self.old (tables_model tables.old) }
        requires symbol { IsSymbol s }
        ensures { PreservesState self.old (tables_model tables.old) self.new (tables_model tables.new) }
    {
        let spot = self.here(s);
        self.open_one(tables, EntryKind::Operator, u64::from(tag.number()), spot);
    }
}
