// Assignments, and the words of statements and for elements.
ghost use Rattle.gier_symbol.specs.Symbols.{IsSymbol};
ghost use Rattle.gier_text.specs.TablesModel.{tables_model};

use crate::open::{EntryKind, Location, STACK, StackEntry};
use crate::state::State;
use crate::types::ValueType;
use gier_symbol::{Symbol, Tag};
use gier_text::{FaultKind, Tables};

impl State {
    ghost use Rattle.gier_pass6.specs.StateInvariants.{StateInvariant, PreservesState};

    // Ends the right side of an assignment, where there is one.
    pub(crate) fn assignment_ends(&self, tables: &mut Tables)
        requires ready { StateInvariant self.now (tables_model tables.old) }
        ensures { PreservesState self.now (tables_model tables.old) self.now (tables_model tables.new) }
    {
        for _turn in 0..tables.len(STACK) {
            let top = self.open_at(tables, 0);
            if top.what != EntryKind::LeftPart {
                return;
            }
            let left = ValueType::of(top.data);
            if left != ValueType::Unknown && !self.value.fits(left) {
                self.raise(tables, FaultKind::Assignment, top.spot);
            }
            self.pop(tables, 1);
        }
    }

    // Adds a fault where the value that ended isn't of the type.
    pub(crate) fn want(
        &self,
        tables: &mut Tables,
        value: ValueType,
        kind: FaultKind,
        spot: Location,
    )
        requires ready { StateInvariant self.now (tables_model tables.old) }
        ensures { PreservesState self.now (tables_model tables.old) self.now (tables_model tables.new) }
    {
        if !self.value.fits(value) {
            self.raise(tables, kind, spot);
        }
    }

    // The construct on the top has its place at this symbol.
    fn place_top(&self, tables: &mut Tables, s: Symbol)
        requires ready { StateInvariant self.now (tables_model tables.old) }
        requires symbol { IsSymbol s }
        ensures { PreservesState self.now (tables_model tables.old) self.now (tables_model tables.new) }
    {
        let top = self.open_at(tables, 0);
        self.change(
            tables,
            0,
            StackEntry {
                spot: self.here(s),
                ..top
            },
        );
    }

    // An `_if` or `_goto`.
    pub(crate) fn begin_word(&mut self, tables: &mut Tables, s: Symbol)
        requires ready { StateInvariant self.old (tables_model tables.old) }
        requires symbol { IsSymbol s }
        ensures { PreservesState self.old (tables_model tables.old) self.new (tables_model tables.new) }
    {
        match self.open_at(tables, 0).what {
            EntryKind::IfStatement | EntryKind::Conditional | EntryKind::Goto => self.place_top(
                tables, s,
            ),
            _ => {}
        }
        self.write(tables, s);
    }

    // A `_then`.
    pub(crate) fn then(&mut self, tables: &mut Tables, s: Symbol)
        requires ready { StateInvariant self.old (tables_model tables.old) }
        requires symbol { IsSymbol s }
        ensures { PreservesState self.old (tables_model tables.old) self.new (tables_model tables.new) }
    {
        self.finish(tables, 0);
        let top = self.open_at(tables, 0);
        match top.what {
            EntryKind::IfStatement | EntryKind::Conditional => self.want(
                tables,
                ValueType::Boolean,
                FaultKind::Condition,
                top.spot,
            ),
            _ => {}
        }
        self.write(tables, s);
    }

    // An `_else`.
    pub(crate) fn otherwise(&mut self, tables: &mut Tables, s: Symbol)
        requires ready { StateInvariant self.old (tables_model tables.old) }
        requires symbol { IsSymbol s }
        ensures { PreservesState self.old (tables_model tables.old) self.new (tables_model tables.new) }
    {
        self.finish(tables, 0);
        self.assignment_ends(tables);
        let top = self.open_at(tables, 0);
        if top.what == EntryKind::Conditional {
            self.change(
                tables,
                0,
                StackEntry {
                    data: self.value.number(),
                    spot: self.here(s),
                    ..top
                },
            );
        }
        self.write(tables, s);
    }

    // A `_step`, `_until` or `_while`.
    pub(crate) fn element_word(&mut self, tables: &mut Tables, tag: Tag, s: Symbol)
        requires ready { StateInvariant self.old (tables_model tables.old) }
        requires symbol { IsSymbol s }
        ensures { PreservesState self.old (tables_model tables.old) self.new (tables_model tables.new) }
    {
        self.finish(tables, 0);
        let top = self.open_at(tables, 0);
        if top.what == EntryKind::ForElement {
            self.want(tables, ValueType::Integer, FaultKind::ForElement, top.spot);
            let what = if tag == Tag::While {
                EntryKind::WhileElement
            } else {
                EntryKind::ForElement
            };
            self.change(
                tables,
                0,
                StackEntry {
                    what,
                    spot: self.here(s),
                    ..top
                },
            );
        }
        self.write(tables, s);
    }

    // A `;`, `_end`, `_do` or the end of the text.
    pub(crate) fn end_word(&mut self, tables: &mut Tables, s: Symbol)
        requires ready { StateInvariant self.old (tables_model tables.old) }
        requires symbol { IsSymbol s }
        ensures { PreservesState self.old (tables_model tables.old) self.new (tables_model tables.new) }
    {
        self.finish(tables, 0);
        self.assignment_ends(tables);
        self.write(tables, s);
    }
}
