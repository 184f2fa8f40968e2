// The marks of constructs: what is noted where one begins, and what is tested where one ends.
ghost use Rattle.gier_symbol.specs.Symbols.{IsSymbol};
ghost use Rattle.gier_text.specs.TablesModel.{tables_model};

use crate::actuals::Fit;
use crate::heads::NO_NUMBER;
use crate::lists::{MOST_ACTUALS, MOST_SUBSCRIPTS};
use crate::open::{EntryKind, StackEntry};
use crate::places::{Context, Name, PendingName, SWITCH_MARK, construct};
use crate::state::State;
use crate::types::{ValueType, joined};
use gier_symbol::Symbol;
use gier_text::{FaultKind, Tables};

impl State {
    ghost use Rattle.gier_pass6.specs.StateInvariants.{StateInvariant, PreservesState};

    // Takes the number of the switch or procedure whose declaration begins in the block on the top.
    fn next_declared(&self, tables: &mut Tables) -> u64
        requires ready { StateInvariant self.now (tables_model tables.old) }
        ensures { PreservesState self.now (tables_model tables.old) self.now (tables_model tables.new) }
    {
        let top = self.open_at(tables, 0);
        if top.what != EntryKind::Block {
            return NO_NUMBER;
        }
        self.change(
            tables,
            0,
            StackEntry {
                data: top.data.saturating_add(1),
                ..top
            },
        );
        top.data
    }

    pub(crate) fn open_mark(&mut self, tables: &mut Tables, s: Symbol)
        requires ready { StateInvariant self.old (tables_model tables.old) }
        requires symbol { IsSymbol s }
        ensures { PreservesState self.old (tables_model tables.old) self.new (tables_model tables.new) }
    {
        let what = construct(s.value);
        let data = self.noted(tables, what, s);
        self.open_one(tables, what, data, self.before());
        self.write(tables, s);
    }

    // What is noted where the construct begins.
    fn noted(&mut self, tables: &mut Tables, what: EntryKind, s: Symbol) -> u64
        requires ready { StateInvariant self.old (tables_model tables.old) }
        requires symbol { IsSymbol s }
        ensures { PreservesState self.old (tables_model tables.old) self.new (tables_model tables.new) }
    {
        match what {
            EntryKind::Block => self.entered(tables),
            EntryKind::Procedure => {
                self.formals = 0;
                let number = self.next_declared(tables);
                self.set_open(tables, number, true);
                number
            }
            EntryKind::Plain if s.value == SWITCH_MARK => self.next_declared(tables),
            EntryKind::Subscript => self.count_one(tables, EntryKind::Bracket, MOST_SUBSCRIPTS),
            EntryKind::Bound => self.count_one(tables, EntryKind::Segment, 2 * MOST_SUBSCRIPTS),
            EntryKind::Actual => {
                let count = self.count_one(tables, EntryKind::Call, MOST_ACTUALS);
                self.fit_of(tables, count).number()
            }
            _ => 0,
        }
    }

    pub(crate) fn shut_mark(&mut self, tables: &mut Tables, s: Symbol)
        requires ready { StateInvariant self.old (tables_model tables.old) }
        requires symbol { IsSymbol s }
        ensures { PreservesState self.old (tables_model tables.old) self.new (tables_model tables.new) }
    {
        let what = construct(s.value);
        let top = self.open_at(tables, 0);
        if let PendingName::Name(name) = self.held {
            if what == EntryKind::Actual
                && top.what == EntryKind::Actual
                && name.at == Context::Actual
            {
                self.held = PendingName::Nothing;
                self.close_alone(tables, name, top);
                self.write(tables, s);
                return;
            }
        }
        self.settle(tables);
        self.finish(tables, 0);
        self.assignment_ends(tables);
        let top = self.open_at(tables, 0);
        if top.what == what
            || (what == EntryKind::ForElement && top.what == EntryKind::WhileElement)
        {
            self.pop(tables, 1);
            self.close(tables, top);
        }
        self.write(tables, s);
    }

    // An actual that is an identifier alone ends.
    fn close_alone(&mut self, tables: &mut Tables, name: Name, top: StackEntry)
        requires ready { StateInvariant self.old (tables_model tables.old) }
        ensures { PreservesState self.old (tables_model tables.old) self.new (tables_model tables.new) }
    {
        let fits = self.actual_alone(tables, name, Fit::of(top.data));
        self.pop(tables, 1);
        if !fits {
            self.misfit(tables, MOST_ACTUALS, FaultKind::Parameter, top.spot);
        }
    }

    // A construct ends that isn't on the stack any more.
    fn close(&mut self, tables: &mut Tables, top: StackEntry)
        requires ready { StateInvariant self.old (tables_model tables.old) }
        ensures { PreservesState self.old (tables_model tables.old) self.new (tables_model tables.new) }
    {
        match top.what {
            EntryKind::Actual => {
                if !self.actual_fits(Fit::of(top.data)) {
                    self.misfit(tables, MOST_ACTUALS, FaultKind::Parameter, top.spot);
                }
            }
            EntryKind::Subscript => {
                if !self.value.fits(ValueType::Integer) {
                    self.misfit(tables, MOST_SUBSCRIPTS, FaultKind::Subscripts, top.spot);
                }
            }
            EntryKind::Bound => self.close_bound(tables, top),
            EntryKind::Procedure => self.set_open(tables, top.data, false),
            EntryKind::SwitchElement | EntryKind::Goto => self.want(
                tables,
                ValueType::Label,
                FaultKind::Designational,
                top.spot,
            ),
            EntryKind::ForElement => self.want(
                tables,
                ValueType::Integer,
                FaultKind::ForElement,
                top.spot,
            ),
            EntryKind::WhileElement => self.want(
                tables,
                ValueType::Boolean,
                FaultKind::Condition,
                top.spot,
            ),
            EntryKind::Conditional => self.close_conditional(tables, top),
            _ => {}
        }
    }

    // Where the list is too long, that is the fault at the `,`.
    fn close_bound(&mut self, tables: &mut Tables, top: StackEntry)
        requires ready { StateInvariant self.old (tables_model tables.old) }
        ensures { PreservesState self.old (tables_model tables.old) self.new (tables_model tables.new) }
    {
        if top.data != 2 * MOST_SUBSCRIPTS + 1 {
            self.want(tables, ValueType::Integer, FaultKind::Bound, top.spot);
        }
    }

    fn close_conditional(&mut self, tables: &mut Tables, top: StackEntry)
        requires ready { StateInvariant self.old (tables_model tables.old) }
        ensures { PreservesState self.old (tables_model tables.old) self.new (tables_model tables.new) }
    {
        match joined(ValueType::of(top.data), self.value) {
            Some(value) => self.value = value,
            None => {
                self.value = ValueType::Unknown;
                self.raise(tables, FaultKind::Branches, top.spot);
            }
        }
    }
}
