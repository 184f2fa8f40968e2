// Subscripts and actuals: they are counted, compared with what the identifier wants, and written without their brackets and commas.
ghost use Rattle.std.specs.Prelude.{◌≡◌};
ghost use Rattle.gier_symbol.specs.Symbols.{IsSymbol};
ghost use Rattle.gier_text.specs.TablesModel.{tables_model};

use crate::actuals::{Fit, is_free, value_fits};
use crate::kind::{Kind, is_procedure};
use crate::open::{EntryKind, Location, StackEntry, short};
use crate::places::{Context, Name, PendingName};
use crate::state::State;
use crate::types::ValueType;
use crate::uses::{
    ANY, element_type, formals_of, function_type, may_be_called, standard_formal, subscripts_of,
};
use gier_symbol::{Symbol, Tag};
use gier_text::{FaultKind, Tables};

/// The most subscripts or pairs of bounds.
pub(crate) const MOST_SUBSCRIPTS: u64 = 30;

/// The most actuals or formals.
pub(crate) const MOST_ACTUALS: u64 = 255;

// How many entries the identifier and its bracket take.
const LIST_ENTRIES: u32 = 3;

// The entries of a list below its bracket.
const WANTED: u32 = 1;

const OWNER: u32 = 2;

impl State {
    ghost use Rattle.gier_pass6.specs.StateInvariants.{StateInvariant, PreservesState};

    // A `[`.
    pub(crate) fn left_bracket(&mut self, tables: &mut Tables, s: Symbol)
        requires ready { StateInvariant self.old (tables_model tables.old) }
        requires symbol { IsSymbol s }
        ensures { PreservesState self.old (tables_model tables.old) self.new (tables_model tables.new) }
    {
        if let PendingName::Name(name) = self.held {
            self.held = PendingName::Nothing;
            self.subscripts_begin(tables, name, s);
            return;
        }
        self.held = PendingName::Nothing;
        self.write(tables, s);
    }

    fn subscripts_begin(&mut self, tables: &mut Tables, name: Name, s: Symbol)
        requires ready { StateInvariant self.old (tables_model tables.old) }
        requires symbol { IsSymbol s }
        ensures { PreservesState self.old (tables_model tables.old) self.new (tables_model tables.new) }
    {
        let value = element_type(name.kind);
        if value == ValueType::Unknown {
            self.raise(tables, FaultKind::Kind, name.spot);
        }
        let what = match name.at {
            Context::Statement | Context::LeftPart => EntryKind::LeftElement,
            _ => EntryKind::Element,
        };
        let wanted = subscripts_of(name.kind, name.count);
        self.open_one(tables, what, value.number(), name.spot);
        self.open_one(tables, EntryKind::Wanted, wanted, name.spot);
        self.open_one(tables, EntryKind::Bracket, 0, self.here(s));
    }

    // A `(`.
    pub(crate) fn left_parenthesis(&mut self, tables: &mut Tables, s: Symbol)
        requires ready { StateInvariant self.old (tables_model tables.old) }
        requires symbol { IsSymbol s }
        ensures { PreservesState self.old (tables_model tables.old) self.new (tables_model tables.new) }
    {
        if let PendingName::Name(name) = self.held {
            self.held = PendingName::Nothing;
            self.call_begins(tables, name, s);
            return;
        }
        self.held = PendingName::Nothing;
        self.open_one(tables, EntryKind::Parenthesis, 0, self.here(s));
        self.write(tables, s);
    }

    fn call_begins(&mut self, tables: &mut Tables, name: Name, s: Symbol)
        requires ready { StateInvariant self.old (tables_model tables.old) }
        requires symbol { IsSymbol s }
        ensures { PreservesState self.old (tables_model tables.old) self.new (tables_model tables.new) }
    {
        let mut kind = name.kind;
        if !may_be_called(kind, name.count, name.at == Context::Statement) {
            self.raise(tables, FaultKind::Kind, name.spot);
            kind = Kind::Undeclared;
        }
        let wanted = formals_of(name.kind, name.count);
        let callee = Location {
            position: short(name.number),
            line: name.spot.line,
        };
        self.open_one(tables, EntryKind::Callee, kind.number(), callee);
        self.open_one(tables, EntryKind::Wanted, wanted, name.spot);
        self.open_one(tables, EntryKind::Call, 0, self.here(s));
    }

    // Counts the subscript, actual or bound that begins, where the entry on the top counts such; gives its number.
    pub(crate) fn count_one(&mut self, tables: &mut Tables, counter: EntryKind, most: u64) -> u64
        requires ready { StateInvariant self.old (tables_model tables.old) }
        ensures { PreservesState self.old (tables_model tables.old) self.new (tables_model tables.new) }
    {
        let top = self.open_at(tables, 0);
        if top.what != counter {
            return 0;
        }
        let count = top.data.saturating_add(1);
        self.change(tables, 0, StackEntry { data: count, ..top });
        if count.saturating_sub(1) == most {
            self.raise(tables, FaultKind::ListTooLong, self.before());
        }
        count
    }

    // A subscript or actual that has ended doesn't fit. The fault stands at the symbol before it. At the opening bracket it waits
    // for the number, and where the list is too long, that is the fault there.
    pub(crate) fn misfit(&mut self, tables: &mut Tables, most: u64, kind: FaultKind, spot: Location)
        requires ready { StateInvariant self.old (tables_model tables.old) }
        ensures { PreservesState self.old (tables_model tables.old) self.new (tables_model tables.new) }
    {
        let count = self.open_at(tables, 0).data;
        if count == 1 {
            let wanted = self.open_at(tables, WANTED);
            self.change(
                tables,
                WANTED,
                StackEntry {
                    what: EntryKind::FaultyWanted,
                    ..wanted
                },
            );
        } else if count.saturating_sub(1) != most {
            self.raise(tables, kind, spot);
        }
    }

    // A `]`.
    pub(crate) fn right_bracket(&mut self, tables: &mut Tables, s: Symbol)
        requires ready { StateInvariant self.old (tables_model tables.old) }
        requires symbol { IsSymbol s }
        ensures { PreservesState self.old (tables_model tables.old) self.new (tables_model tables.new) }
    {
        self.finish(tables, 0);
        let bracket = self.open_at(tables, 0);
        if bracket.what != EntryKind::Bracket {
            self.write(tables, s);
            return;
        }
        let wanted = self.open_at(tables, WANTED);
        let owner = self.open_at(tables, OWNER);
        if is_wrong(wanted, bracket.data) {
            self.raise(tables, FaultKind::Subscripts, bracket.spot);
        }
        self.element_ends(owner);
        self.pop(tables, LIST_ENTRIES);
        self.give(tables, Tag::Subscripted, bracket.data, bracket.spot.line);
    }

    // An element of an array or switch has ended. Where a left part may stand, it is held.
    fn element_ends(&mut self, owner: StackEntry)
        ensures bytes { self.new.bytes ≡ self.old.bytes }
        ensures potential_left { self.new.potential_left ≡ self.old.potential_left }
    {
        self.value = ValueType::of(owner.data);
        if owner.what == EntryKind::LeftElement {
            self.held = PendingName::Element(self.value, owner.spot);
        }
    }

    // A `)`.
    pub(crate) fn right_parenthesis(&mut self, tables: &mut Tables, s: Symbol)
        requires ready { StateInvariant self.old (tables_model tables.old) }
        requires symbol { IsSymbol s }
        ensures { PreservesState self.old (tables_model tables.old) self.new (tables_model tables.new) }
    {
        self.finish(tables, 0);
        let top = self.open_at(tables, 0);
        if top.what == EntryKind::Call {
            self.call_ends(tables, top);
            return;
        }
        if top.what == EntryKind::Parenthesis {
            self.pop(tables, 1);
        }
        self.write(tables, s);
    }

    fn call_ends(&mut self, tables: &mut Tables, call: StackEntry)
        requires ready { StateInvariant self.old (tables_model tables.old) }
        ensures { PreservesState self.old (tables_model tables.old) self.new (tables_model tables.new) }
    {
        let wanted = self.open_at(tables, WANTED);
        let callee = self.open_at(tables, OWNER);
        if differs(wanted, call.data) {
            self.raise(tables, FaultKind::ParameterCount, call.spot);
        } else if wanted.what == EntryKind::FaultyWanted {
            self.raise(tables, FaultKind::Parameter, call.spot);
        }
        self.value = function_type(Kind::of(callee.data));
        self.pop(tables, LIST_ENTRIES);
        self.give(tables, Tag::Called, call.data, call.spot.line);
    }

    // A `,`: between subscripts and actuals it isn't written.
    pub(crate) fn comma(&mut self, tables: &mut Tables, s: Symbol)
        requires ready { StateInvariant self.old (tables_model tables.old) }
        requires symbol { IsSymbol s }
        ensures { PreservesState self.old (tables_model tables.old) self.new (tables_model tables.new) }
    {
        match self.open_at(tables, 0).what {
            EntryKind::Bracket | EntryKind::Call => {}
            _ => self.write(tables, s),
        }
    }

    // An actual that isn't an identifier alone has ended; whether it fits.
    pub(crate) fn actual_fits(&self, fit: Fit) -> bool {
        value_fits(fit, self.value)
    }

    // What the actual of this number is compared with, where the call is on the top; the first one is 1.
    pub(crate) fn fit_of(&self, tables: &Tables, count: u64) -> Fit
        requires ready { StateInvariant self.now (tables_model tables.now) }
    {
        let wanted = self.open_at(tables, WANTED);
        let callee = self.open_at(tables, OWNER);
        let kind = Kind::of(callee.data);
        if is_free(kind) {
            return Fit::Free;
        }
        if count == 0 || count > wanted.data || callee.what != EntryKind::Callee {
            return Fit::Anything;
        }
        if is_procedure(kind) {
            return Fit::of(
                self.formal_of(tables, u64::from(callee.spot.position), count)
                    .number(),
            );
        }
        Fit::of(standard_formal(kind).number())
    }
}

// Whether there must be another number.
fn differs(wanted: StackEntry, count: u64) -> bool {
    wanted.data != ANY && wanted.data != count
}

// Whether the number or the first of the subscripts is a fault.
fn is_wrong(wanted: StackEntry, count: u64) -> bool {
    differs(wanted, count) || wanted.what == EntryKind::FaultyWanted
}
