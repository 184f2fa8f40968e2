// A used identifier: it is held until the symbol behind it tells how it is used.
ghost use Rattle.std.specs.Prelude.{◌≡◌};
ghost use Rattle.gier_symbol.specs.Symbols.{IsSymbol};
ghost use Rattle.gier_text.specs.TablesModel.{tables_model};

use crate::actuals::{Fit, Passed, name_fits};
use crate::kind::Kind;
use crate::open::{EntryKind, Location, StackEntry};
use crate::places::{Context, Name, PendingName};
use crate::state::State;
use crate::types::ValueType;
use crate::uses::{alone, function_type, may_be_controlled, may_be_statement, value_type};
use gier_limits::ADDRESSES;
use gier_symbol::{Symbol, Tag};
use gier_text::{FaultKind, Tables};

impl State {
    ghost use Rattle.gier_pass6.specs.StateInvariants.{StateInvariant, PreservesState};

    // The description of a used identifier.
    pub(crate) fn hold(&mut self, s: Symbol)
        ensures bytes { self.new.bytes ≡ self.old.bytes }
        ensures potential_left { self.new.potential_left ≡ self.old.potential_left }
    {
        self.held = PendingName::Name(Name {
            kind: Kind::of(s.value),
            number: 0,
            count: 0,
            spot: self.here(s),
            at: self.at,
        });
    }

    // Its place.
    pub(crate) fn hold_place(&mut self, s: Symbol)
        ensures bytes { self.new.bytes ≡ self.old.bytes }
        ensures potential_left { self.new.potential_left ≡ self.old.potential_left }
    {
        if let PendingName::Name(name) = self.held {
            self.held = PendingName::Name(Name {
                number: s.value % ADDRESSES,
                ..name
            });
        }
    }

    // Its number of dimensions or formals.
    pub(crate) fn hold_count(&mut self, s: Symbol)
        ensures bytes { self.new.bytes ≡ self.old.bytes }
        ensures potential_left { self.new.potential_left ≡ self.old.potential_left }
    {
        if let PendingName::Name(name) = self.held {
            self.held = PendingName::Name(Name {
                count: s.value,
                ..name
            });
        }
    }

    // Ends what is held as an identifier alone or as an operand.
    pub(crate) fn settle(&mut self, tables: &mut Tables)
        requires ready { StateInvariant self.old (tables_model tables.old) }
        ensures { PreservesState self.old (tables_model tables.old) self.new (tables_model tables.new) }
    {
        let held = self.held;
        self.held = PendingName::Nothing;
        if let PendingName::Name(name) = held {
            if name.at == Context::Statement {
                self.call_alone(tables, name);
            } else {
                self.operand_alone(tables, name);
            }
        }
    }

    fn call_alone(&mut self, tables: &mut Tables, name: Name)
        requires ready { StateInvariant self.old (tables_model tables.old) }
        ensures { PreservesState self.old (tables_model tables.old) self.new (tables_model tables.new) }
    {
        if !may_be_statement(name.kind, name.count) {
            self.raise(tables, FaultKind::Kind, name.spot);
        }
        self.give(tables, Tag::Called, 0, name.spot.line);
    }

    fn operand_alone(&mut self, tables: &mut Tables, name: Name)
        requires ready { StateInvariant self.old (tables_model tables.old) }
        ensures { PreservesState self.old (tables_model tables.old) self.new (tables_model tables.new) }
    {
        let is = alone(name.kind, name.count);
        self.value = is.value;
        if is.value == ValueType::Unknown {
            self.raise(tables, FaultKind::Kind, name.spot);
        }
        if is.call {
            self.give(tables, Tag::Called, 0, name.spot.line);
        }
    }

    // An actual that is the identifier alone; whether it fits.
    pub(crate) fn actual_alone(&mut self, tables: &mut Tables, name: Name, fit: Fit) -> bool
        requires ready { StateInvariant self.old (tables_model tables.old) }
        ensures { PreservesState self.old (tables_model tables.old) self.new (tables_model tables.new) }
    {
        match name_fits(fit, name.kind, name.count) {
            Passed::Fits => true,
            Passed::Differs => false,
            Passed::Calls => {
                self.give(tables, Tag::Called, 0, name.spot.line);
                true
            }
        }
    }

    // A `:=`.
    pub(crate) fn becomes(&mut self, tables: &mut Tables, s: Symbol)
        requires ready { StateInvariant self.old (tables_model tables.old) }
        requires symbol { IsSymbol s }
        ensures { PreservesState self.old (tables_model tables.old) self.new (tables_model tables.new) }
    {
        let held = self.held;
        self.held = PendingName::Nothing;
        match held {
            PendingName::Nothing => {}
            PendingName::Name(name) => self.name_becomes(tables, name, s),
            PendingName::Element(value, spot) => self.element_becomes(tables, value, spot, s),
        }
        self.write(tables, s);
    }

    fn name_becomes(&mut self, tables: &mut Tables, name: Name, s: Symbol)
        requires ready { StateInvariant self.old (tables_model tables.old) }
        requires symbol { IsSymbol s }
        ensures { PreservesState self.old (tables_model tables.old) self.new (tables_model tables.new) }
    {
        if name.at == Context::Variable {
            if !may_be_controlled(name.kind) {
                self.raise(tables, FaultKind::Kind, name.spot);
            }
            return;
        }
        let value = self.left_type(tables, name);
        if value == ValueType::Unknown {
            self.raise(tables, FaultKind::Kind, name.spot);
        }
        self.open_one(tables, EntryKind::LeftPart, value.number(), self.here(s));
    }

    fn element_becomes(&mut self, tables: &mut Tables, value: ValueType, spot: Location, s: Symbol)
        requires ready { StateInvariant self.old (tables_model tables.old) }
        requires symbol { IsSymbol s }
        ensures { PreservesState self.old (tables_model tables.old) self.new (tables_model tables.new) }
    {
        if value == ValueType::Label {
            self.raise(tables, FaultKind::Kind, spot);
            self.open_one(
                tables,
                EntryKind::LeftPart,
                ValueType::Unknown.number(),
                self.here(s),
            );
            return;
        }
        self.open_one(tables, EntryKind::LeftPart, value.number(), self.here(s));
    }

    // The type of an identifier alone as a left part: a variable, or a function within its own declaration.
    fn left_type(&self, tables: &Tables, name: Name) -> ValueType
        requires ready { StateInvariant self.now (tables_model tables.now) }
    {
        match name.kind {
            Kind::IntegerProcedure | Kind::BooleanProcedure => {
                if self.is_open(tables, name.number) {
                    function_type(name.kind)
                } else {
                    ValueType::Unknown
                }
            }
            _ => value_type(name.kind),
        }
    }
}
