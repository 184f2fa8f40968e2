// Identifiers: their values, addresses and labels, and what the symbol behind a held one makes of it.
ghost use Rattle.std.specs.Prelude.{◌≡◌};
ghost use Rattle.gier_text.specs.TablesModel.{tables_model};

use crate::kinds::{is_array, is_name, is_procedure, value_type};
use crate::names::{Name, PendingName, address_in, level_in};
use crate::open::EntryKind;
use crate::state::State;
use gier_order::Operation;
use gier_symbol::{Symbol, Tag};
use gier_text::Tables;
use gier_tree::{Construct, Kind};

// The place of a function's value in its activation.
const FUNCTION_VALUE: u64 = 5;

impl State {
    ghost use Rattle.gier_pass7.specs.StateInvariants.{StateInvariant, PreservesState};

    // An order on the cell of an identifier.
    pub(crate) fn on_cell(
        &mut self,
        tables: &mut Tables,
        operation: Operation,
        place: u64,
        line: u32,
    )
        requires ready { StateInvariant self.old (tables_model tables.old) }
        ensures { PreservesState self.old (tables_model tables.old) self.new (tables_model tables.new) }
    {
        self.order(tables, operation, level_in(place), address_in(place), line);
    }

    // An order on the label, switch or procedure that has a number.
    pub(crate) fn on_number(
        &mut self,
        tables: &mut Tables,
        operation: Operation,
        place: u64,
        line: u32,
    )
        requires ready { StateInvariant self.old (tables_model tables.old) }
        ensures { PreservesState self.old (tables_model tables.old) self.new (tables_model tables.new) }
    {
        self.label_order(tables, operation, level_in(place), address_in(place), line);
    }

    // The address of a variable, a formal or a function's value.
    pub(crate) fn address_of(&mut self, tables: &mut Tables, kind: Kind, place: u64, line: u32)
        requires ready { StateInvariant self.old (tables_model tables.old) }
        ensures { PreservesState self.old (tables_model tables.old) self.new (tables_model tables.new) }
    {
        if is_name(kind) {
            self.on_cell(tables, Operation::Place, place, line);
        } else if is_procedure(kind) {
            let level = level_in(place).saturating_add(1);
            self.order(tables, Operation::Addr, level, FUNCTION_VALUE, line);
        } else {
            self.on_cell(tables, Operation::Addr, place, line);
        }
    }

    // The value of a variable or formal.
    pub(crate) fn value_of(&mut self, tables: &mut Tables, kind: Kind, place: u64, line: u32)
        requires ready { StateInvariant self.old (tables_model tables.old) }
        ensures { PreservesState self.old (tables_model tables.old) self.new (tables_model tables.new) }
    {
        if is_name(kind) {
            self.on_cell(tables, Operation::Value, place, line);
        } else {
            self.on_cell(tables, Operation::Take, place, line);
        }
    }

    // The word that stands for a whole array.
    pub(crate) fn array_of(&mut self, tables: &mut Tables, kind: Kind, place: u64, line: u32)
        requires ready { StateInvariant self.old (tables_model tables.old) }
        ensures { PreservesState self.old (tables_model tables.old) self.new (tables_model tables.new) }
    {
        if is_array(kind) {
            self.on_cell(tables, Operation::Addr, place, line);
        } else {
            self.on_cell(tables, Operation::Take, place, line);
        }
    }

    // An identifier alone as an operand, or as a designational expression.
    pub(crate) fn alone_in_expression(&mut self, tables: &mut Tables, name: Name)
        requires ready { StateInvariant self.old (tables_model tables.old) }
        ensures { PreservesState self.old (tables_model tables.old) self.new (tables_model tables.new) }
    {
        self.operand_begins(tables);
        match name.kind {
            Kind::Label => self.on_number(tables, Operation::Lab, name.place, name.line),
            Kind::LabelFormal => self.on_cell(tables, Operation::NameL, name.place, name.line),
            _ => self.value_of(tables, name.kind, name.place, name.line),
        }
        self.operand_ends(value_type(name.kind));
    }

    // What is held is an operand, unless the next symbol makes another use of it.
    pub(crate) fn settle(&mut self, tables: &mut Tables, tag: Tag, s: Symbol)
        requires ready { StateInvariant self.old (tables_model tables.old) }
        ensures { PreservesState self.old (tables_model tables.old) self.new (tables_model tables.new) }
    {
        let held = self.held;
        self.held = PendingName::Nothing;
        match held {
            PendingName::Name(name) => self.settle_name(tables, name, tag, s),
            PendingName::Element(line) => self.settle_element(tables, tag, line),
            PendingName::Nothing => {}
        }
    }

    fn settle_name(&mut self, tables: &mut Tables, name: Name, tag: Tag, s: Symbol)
        requires ready { StateInvariant self.old (tables_model tables.old) }
        ensures { PreservesState self.old (tables_model tables.old) self.new (tables_model tables.new) }
    {
        match tag {
            Tag::OpenMark if s.value == Construct::Subscript.number() => self.subscripts_begin(
                tables, name,
            ),
            Tag::OpenMark if s.value == Construct::Actual.number() => self.call_begins(
                tables, name,
            ),
            Tag::Called => self.call_alone(tables, name),
            Tag::Becomes => self.name_becomes(tables, name),
            _ => self.alone_in_expression(tables, name),
        }
    }

    fn settle_element(&mut self, tables: &mut Tables, tag: Tag, line: u32)
        requires ready { StateInvariant self.old (tables_model tables.old) }
        ensures { PreservesState self.old (tables_model tables.old) self.new (tables_model tables.new) }
    {
        match tag {
            Tag::Becomes => self.left_part(tables, line),
            _ => self.fetch(tables, line),
        }
    }

    // The value of the element whose place was found.
    pub(crate) fn fetch(&mut self, tables: &mut Tables, line: u32)
        requires ready { StateInvariant self.old (tables_model tables.old) }
        ensures { PreservesState self.old (tables_model tables.old) self.new (tables_model tables.new) }
    {
        self.plain(tables, Operation::Fetch, line);
        self.full = true;
    }

    // An identifier before `:=` is a left part or a controlled variable.
    fn name_becomes(&mut self, tables: &mut Tables, name: Name)
        requires ready { StateInvariant self.old (tables_model tables.old) }
        ensures { PreservesState self.old (tables_model tables.old) self.new (tables_model tables.new) }
    {
        let top = self.top(tables);
        if top.what == EntryKind::For {
            self.variable(tables, top, name);
            return;
        }
        self.address_of(tables, name.kind, name.place, name.line);
        self.left_part(tables, name.line);
    }
}
