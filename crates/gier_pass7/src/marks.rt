// How the pass takes the marks around constructs.
ghost use Rattle.std.specs.Prelude.{◌≡◌};
ghost use Rattle.gier_text.specs.TablesModel.{tables_model};

use crate::open::EntryKind;
use crate::state::State;
use gier_symbol::Symbol;
use gier_text::Tables;
use gier_tree::Construct;

impl State {
    ghost use Rattle.gier_pass7.specs.StateInvariants.{StateInvariant, PreservesState};

    pub(crate) fn open_mark(&mut self, tables: &mut Tables, s: Symbol)
        requires ready { StateInvariant self.old (tables_model tables.old) }
        ensures { PreservesState self.old (tables_model tables.old) self.new (tables_model tables.new) }
    {
        if let Some(construct) = Construct::of(s.value) {
            self.construct_begins(tables, construct, s.line);
        }
        self.full = false;
    }

    fn construct_begins(&mut self, tables: &mut Tables, construct: Construct, line: u32)
        requires ready { StateInvariant self.old (tables_model tables.old) }
        ensures { PreservesState self.old (tables_model tables.old) self.new (tables_model tables.new) }
    {
        match construct {
            Construct::Program => self.open_plain(tables, EntryKind::Program),
            Construct::Block => {
                self.program_begins(tables, line);
                self.block_begins(tables, line);
            }
            Construct::Compound => {
                self.program_begins(tables, line);
                self.open_plain(tables, EntryKind::Compound);
            }
            Construct::ForStatement => self.for_begins(tables),
            Construct::ConditionalStatement => self.conditional_begins(tables),
            Construct::GoTo => self.goto_begins(tables, line),
            Construct::ControlledStatement => self.controlled_begins(tables),
            _ => self.part_begins(tables, construct, line),
        }
    }

    // A declaration, or a part of a statement.
    fn part_begins(&mut self, tables: &mut Tables, construct: Construct, line: u32)
        requires ready { StateInvariant self.old (tables_model tables.old) }
        ensures { PreservesState self.old (tables_model tables.old) self.new (tables_model tables.new) }
    {
        match construct {
            Construct::TypeDeclaration => self.open_plain(tables, EntryKind::TypeDeclaration),
            Construct::ArraySegment => self.segment_begins(tables, line),
            Construct::SwitchDeclaration => self.switch_begins(tables, line),
            Construct::ProcedureDeclaration => self.procedure_begins(tables, line),
            Construct::ProcedureBody => self.body_begins(tables),
            Construct::SwitchElement => self.switch_element_begins(tables, line),
            Construct::ForElement => self.element_begins(tables, line),
            Construct::Actual => self.actual_begins(tables, line),
            Construct::ConditionalExpression => {
                self.operand_begins(tables);
                self.conditional_begins(tables);
            }
            _ => {}
        }
    }

    pub(crate) fn shut_mark(&mut self, tables: &mut Tables, s: Symbol)
        requires ready { StateInvariant self.old (tables_model tables.old) }
        ensures { PreservesState self.old (tables_model tables.old) self.new (tables_model tables.new) }
    {
        self.statement_ends(tables);
        self.full = false;
        if let Some(construct) = Construct::of(s.value) {
            self.construct_ends(tables, construct);
        }
    }

    fn construct_ends(&mut self, tables: &mut Tables, construct: Construct)
        requires ready { StateInvariant self.old (tables_model tables.old) }
        ensures { PreservesState self.old (tables_model tables.old) self.new (tables_model tables.new) }
    {
        match construct {
            Construct::Program => self.program_ends(tables),
            Construct::Block => self.block_ends(tables),
            Construct::Compound | Construct::TypeDeclaration => self.pop(tables),
            Construct::ProcedureBody => self.pop(tables),
            Construct::ForStatement => self.for_ends(tables),
            Construct::ControlledStatement => self.controlled_ends(tables),
            Construct::ConditionalStatement => self.conditional_ends(tables),
            Construct::GoTo => self.goto_ends(tables),
            _ => self.part_ends(tables, construct),
        }
    }

    fn part_ends(&mut self, tables: &mut Tables, construct: Construct)
        requires ready { StateInvariant self.old (tables_model tables.old) }
        ensures { PreservesState self.old (tables_model tables.old) self.new (tables_model tables.new) }
    {
        match construct {
            Construct::ArraySegment => self.segment_ends(tables),
            Construct::SwitchDeclaration => self.switch_ends(tables),
            Construct::ProcedureDeclaration => self.procedure_ends(tables),
            Construct::SwitchElement => self.switch_element_ends(tables),
            Construct::ForElement => self.element_ends(tables),
            Construct::Bound => self.bound_ends(tables),
            Construct::Subscript => self.subscript_ends(tables),
            Construct::ConditionalExpression => {
                self.conditional_ends(tables);
                self.full = true;
            }
            _ => {}
        }
    }
}
