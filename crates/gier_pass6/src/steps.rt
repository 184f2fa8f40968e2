// How the pass takes each symbol.
ghost use Rattle.gier_symbol.specs.Symbols.{IsSymbol};
ghost use Rattle.gier_text.specs.TablesModel.{tables_model};

use crate::kind::{Kind, is_value};
use crate::lists::MOST_ACTUALS;
use crate::places::behind;
use crate::state::State;
use crate::types::ValueType;
use gier_symbol::{Symbol, Tag};
use gier_text::{FaultKind, Tables};

impl State {
    ghost use Rattle.gier_pass6.specs.StateInvariants.{StateInvariant, PreservesState};

    fn take_one(&mut self, tables: &mut Tables, tag: Tag, s: Symbol)
        requires ready { StateInvariant self.old (tables_model tables.old) }
        requires symbol { IsSymbol s }
        ensures { PreservesState self.old (tables_model tables.old) self.new (tables_model tables.new) }
    {
        match tag {
            Tag::Place => {
                self.hold_place(s);
                self.write(tables, s);
            }
            Tag::Count => {
                self.hold_count(s);
                self.write(tables, s);
            }
            Tag::LeftBracket => self.left_bracket(tables, s),
            Tag::LeftParenthesis => self.left_parenthesis(tables, s),
            Tag::Becomes => self.becomes(tables, s),
            Tag::ShutMark => self.shut_mark(tables, s),
            _ => {
                self.settle(tables);
                self.take_other(tables, tag, s);
            }
        }
    }

    // A symbol behind which no identifier is held, unless it is one.
    fn take_other(&mut self, tables: &mut Tables, tag: Tag, s: Symbol)
        requires ready { StateInvariant self.old (tables_model tables.old) }
        requires symbol { IsSymbol s }
        ensures { PreservesState self.old (tables_model tables.old) self.new (tables_model tables.new) }
    {
        match tag {
            Tag::OpenMark => self.open_mark(tables, s),
            Tag::Not | Tag::LeadingPlus | Tag::LeadingMinus => self.prefix(tables, tag, s),
            Tag::Plus | Tag::Minus | Tag::Times | Tag::Div | Tag::Power => self.infix(
                tables, tag, s,
            ),
            Tag::Less
            | Tag::NotGreater
            | Tag::Equal
            | Tag::NotLess
            | Tag::Greater
            | Tag::NotEqual => self.infix(tables, tag, s),
            Tag::And | Tag::Or | Tag::Impl | Tag::Equiv => self.infix(tables, tag, s),
            Tag::Comma => self.comma(tables, s),
            Tag::RightParenthesis => self.right_parenthesis(tables, s),
            Tag::RightBracket => self.right_bracket(tables, s),
            Tag::If | Tag::Goto => self.begin_word(tables, s),
            Tag::Then => self.then(tables, s),
            Tag::Else => self.otherwise(tables, s),
            Tag::Step | Tag::Until | Tag::While => self.element_word(tables, tag, s),
            Tag::Semicolon | Tag::End | Tag::Do | Tag::TextEnd => self.end_word(tables, s),
            _ => {
                self.note(tables, tag, s);
                self.write(tables, s);
            }
        }
    }

    // A symbol that is written as it is.
    fn note(&mut self, tables: &mut Tables, tag: Tag, s: Symbol)
        requires ready { StateInvariant self.old (tables_model tables.old) }
        requires symbol { IsSymbol s }
        ensures { PreservesState self.old (tables_model tables.old) self.new (tables_model tables.new) }
    {
        match tag {
            Tag::Used => self.hold(s),
            Tag::Number => self.value = ValueType::Integer,
            Tag::True | Tag::False => self.value = ValueType::Boolean,
            Tag::StringEnd => self.value = ValueType::Text,
            Tag::Entry => self.entry = Some(s.value),
            Tag::Description => self.describe(tables, s),
            Tag::Formal => self.count_formal(tables),
            Tag::ValueListed => {
                if !is_value(self.kind_of(tables, s.value)) {
                    self.raise(tables, FaultKind::Value, self.here(s));
                }
            }
            _ => {}
        }
    }

    // The description of an entry or of a formal of the procedure that was entered.
    fn describe(&mut self, tables: &mut Tables, s: Symbol)
        requires ready { StateInvariant self.old (tables_model tables.old) }
        requires symbol { IsSymbol s }
        ensures { PreservesState self.old (tables_model tables.old) self.new (tables_model tables.new) }
    {
        match self.entry {
            Some(name) => self.enter(tables, name, Kind::of(s.value)),
            None => self.add_formal(tables, Kind::of(s.value)),
        }
        self.entry = None;
    }

    // A formal in the head of a procedure.
    fn count_formal(&mut self, tables: &mut Tables)
        requires ready { StateInvariant self.old (tables_model tables.old) }
        ensures { PreservesState self.old (tables_model tables.old) self.new (tables_model tables.new) }
    {
        self.formals = self.formals.saturating_add(1);
        if u64::from(self.formals) == MOST_ACTUALS + 1 {
            self.raise(tables, FaultKind::ListTooLong, self.before());
        }
    }

    // Takes a symbol.
    pub(crate) fn step(&mut self, tables: &mut Tables, s: Symbol)
        requires ready { StateInvariant self.old (tables_model tables.old) }
        requires symbol { IsSymbol s }
        ensures { PreservesState self.old (tables_model tables.old) self.new (tables_model tables.new) }
    {
        if let Some(tag) = Tag::of(s.tag) {
            self.take_one(tables, tag, s);
            let top = self.open_at(tables, 0);
            self.at = behind(self.at, tag, s.value, top);
        }
        self.line = s.line;
        self.read = self.read.saturating_add(1);
    }
}
