// How the pass takes each symbol.
ghost use Rattle.std.specs.Prelude.{◌≡◌};
ghost use Rattle.gier_symbol.specs.Symbols.{IsSymbol};
ghost use Rattle.gier_text.specs.TablesModel.{tables_model};

use crate::kinds::kind_of;
use crate::lists::{RECORD, len, record, recorded};
use crate::names::{Name, PendingName, with_count, with_place};
use crate::open::EntryKind;
use crate::state::State;
use gier_symbol::{Symbol, Tag};
use gier_text::Tables;
use gier_tree::Construct;

// The symbol behind a step expression that is coded again; it stands for none of the text.
const NO_SYMBOL: Symbol = Symbol {
    tag: 0,
    value: 0,
    line: 0,
};

impl State {
    ghost use Rattle.gier_pass7.specs.StateInvariants.{StateInvariant, PreservesState};

    // Takes a symbol. A step expression is recorded, and taken again at the end of its element.
    pub(crate) fn step(&mut self, tables: &mut Tables, s: Symbol)
        requires ready { StateInvariant self.old (tables_model tables.old) }
        requires symbol { IsSymbol s }
        ensures { PreservesState self.old (tables_model tables.old) self.new (tables_model tables.new) }
    {
        let Some(tag) = Tag::of(s.tag) else {
            return;
        };
        if tag == Tag::Until {
            self.recording = false;
        }
        if self.recording {
            record(self.bytes, tables, s);
        }
        self.take_one(tables, tag, s);
        if self.top(tables).what == EntryKind::Again {
            self.take_again(tables);
        }
    }

    fn take_again(&mut self, tables: &mut Tables)
        requires ready { StateInvariant self.old (tables_model tables.old) }
        ensures { PreservesState self.old (tables_model tables.old) self.new (tables_model tables.new) }
    {
        for at in 0..len(self.bytes, tables, RECORD) {
            if let Some(s) = recorded(self.bytes, tables, at) {
                if let Some(tag) = Tag::of(s.tag) {
                    self.take_one(tables, tag, s);
                }
            }
        }
        self.settle(tables, Tag::ShutMark, NO_SYMBOL);
        self.again_ends(tables);
    }

    fn take_one(&mut self, tables: &mut Tables, tag: Tag, s: Symbol)
        requires ready { StateInvariant self.old (tables_model tables.old) }
        ensures { PreservesState self.old (tables_model tables.old) self.new (tables_model tables.new) }
    {
        match tag {
            Tag::Place => self.held = with_place(self.held, s),
            Tag::Count => self.count(s),
            Tag::ShutMark if s.value == Construct::Actual.number() => {
                self.actual_ends(tables);
                self.full = false;
            }
            Tag::Called if self.held == PendingName::Nothing => self.call_ends(tables),
            _ => {
                self.settle(tables, tag, s);
                self.take_other(tables, tag, s);
            }
        }
    }

    // The count of a used identifier, or of the array that was entered last.
    fn count(&mut self, s: Symbol)
        ensures { self.new.bytes ≡ self.old.bytes }
    {
        match self.held {
            PendingName::Nothing => self.dimensions(s.value),
            held => self.held = with_count(held, s),
        }
    }

    // A symbol behind which no identifier is held, unless it is one.
    fn take_other(&mut self, tables: &mut Tables, tag: Tag, s: Symbol)
        requires ready { StateInvariant self.old (tables_model tables.old) }
        ensures { PreservesState self.old (tables_model tables.old) self.new (tables_model tables.new) }
    {
        match tag {
            Tag::Used => {
                self.held = PendingName::Name(Name {
                    kind: kind_of(s.value),
                    place: 0,
                    count: 0,
                    line: s.line,
                });
            }
            Tag::Number => self.number(tables, s),
            Tag::True => self.logical(tables, true, s.line),
            Tag::False => self.logical(tables, false, s.line),
            Tag::Operation => self.operation(tables, s),
            Tag::Subscripted => self.subscripted(tables, s.value),
            Tag::RightParenthesis => self.full = true,
            Tag::StringBegin => self.string_begins(tables, s.line),
            Tag::StringByte => self.string_byte(tables, s.value),
            Tag::StringEnd => self.string_ends(tables),
            Tag::Called => {}
            Tag::OpenMark => self.open_mark(tables, s),
            Tag::ShutMark => self.shut_mark(tables, s),
            _ => self.take_word(tables, tag, s),
        }
    }

    // A symbol that isn't a part of an expression or a mark, but for `(`.
    fn take_word(&mut self, tables: &mut Tables, tag: Tag, s: Symbol)
        requires ready { StateInvariant self.old (tables_model tables.old) }
        ensures { PreservesState self.old (tables_model tables.old) self.new (tables_model tables.new) }
    {
        if tag == Tag::LeftParenthesis {
            self.operand_begins(tables);
        }
        self.full = false;
        match tag {
            Tag::Begin => self.begin(tables),
            Tag::Semicolon | Tag::End => self.statement_ends(tables),
            Tag::If | Tag::For => self.begins_at(tables, s.line),
            Tag::Then => self.then(tables),
            Tag::Else => {
                self.statement_ends(tables);
                self.otherwise(tables);
            }
            Tag::Step => self.step_begins(tables),
            Tag::Until => self.until_begins(tables),
            Tag::While => self.while_begins(tables),
            _ => self.take_declaring(tables, tag, s),
        }
    }

    // A symbol of a declaration or an entry. All others leave no trace.
    fn take_declaring(&mut self, tables: &mut Tables, tag: Tag, s: Symbol)
        requires ready { StateInvariant self.old (tables_model tables.old) }
        ensures { PreservesState self.old (tables_model tables.old) self.new (tables_model tables.new) }
    {
        match tag {
            Tag::Declaring => self.declares(tables),
            Tag::Formal => {
                let top = self.top(tables);
                self.count_one(tables, top);
            }
            Tag::Entry => self.entry = true,
            Tag::Description => self.describe(tables, s.value),
            _ => {}
        }
    }
}
