// Headings of procedures: their formals get the kinds of the specifications behind them, which were read before.
ghost use Rattle.std.specs.Prelude.{◌≡◌, ◌<◌};
ghost use Rattle.gier_text.specs.Potential.{potential_of};
ghost use Rattle.gier_text.specs.TablesModel.{tables_model};
ghost use Rattle.gier_pass4.specs.Lists.{IsLetter};
ghost use Rattle.gier_pass4.specs.Invariant.{StateInvariant, IsName, PreservesState};
ghost use Rattle.gier_pass4.specs.Kinds.{said_at};

use crate::kinds::{declared_by, specified};
use crate::marks::ParseState;
use crate::pass::Pass4;
use gier_symbol::{Symbol, Tag};
use gier_text::Tables;
use gier_tree::Kind;

// The place behind a word, where that is one of a specification.
fn said_at(place: ParseState, word: Tag) -> ParseState
    ensures { result ≡ said_at place word }
{
    match place {
        ParseState::Heading(kind, procedure) => {
            ParseState::Heading(specified(kind, word), procedure)
        }
        _ => place,
    }
}

impl Pass4 {
    /// A word of a specification tells the kind of its identifiers, which were read.
    pub(crate) fn say(&mut self, word: Tag)
        ensures { self.new ≡ record self.old { place = said_at self.old.place word } }
    {
        self.place = said_at(self.place, word);
    }

    /// What a symbol that names a formal, or ends a specification, tells of formals.
    pub(crate) fn note_heading(&mut self, s: Symbol, kind: Tag, tables: &mut Tables)
        requires ready { StateInvariant self.old (tables_model tables.old) (potential_of 4 s.tag) }
        ensures ready { StateInvariant self.new (tables_model tables.new) (potential_of 4 s.tag) }
        ensures works { PreservesState 0 self.old (tables_model tables.old) self.new (tables_model tables.new) }
    {
        let lists = self.lists;
        let heading = self.heading;
        if let ParseState::Heading(last, procedure) = self.place {
            match kind {
                Tag::ValueListed => lists.list_by_value(tables, s.value, heading),
                Tag::Specified => lists.specify(tables, s.value, heading),
                _ => {
                    lists.end_specification(tables, last);
                    self.place = ParseState::Heading(Kind::Undeclared, procedure);
                }
            }
        }
    }

    /// An identifier in a formal list.
    pub(crate) fn formal(&mut self, s: Symbol, tables: &mut Tables)
        requires ready { StateInvariant self.old (tables_model tables.old) 4 }
        requires letter { IsLetter self.old.lists.bytes s }
        requires potential { potential_of 4 s.tag ≡ 1 }
        requires name { IsName self.old.lists.bytes s.value }
        ensures { PreservesState 4 self.old (tables_model tables.old) self.new (tables_model tables.new) }
    {
        match self.place {
            ParseState::Heading(last, _) => self.declare_formal(s, last, tables),
            _ => self.hand_on(s, tables),
        }
    }

    // A formal, where the words of the specification that is being read gave the last kind.
    fn declare_formal(&mut self, s: Symbol, last: Kind, tables: &mut Tables)
        requires ready { StateInvariant self.old (tables_model tables.old) 4 }
        requires letter { IsLetter self.old.lists.bytes s }
        requires potential { potential_of 4 s.tag ≡ 1 }
        requires name { IsName self.old.lists.bytes s.value }
        ensures { PreservesState 4 self.old (tables_model tables.old) self.new (tables_model tables.new) }
    {
        let lists = self.lists;
        let kind = lists.kind_of_formal(tables, s.value, self.heading, last);
        lists.put_out(tables, s);
        lists.put_formal(tables, lists.plain(Tag::Description, kind.number(), 0));
        lists.declare(tables, s.value, kind.number());
    }

    /// The body of a procedure begins, and its heading, at its end.
    pub(crate) fn begin_heading(&mut self, tables: &mut Tables)
        requires ready { StateInvariant self.old (tables_model tables.old) 1 }
        ensures ready { StateInvariant self.new (tables_model tables.new) 1 }
        ensures works { PreservesState 0 self.old (tables_model tables.old) self.new (tables_model tables.new) }
    {
        self.lists.clear_specifications(tables);
        self.heading = self.heading.saturating_add(1);
        self.place = ParseState::Heading(Kind::Undeclared, None);
    }

    /// The heading of a procedure begins: the procedure is declared in the scope around it.
    pub(crate) fn end_heading(&mut self, tables: &mut Tables)
        requires ready { StateInvariant self.old (tables_model tables.old) 0 }
        ensures { PreservesState 0 self.old (tables_model tables.old) self.new (tables_model tables.new) }
    {
        let lists = self.lists;
        lists.give_formals(tables);
        if let ParseState::Heading(kind, Some(name)) = self.place {
            lists.declare(tables, name, declared_by(kind).number());
        }
        self.place = ParseState::Statements;
    }
}
