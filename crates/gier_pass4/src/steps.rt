// What the pass does with each symbol. What it does with own quantities and scopes stands in other files.
ghost use Rattle.std.specs.Prelude.{◌≡◌, ◌≢◌, ◌<◌, ◌≤◌, ◌^◌, ◌+◌, IsTrue};
ghost use Rattle.gier_symbol.specs.Symbols.{IsSymbol};
ghost use Rattle.gier_symbol.specs.Tags.{number_of};
ghost use Rattle.gier_symbol.specs.Texts.{stands_in};
ghost use Rattle.gier_text.specs.Potential.{is_numbered, potential_of};
ghost use Rattle.gier_text.specs.TablesModel.{tables_model};
ghost use Rattle.gier_pass4.specs.Kinds.{procedure_of};
ghost use Rattle.gier_pass4.specs.Lists.{HasLists, IsLetter};
ghost use Rattle.gier_pass4.specs.Invariant.{StateInvariant, IsName, PreservesState};

use crate::kinds::{array_kind, variable_kind};
use crate::marks::ParseState;
use crate::owns::Frame;
use crate::pass::Pass4;
use gier_symbol::{Symbol, Tag};
use gier_text::Tables;
use gier_tree::Construct;

// The place behind one more bound of a segment.
fn next_bound(place: ParseState) -> ParseState
    ensures { procedure_of result ≡ procedure_of place }
{
    match place {
        ParseState::Segment(untyped, bounds) => {
            ParseState::Segment(untyped, bounds.saturating_add(1))
        }
        _ => place,
    }
}

// The place before a segment.
fn before_segment(place: ParseState) -> ParseState
    ensures { procedure_of result ≡ procedure_of place }
{
    match place {
        ParseState::Segment(untyped, _) => ParseState::Segments(untyped),
        _ => place,
    }
}

impl Pass4 {
    /// Takes a symbol, and puts what is to be written then into the list of that.
    pub(crate) fn step(&mut self, s: Symbol, tables: &mut Tables)
        requires ready { StateInvariant self.old (tables_model tables.old) (potential_of 3 s.tag) }
        requires symbol { IsSymbol s }
        requires letter { IsTrue (stands_in 3 s.tag) }
        requires numbered { IsTrue (is_numbered 3 self.old.lists.bytes s) }
        ensures { PreservesState (potential_of 3 s.tag) self.old (tables_model tables.old) self.new (tables_model tables.new) }
    {
        match Tag::of(s.tag) {
            Some(Tag::OwnNumber) => self.own_number(s, tables),
            Some(Tag::TextEnd) => self.text_end(s, tables),
            Some(Tag::Declaring) => self.declaring(s, tables),
            Some(Tag::Formal) => self.formal(s, tables),
            Some(kind) => self.other(s, kind, tables),
            None => {}
        }
    }

    // Any symbol that is handed on, though it may change what the pass knows.
    fn other(&mut self, s: Symbol, kind: Tag, tables: &mut Tables)
        requires ready { StateInvariant self.old (tables_model tables.old) (potential_of 4 s.tag) }
        requires letter { IsLetter self.old.lists.bytes s }
        requires kind { number_of kind ≡ s.tag }
        ensures { PreservesState (potential_of 4 s.tag) self.old (tables_model tables.old) self.new (tables_model tables.new) }
    {
        match kind {
            Tag::ShutMark => self.shut(s, tables),
            Tag::OpenMark => self.opened(s, tables),
            Tag::Own => self.own_word(s, tables),
            _ => {
                self.note(s, kind, tables);
                self.hand_on(s, tables);
            }
        }
    }

    // The end of the text, which is read first; its value tells whether there are own quantities.
    fn text_end(&mut self, s: Symbol, tables: &mut Tables)
        requires ready { StateInvariant self.old (tables_model tables.old) 5 }
        requires line { s.line < 2 ^ 24 }
        ensures { PreservesState 5 self.old (tables_model tables.old) self.new (tables_model tables.new) }
    {
        self.frame = if s.value == 0 {
            Frame::Nothing
        } else {
            Frame::Whole(s.line)
        };
        let end = self.lists.plain(Tag::TextEnd, 0, s.line);
        self.lists.put_out(tables, end);
    }

    // What the symbol tells of kinds.
    fn note(&mut self, s: Symbol, kind: Tag, tables: &mut Tables)
        requires ready { StateInvariant self.old (tables_model tables.old) (potential_of 4 s.tag) }
        requires line { s.line < 2 ^ 24 }
        ensures ready { StateInvariant self.new (tables_model tables.new) (potential_of 4 s.tag) }
        ensures works { PreservesState 0 self.old (tables_model tables.old) self.new (tables_model tables.new) }
    {
        match kind {
            Tag::Semicolon | Tag::ValueListed | Tag::Specified => {
                self.note_heading(s, kind, tables);
            }
            Tag::Integer | Tag::Boolean => self.note_type(s, kind, tables),
            Tag::Array | Tag::Switch | Tag::Procedure | Tag::String | Tag::Label => self.say(kind),
            _ => {}
        }
    }

    // A type: the entries of the declaration get their kind.
    fn note_type(&mut self, s: Symbol, word: Tag, tables: &mut Tables)
        requires ready { StateInvariant self.old (tables_model tables.old) (potential_of 4 s.tag) }
        requires line { s.line < 2 ^ 24 }
        ensures ready { StateInvariant self.new (tables_model tables.new) (potential_of 4 s.tag) }
        ensures works { PreservesState 0 self.old (tables_model tables.old) self.new (tables_model tables.new) }
    {
        let lists = self.lists;
        match self.place {
            ParseState::TypeDeclaration(untyped) => {
                lists.give_kind(tables, untyped, variable_kind(word));
                self.note_type_line(s.line);
                self.place = ParseState::TypeDeclaration(lists.untyped(tables));
            }
            ParseState::Segments(untyped) => {
                lists.give_kind(tables, untyped, array_kind(word));
                self.note_type_line(s.line);
                self.place = ParseState::Statements;
            }
            _ => self.say(word),
        }
    }

    // The mark behind a construct.
    fn shut(&mut self, s: Symbol, tables: &mut Tables)
        requires ready { StateInvariant self.old (tables_model tables.old) 1 }
        requires letter { IsLetter self.old.lists.bytes s }
        requires potential { potential_of 4 s.tag ≡ 1 }
        ensures { PreservesState 1 self.old (tables_model tables.old) self.new (tables_model tables.new) }
    {
        match Construct::of(s.value) {
            Some(Construct::Program) => {
                self.place = ParseState::Statements;
                self.lists.begin_scope(tables);
                self.end_program(s, tables);
            }
            Some(
                Construct::Block | Construct::ProcedureDeclaration | Construct::ControlledStatement,
            ) => {
                self.place = ParseState::Statements;
                self.lists.begin_scope(tables);
                self.hand_on(s, tables);
            }
            Some(construct) => {
                self.begin_declaration(construct, tables);
                self.hand_on(s, tables);
            }
            None => self.hand_on(s, tables),
        }
    }

    // The mark behind a part of a declaration.
    fn begin_declaration(&mut self, construct: Construct, tables: &Tables)
        requires ready { StateInvariant self.old (tables_model tables.now) 1 }
        ensures ready { StateInvariant self.new (tables_model tables.now) 1 }
        ensures works { PreservesState 0 self.old (tables_model tables.now) self.new (tables_model tables.now) }
    {
        match construct {
            Construct::TypeDeclaration => {
                self.place = ParseState::TypeDeclaration(self.lists.untyped(tables));
                self.begin_owned();
            }
            Construct::ArraySegment => {
                self.place = self.segment(tables);
                self.begin_owned();
            }
            Construct::SwitchDeclaration => self.place = ParseState::SwitchDeclaration,
            Construct::Bound => self.place = next_bound(self.place),
            _ => {}
        }
    }

    // The place within a segment; all segments of a declaration wait for their type together.
    fn segment(&self, tables: &Tables) -> ParseState
        requires { HasLists self.now.lists.bytes (tables_model tables.now) }
        ensures { procedure_of result ≡ None }
    {
        match self.place {
            ParseState::Segments(untyped) => ParseState::Segment(untyped, 0),
            _ => ParseState::Segment(self.lists.untyped(tables), 0),
        }
    }

    // The mark before a construct.
    fn opened(&mut self, s: Symbol, tables: &mut Tables)
        requires ready { StateInvariant self.old (tables_model tables.old) 1 }
        requires letter { IsLetter self.old.lists.bytes s }
        requires potential { potential_of 4 s.tag ≡ 1 }
        ensures { PreservesState 1 self.old (tables_model tables.old) self.new (tables_model tables.new) }
    {
        match Construct::of(s.value) {
            Some(Construct::Program) => {
                self.place = ParseState::Statements;
                let base = self.lists.end_scope(tables);
                self.begin_program(s, base, tables);
            }
            Some(Construct::Block | Construct::ControlledStatement) => {
                self.place = ParseState::Statements;
                self.end_of_scope(s, tables);
            }
            Some(Construct::ProcedureDeclaration) => {
                self.end_of_scope(s, tables);
                self.end_heading(tables);
            }
            Some(Construct::ProcedureBody) => {
                self.begin_heading(tables);
                self.hand_on(s, tables);
            }
            Some(Construct::TypeDeclaration) => {
                self.place = ParseState::Statements;
                self.end_type(s, tables);
            }
            Some(Construct::ArraySegment) => {
                self.place = before_segment(self.place);
                self.hand_on(s, tables);
            }
            Some(Construct::SwitchDeclaration) => {
                self.place = ParseState::Statements;
                self.hand_on(s, tables);
            }
            _ => self.hand_on(s, tables),
        }
    }

    // Writes the entries of the innermost scope, and the mark before it.
    fn end_of_scope(&mut self, s: Symbol, tables: &mut Tables)
        requires ready { StateInvariant self.old (tables_model tables.old) 1 }
        requires letter { IsLetter self.old.lists.bytes s }
        requires potential { potential_of 4 s.tag ≡ 1 }
        ensures { PreservesState 1 self.old (tables_model tables.old) self.new (tables_model tables.new) }
    {
        let base = self.lists.end_scope(tables);
        self.lists.give_entries(tables, base, s.line);
        self.lists.put_out(tables, s);
    }
}
