// Own declarations: they leave their place and wait for the head of the block around the program.
//
// Whether a declaration is an own one is known only at its first identifier, reading backward. What stands behind that is held back
// in the list of what is to be written.
ghost use Rattle.std.specs.Prelude.{◌≡◌, ◌<◌, ◌^◌, ◌+◌, IfSome};
ghost use Rattle.gier_symbol.specs.Tags.{number_of};
ghost use Rattle.gier_symbol.specs.declared.tag.Tag.TheVariants.{Declaring, OpenMark, ShutMark};
ghost use Rattle.gier_text.specs.Potential.{potential_of};
ghost use Rattle.gier_text.specs.TablesModel.{tables_model};
ghost use Rattle.gier_pass4.specs.Kinds.{owned_at, typed_at};
ghost use Rattle.gier_pass4.specs.Lists.{IsLetter};
ghost use Rattle.gier_pass4.specs.Invariant.{StateInvariant, IsName, PreservesState};

use crate::marks::ParseState;
use crate::pass::Pass4;
use gier_limits::FIRST_OWN_NAME;
use gier_symbol::{Symbol, Tag};
use gier_text::Tables;
use gier_tree::Construct;
use std::cmp;

/// How much of the block around the program is still to be written.
#[derive(Debug, Clone, Copy, PartialEq, Eq)]
pub(crate) enum Frame {
    /// Nothing: there is no such block, or all was written.
    Nothing,
    /// All of it; its end has this line.
    Whole(u32),
    /// Its beginning.
    Beginning,
}

/// Of an own declaration: the fresh identifier of the own quantity whose declaring place comes next, and the line of the type, or 0
/// where it wasn't read.
#[derive(Debug, Clone, Copy, PartialEq, Eq)]
pub(crate) struct OwnQuantity {
    pub(crate) fresh: u64,
    pub(crate) type_line: u32,
}

/// Whether a declaration is an own one.
#[derive(Debug, Clone, Copy, PartialEq, Eq)]
pub(crate) enum Owned {
    No,
    Unknown,
    Yes(OwnQuantity),
}

// Whether it is known of a declaration that it is an own one, where it begins at its end.
fn owned_at(frame: Frame, owned: Owned) -> Owned
    ensures { result ≡ owned_at frame owned }
{
    match (frame, owned) {
        (Frame::Beginning, Owned::No) => Owned::Unknown,
        _ => owned,
    }
}

// The same once a type with this line was read.
fn typed_at(owned: Owned, line: u32) -> Owned
    ensures { result ≡ typed_at owned line }
{
    match owned {
        Owned::Yes(own) => Owned::Yes(OwnQuantity {
            fresh: own.fresh,
            type_line: line,
        }),
        Owned::No | Owned::Unknown => owned,
    }
}

impl Pass4 {
    /// Puts a symbol where those of the declaration, or of the text, go.
    pub(crate) fn hand_on(&mut self, s: Symbol, tables: &mut Tables)
        requires ready { StateInvariant self.old (tables_model tables.old) (potential_of 4 s.tag) }
        requires letter { IsLetter self.old.lists.bytes s }
        ensures { PreservesState (potential_of 4 s.tag) self.old (tables_model tables.old) self.new (tables_model tables.new) }
    {
        match self.owned {
            Owned::Yes(_) => self.lists.put_own(tables, s),
            Owned::No | Owned::Unknown => self.lists.put_out(tables, s),
        }
    }

    /// A declaration of variables or a segment of arrays begins, at its end.
    pub(crate) fn begin_owned(&mut self)
        ensures { self.new ≡ record self.old { owned = owned_at self.old.frame self.old.owned } }
    {
        self.owned = owned_at(self.frame, self.owned);
    }

    /// The number of an own quantity, which stands behind its declaring place. With the first of a declaration it is known that the
    /// declaration is an own one: it goes to the block around the program, with a `;` behind it that has the line of this
    /// identifier.
    pub(crate) fn own_number(&mut self, s: Symbol, tables: &mut Tables)
        requires ready { StateInvariant self.old (tables_model tables.old) 1 }
        requires line { s.line < 2 ^ 24 }
        ensures { PreservesState 1 self.old (tables_model tables.old) self.new (tables_model tables.new) }
    {
        let fresh = FIRST_OWN_NAME + cmp::min(s.value, u64::from(self.lists.bytes));
        match self.owned {
            Owned::No => {}
            Owned::Unknown => {
                let semicolon = self.lists.plain(Tag::Semicolon, 0, s.line);
                self.lists.put_own(tables, semicolon);
                self.lists.keep_own(tables);
                self.owned = Owned::Yes(OwnQuantity {
                    fresh,
                    type_line: 0,
                });
            }
            Owned::Yes(own) => {
                self.owned = Owned::Yes(OwnQuantity {
                    fresh,
                    type_line: own.type_line,
                });
            }
        }
    }

    /// The type of a declaration was read: an own one keeps its line.
    pub(crate) fn note_type_line(&mut self, line: u32)
        ensures { self.new ≡ record self.old { owned = typed_at self.old.owned line } }
    {
        self.owned = typed_at(self.owned, line);
    }

    /// An own quantity in its declaring place; of an array the count of its subscripts is told.
    pub(crate) fn declare_own(
        &mut self,
        s: Symbol,
        fresh: u64,
        count: Option<u64>,
        tables: &mut Tables,
    )
        requires ready { StateInvariant self.old (tables_model tables.old) 6 }
        requires name { IsName self.old.lists.bytes s.value }
        requires line { s.line < 2 ^ 24 }
        requires fresh { IsName self.old.lists.bytes fresh }
        requires count { IfSome count (λ n. n < 2 ^ 40) }
        ensures { PreservesState 6 self.old (tables_model tables.old) self.new (tables_model tables.new) }
    {
        let lists = self.lists;
        lists.put_own(tables, lists.named(Tag::Declaring, fresh, s.line));
        if let Some(count) = count {
            lists.put_own_entry(tables, lists.plain(Tag::Count, count, 0));
        }
        lists.put_own_entry(tables, lists.plain(Tag::Description, 0, 0));
        lists.put_own_entry(tables, lists.named(Tag::Entry, fresh, 0));
        lists.put_entry(tables, lists.plain(Tag::OwnEntry, fresh, 0));
        lists.put_entry(tables, lists.named(Tag::Entry, s.value, 0));
    }

    /// `_own`, which is left out; with it an own declaration of arrays ends.
    pub(crate) fn own_word(&mut self, s: Symbol, tables: &mut Tables)
        requires ready { StateInvariant self.old (tables_model tables.old) 1 }
        requires letter { IsLetter self.old.lists.bytes s }
        requires potential { potential_of 4 s.tag ≡ 1 }
        ensures { PreservesState 1 self.old (tables_model tables.old) self.new (tables_model tables.new) }
    {
        match (self.owned, self.place) {
            (Owned::Yes(_), ParseState::TypeDeclaration(_)) => {}
            (Owned::Yes(_), _) => self.owned = Owned::No,
            (Owned::No | Owned::Unknown, _) => self.lists.put_out(tables, s),
        }
    }

    /// The mark before a declaration of variables. Before an own one it has the line of the type.
    pub(crate) fn end_type(&mut self, s: Symbol, tables: &mut Tables)
        requires ready { StateInvariant self.old (tables_model tables.old) 1 }
        requires letter { IsLetter self.old.lists.bytes s }
        requires potential { potential_of 4 s.tag ≡ 1 }
        ensures { PreservesState 1 self.old (tables_model tables.old) self.new (tables_model tables.new) }
    {
        match self.owned {
            Owned::Yes(own) => {
                let mark = self.lists.plain(Tag::OpenMark, s.value, own.type_line);
                self.lists.put_own(tables, mark);
            }
            Owned::No | Owned::Unknown => self.lists.put_out(tables, s),
        }
        self.owned = Owned::No;
    }

    /// Writes the end of the block around the program, where there is one, and the mark behind the program.
    pub(crate) fn end_program(&mut self, s: Symbol, tables: &mut Tables)
        requires ready { StateInvariant self.old (tables_model tables.old) 1 }
        requires letter { IsLetter self.old.lists.bytes s }
        requires potential { potential_of 4 s.tag ≡ 1 }
        ensures { PreservesState 1 self.old (tables_model tables.old) self.new (tables_model tables.new) }
    {
        let lists = self.lists;
        match self.frame {
            Frame::Whole(line) => {
                self.frame = Frame::Beginning;
                lists.put_out(tables, lists.plain(Tag::ShutMark, s.value, line));
                lists.put_out(
                    tables,
                    lists.plain(Tag::ShutMark, Construct::Block.number(), line),
                );
                lists.put_out(tables, lists.plain(Tag::End, 0, line));
            }
            Frame::Nothing | Frame::Beginning => lists.put_out(tables, s),
        }
    }

    /// Writes the own declarations and the beginning of the block, where there is one, the program's entries from `base` on, and
    /// the mark before the program.
    pub(crate) fn begin_program(&mut self, s: Symbol, base: u32, tables: &mut Tables)
        requires ready { StateInvariant self.old (tables_model tables.old) 1 }
        requires letter { IsLetter self.old.lists.bytes s }
        requires potential { potential_of 4 s.tag ≡ 1 }
        ensures { PreservesState 1 self.old (tables_model tables.old) self.new (tables_model tables.new) }
    {
        let lists = self.lists;
        let frame = self.frame;
        self.owned = Owned::No;
        self.frame = Frame::Nothing;
        if frame != Frame::Beginning {
            lists.give_entries(tables, base, s.line);
            lists.put_out(tables, s);
            return;
        }
        lists.give_owns(tables);
        lists.put_out(tables, lists.plain(Tag::Begin, 0, s.line));
        lists.give_entries(tables, base, s.line);
        lists.give_own_entries(tables, s.line);
        lists.put_out(
            tables,
            lists.plain(Tag::OpenMark, Construct::Block.number(), s.line),
        );
        lists.put_out(tables, s);
    }
}
