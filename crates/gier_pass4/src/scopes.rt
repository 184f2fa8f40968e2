// The scopes that are open, and what is declared in them.
ghost use Rattle.std.specs.Prelude.{◌≡◌, ◌<◌, ◌≤◌, ◌^◌, ◌+◌, ◌*◌, ◌/◌, IfSome};
ghost use Rattle.gier_text.specs.Potential.{potential_of};
ghost use Rattle.gier_text.specs.TablesModel.{tables_model};
ghost use Rattle.gier_pass4.specs.Lists.{HasLists, IsLetter, Grows, potential_stored};
ghost use Rattle.gier_pass4.specs.Invariant.{StateInvariant, IsName, PreservesState};

use crate::lists::{ENTRIES, Lists, SCOPES};
use crate::marks::ParseState;
use crate::owns::Owned;
use crate::pass::Pass4;
use gier_symbol::{Symbol, Tag};
use gier_text::Tables;
use gier_tree::Kind;
use std::cmp;

impl Lists {
    /// A scope begins, at its end. Where there is no room for it, it is passed over.
    pub(crate) fn begin_scope(self, tables: &mut Tables)
        requires { HasLists self.bytes (tables_model tables.old) }
        ensures lists { HasLists self.bytes (tables_model tables.new) }
        ensures grows { Grows (tables_model tables.old) (tables_model tables.new) 0 0 0 0 0 }
    {
        if tables.len(SCOPES) >= self.most_scopes() {
            return;
        }
        let base = tables.len(ENTRIES);
        tables.push(SCOPES, &[u64::from(base)]);
    }

    /// The innermost scope ends, at its beginning; gives the number of entries that there were before it.
    pub(crate) fn end_scope(self, tables: &mut Tables) -> u32
        requires { HasLists self.bytes (tables_model tables.old) }
        ensures lists { HasLists self.bytes (tables_model tables.new) }
        ensures grows { Grows (tables_model tables.old) (tables_model tables.new) 0 0 0 0 0 }
    {
        let count = tables.len(SCOPES);
        if count == 0 {
            return tables.len(ENTRIES);
        }
        let base = cmp::min(tables.word(SCOPES, count - 1, 0), u64::from(u32::MAX));
        tables.cut(SCOPES, count - 1);
        base as u32
    }

    /// Puts an entry with a kind's number into the innermost scope.
    pub(crate) fn declare(self, tables: &mut Tables, name: u64, kind: u64)
        requires lists { HasLists self.bytes (tables_model tables.old) }
        requires room { potential_stored (tables_model tables.old) 1 + 2 ≤ 6 * self.bytes + 48 }
        requires name { IsName self.bytes name }
        requires kind { kind < 2 ^ 40 }
        ensures lists { HasLists self.bytes (tables_model tables.new) }
        ensures grows { Grows (tables_model tables.old) (tables_model tables.new) 0 2 0 0 0 }
    {
        self.put_entry(tables, self.plain(Tag::Description, kind, 0));
        self.put_entry(tables, self.named(Tag::Entry, name, 0));
    }
}

/// How many subscripts the arrays have of whose segment so many bounds were read.
pub(crate) fn dimensions(bounds: u32) -> u64
    ensures value { result ≡ bounds / 2 }
    ensures small { result < 2 ^ 40 }
{
    u64::from(bounds / 2)
}

impl Pass4 {
    // A variable or an array, whose kind isn't known yet; of an array the count of its subscripts is told.
    fn declare_typed(&mut self, s: Symbol, count: Option<u64>, tables: &mut Tables)
        requires ready { StateInvariant self.old (tables_model tables.old) 6 }
        requires letter { IsLetter self.old.lists.bytes s }
        requires potential { potential_of 4 s.tag ≡ 1 }
        requires name { IsName self.old.lists.bytes s.value }
        requires count { IfSome count (λ n. n < 2 ^ 40) }
        ensures { PreservesState 6 self.old (tables_model tables.old) self.new (tables_model tables.new) }
    {
        let lists = self.lists;
        if let Owned::Yes(own) = self.owned {
            self.declare_own(s, own.fresh, count, tables);
            return;
        }
        self.owned = Owned::No;
        lists.put_out(tables, s);
        if let Some(count) = count {
            lists.put_entry(tables, lists.plain(Tag::Count, count, 0));
        }
        lists.declare(tables, s.value, 0);
    }

    // The identifier of the procedure whose heading is being read.
    fn declare_procedure(&mut self, s: Symbol, kind: Kind, tables: &mut Tables)
        requires ready { StateInvariant self.old (tables_model tables.old) 6 }
        requires letter { IsLetter self.old.lists.bytes s }
        requires potential { potential_of 4 s.tag ≡ 1 }
        requires name { IsName self.old.lists.bytes s.value }
        ensures { PreservesState 6 self.old (tables_model tables.old) self.new (tables_model tables.new) }
    {
        self.lists.put_out(tables, s);
        self.place = ParseState::Heading(kind, Some(s.value));
    }

    /// An identifier in a declaring place.
    pub(crate) fn declaring(&mut self, s: Symbol, tables: &mut Tables)
        requires ready { StateInvariant self.old (tables_model tables.old) 6 }
        requires letter { IsLetter self.old.lists.bytes s }
        requires potential { potential_of 4 s.tag ≡ 1 }
        requires name { IsName self.old.lists.bytes s.value }
        ensures { PreservesState 6 self.old (tables_model tables.old) self.new (tables_model tables.new) }
    {
        let lists = self.lists;
        match self.place {
            ParseState::TypeDeclaration(_) => self.declare_typed(s, None, tables),
            ParseState::Segment(_, bounds) => {
                self.declare_typed(s, Some(dimensions(bounds)), tables);
            }
            ParseState::SwitchDeclaration => {
                lists.put_out(tables, s);
                lists.declare(tables, s.value, Kind::Switch.number());
            }
            ParseState::Heading(kind, _) => self.declare_procedure(s, kind, tables),
            ParseState::Segments(_) => lists.put_out(tables, s),
            ParseState::Statements => {
                lists.put_out(tables, s);
                lists.declare(tables, s.value, Kind::Label.number());
            }
        }
    }
}
