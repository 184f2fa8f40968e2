// The lists of the pass in the tables, and the symbols that are put into them. How symbols move between them isn't told here.
ghost use Rattle.std.specs.Prelude.{◌≡◌, ◌<◌, ◌≤◌, ◌+◌, ◌*◌, ◌^◌, IsTrue, false, length};
ghost use Rattle.gier_symbol.specs.Tags.{number_of};
ghost use Rattle.gier_symbol.specs.Texts.{stands_in};
ghost use Rattle.gier_text.specs.Potential.{is_name, is_number_in, potential_of};
ghost use Rattle.gier_text.specs.TablesModel.{tables_model, fresh};
ghost use Rattle.gier_pass4.specs.Lists.{HasLists, IsLetter, Adds, Grows, potential_stored, lists_when_opened, queues, room_of};

use crate::names;
use gier_limits::STANDARD_NAMES;
use gier_symbol::{Symbol, Tag};
use gier_text::{OUTBOX_WIDTH, Tables, put};

/// What is to be written. It waits longer than to the end of a step only while a declaration may still be an own one.
pub(crate) const OUT: u8 = 0;

/// The entries of the scopes that are open, as they are to be written: the last identifier's come first, and each entry stands
/// behind its description and count. Until the type of its declaration is read, a description has the value 0.
pub(crate) const ENTRIES: u8 = 1;

/// The entries of the own quantities, in the same form.
pub(crate) const OWN_ENTRIES: u8 = 2;

/// The own declarations.
pub(crate) const OWNS: u8 = 3;

/// The descriptions of the formals of the procedure whose heading is being read.
pub(crate) const FORMALS: u8 = 4;

/// For each scope that is open how many entries there were when it began.
pub(crate) const SCOPES: u8 = 5;

/// The kinds of the specifications of the heading that is being read, but for the one that is being read.
pub(crate) const SPECIFICATIONS: u8 = 6;

/// The rows of identifiers.
pub(crate) const ROWS: u8 = 7;

/// The lists for a program of so many bytes.
#[derive(Debug, Clone, Copy, PartialEq, Eq)]
pub(crate) struct Lists {
    pub(crate) bytes: u32,
}

impl Lists {
    /// Opens the lists.
    pub(crate) fn open(tables: &mut Tables, bytes: u32) -> Lists
        requires cleared { tables_model tables.old ≡ fresh (tables_model tables.old).limit }
        requires limit { (tables_model tables.old).limit ≤ 2 ^ 19 }
        requires bytes { bytes ≤ (tables_model tables.old).limit }
        ensures bytes { result.bytes ≡ bytes }
        ensures lists { HasLists bytes (tables_model tables.new) }
        ensures out { potential_stored (tables_model tables.new) 0 ≡ 0 }
        ensures entries { potential_stored (tables_model tables.new) 1 ≡ 0 }
        ensures own_entries { potential_stored (tables_model tables.new) 2 ≡ 0 }
        ensures owns { potential_stored (tables_model tables.new) 3 ≡ 0 }
        ensures formals { potential_stored (tables_model tables.new) 4 ≡ 0 }
        ensures faults { (tables_model tables.new).faults ≡ (tables_model tables.old).faults }
        ensures limit { (tables_model tables.new).limit ≡ (tables_model tables.old).limit }
    {
        let lists = Lists { bytes };
        lists.open_queues(tables);
        lists.open_tables(tables);
        names::fill(tables, lists.most_names());
        lists
    }

    // Opens the lists in which symbols wait.
    fn open_queues(self, tables: &mut Tables)
        requires cleared { tables_model tables.old ≡ fresh (tables_model tables.old).limit }
        requires limit { (tables_model tables.old).limit ≤ 2 ^ 19 }
        requires bytes { self.bytes ≤ (tables_model tables.old).limit }
        ensures lists { (tables_model tables.new).lists ≡ queues self.bytes }
        ensures used { (tables_model tables.new).used ≡ 56 * self.bytes + 448 }
        ensures faults { (tables_model tables.new).faults ≡ (tables_model tables.old).faults }
        ensures limit { (tables_model tables.new).limit ≡ (tables_model tables.old).limit }
    {
        tables.list(OUTBOX_WIDTH, 8 * self.bytes + 64);
        tables.list(OUTBOX_WIDTH, 6 * self.bytes + 48);
        tables.list(OUTBOX_WIDTH, 4 * self.bytes + 32);
        tables.list(OUTBOX_WIDTH, 8 * self.bytes + 64);
        tables.list(OUTBOX_WIDTH, 2 * self.bytes + 16);
    }

    // Opens the lists of scopes, specifications and rows.
    fn open_tables(self, tables: &mut Tables)
        requires lists { (tables_model tables.old).lists ≡ queues self.bytes }
        requires used { (tables_model tables.old).used ≡ 56 * self.bytes + 448 }
        requires limit { (tables_model tables.old).limit ≤ 2 ^ 19 }
        requires bytes { self.bytes ≤ (tables_model tables.old).limit }
        ensures lists { (tables_model tables.new).lists ≡ lists_when_opened self.bytes }
        ensures faults { (tables_model tables.new).faults ≡ (tables_model tables.old).faults }
        ensures limit { (tables_model tables.new).limit ≡ (tables_model tables.old).limit }
    {
        tables.list(1, self.most_scopes());
        tables.list(1, self.most_specifications());
        tables.list(3, self.most_names());
    }

    /// What a text weighs at most.
    pub(crate) fn most_weight(self) -> u32
        requires { self.bytes ≤ 524288 }
        ensures { result ≡ 8 * self.bytes + 64 }
    {
        8 * self.bytes + 64
    }

    /// How many scopes there are at most, one within the other.
    pub(crate) fn most_scopes(self) -> u32
        requires { self.bytes ≤ 524288 }
        ensures { result ≡ self.bytes + 2 }
    {
        self.bytes + 2
    }

    /// How many specifications of a heading there are at most.
    pub(crate) fn most_specifications(self) -> u32
        requires { self.bytes ≤ 524288 }
        ensures { result ≡ self.bytes + 2 }
    {
        self.bytes + 2
    }

    /// How many identifiers there are at most.
    pub(crate) fn most_names(self) -> u32
        requires { self.bytes ≤ 524288 }
        ensures { result ≡ self.bytes + 64 }
    {
        self.bytes + STANDARD_NAMES
    }

    /// A symbol whose value isn't the number of an identifier.
    pub(crate) fn plain(self, kind: Tag, value: u64, line: u32) -> Symbol
        requires letter { IsTrue (stands_in 4 (number_of kind)) }
        requires plain { is_name (number_of kind) ≡ false }
        requires value { value < 2 ^ 40 }
        requires line { line < 2 ^ 24 }
        ensures letter { IsLetter self.bytes result }
        ensures potential { potential_of 4 result.tag ≡ potential_of 4 (number_of kind) }
    {
        Symbol::new(kind, value, line)
    }

    /// A symbol whose value is the number of an identifier.
    pub(crate) fn named(self, kind: Tag, name: u64, line: u32) -> Symbol
        requires letter { IsTrue (stands_in 4 (number_of kind)) }
        requires small { name < 2 ^ 40 }
        requires name { IsTrue (is_number_in 4 self.bytes name) }
        requires line { line < 2 ^ 24 }
        ensures letter { IsLetter self.bytes result }
        ensures potential { potential_of 4 result.tag ≡ potential_of 4 (number_of kind) }
    {
        Symbol::new(kind, name, line)
    }

    /// Puts a symbol behind those that wait in one of the first five lists.
    pub(crate) fn put(self, tables: &mut Tables, list: u8, s: Symbol)
        requires lists { HasLists self.bytes (tables_model tables.old) }
        requires list { list < 5 }
        requires room { potential_stored (tables_model tables.old) list < room_of self.bytes list }
        requires letter { IsLetter self.bytes s }
        ensures lists { HasLists self.bytes (tables_model tables.new) }
        ensures adds { Adds list (potential_of 4 s.tag) (tables_model tables.old) (tables_model tables.new) }
    {
        put(tables, list, s);
    }

    /// Puts a symbol behind those that are to be written.
    pub(crate) fn put_out(self, tables: &mut Tables, s: Symbol)
        requires lists { HasLists self.bytes (tables_model tables.old) }
        requires room { potential_stored (tables_model tables.old) 0 < 8 * self.bytes + 64 }
        requires letter { IsLetter self.bytes s }
        ensures lists { HasLists self.bytes (tables_model tables.new) }
        ensures grows { Grows (tables_model tables.old) (tables_model tables.new) (potential_of 4 s.tag) 0 0 0 0 }
    {
        self.put(tables, OUT, s);
    }

    /// Puts a symbol behind the entries of the open scopes.
    pub(crate) fn put_entry(self, tables: &mut Tables, s: Symbol)
        requires lists { HasLists self.bytes (tables_model tables.old) }
        requires room { potential_stored (tables_model tables.old) 1 < 6 * self.bytes + 48 }
        requires letter { IsLetter self.bytes s }
        ensures lists { HasLists self.bytes (tables_model tables.new) }
        ensures grows { Grows (tables_model tables.old) (tables_model tables.new) 0 (potential_of 4 s.tag) 0 0 0 }
    {
        self.put(tables, ENTRIES, s);
    }

    /// Puts a symbol behind the entries of own quantities.
    pub(crate) fn put_own_entry(self, tables: &mut Tables, s: Symbol)
        requires lists { HasLists self.bytes (tables_model tables.old) }
        requires room { potential_stored (tables_model tables.old) 2 < 4 * self.bytes + 32 }
        requires letter { IsLetter self.bytes s }
        ensures lists { HasLists self.bytes (tables_model tables.new) }
        ensures grows { Grows (tables_model tables.old) (tables_model tables.new) 0 0 (potential_of 4 s.tag) 0 0 }
    {
        self.put(tables, OWN_ENTRIES, s);
    }

    /// Puts a symbol behind the own declarations.
    pub(crate) fn put_own(self, tables: &mut Tables, s: Symbol)
        requires lists { HasLists self.bytes (tables_model tables.old) }
        requires room { potential_stored (tables_model tables.old) 3 < 8 * self.bytes + 64 }
        requires letter { IsLetter self.bytes s }
        ensures lists { HasLists self.bytes (tables_model tables.new) }
        ensures grows { Grows (tables_model tables.old) (tables_model tables.new) 0 0 0 (potential_of 4 s.tag) 0 }
    {
        self.put(tables, OWNS, s);
    }

    /// Puts a symbol behind the descriptions of formals.
    pub(crate) fn put_formal(self, tables: &mut Tables, s: Symbol)
        requires lists { HasLists self.bytes (tables_model tables.old) }
        requires room { potential_stored (tables_model tables.old) 4 < 2 * self.bytes + 16 }
        requires letter { IsLetter self.bytes s }
        ensures lists { HasLists self.bytes (tables_model tables.new) }
        ensures grows { Grows (tables_model tables.old) (tables_model tables.new) 0 0 0 0 (potential_of 4 s.tag) }
    {
        self.put(tables, FORMALS, s);
    }
}
