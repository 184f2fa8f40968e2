// Symbols move from one list of the pass to another.
ghost use Rattle.std.specs.Prelude.{◌≡◌, ◌≢◌, ◌<◌, ◌≤◌, ◌+◌, ◌*◌, ◌^◌, IfSome, length, min};
ghost use Rattle.gier_text.specs.Potential.{potential};
ghost use Rattle.gier_text.specs.TablesModel.{tables_model};
ghost use Rattle.gier_text.specs.Lists.{list_at};
ghost use Rattle.gier_text.specs.Outbox.{if_any, symbol_at};
ghost use Rattle.gier_pass4.specs.Lists.{HasLists, IsLetter, Copies, Moves, potential_stored, room_of};

use crate::lists::{ENTRIES, FORMALS, Lists, OUT, OWN_ENTRIES, OWNS};
use gier_symbol::Symbol;
use gier_text::{Tables, waiting_at};
use std::cmp;

impl Lists {
    // A symbol as it is to be written, where it stands among the entries behind a mark of this line.
    fn completed(self, s: Symbol, line: Option<u32>) -> Symbol
        requires letter { IsLetter self.bytes s }
        requires line { IfSome line (λ n. n < 2 ^ 24) }
        ensures letter { IsLetter self.bytes result }
        ensures tag { result.tag ≡ s.tag }
    {
        match line {
            Some(line) => Symbol {
                tag: s.tag,
                value: s.value,
                line,
            },
            None => s,
        }
    }

    // Puts what waits at this place of a list behind what waits in another.
    fn copy(self, tables: &mut Tables, from: u8, at: u32, to: u8, line: Option<u32>)
        requires lists { HasLists self.bytes (tables_model tables.old) }
        requires from { from < 5 }
        requires to { to < 5 }
        requires apart { from ≢ to }
        requires entry { at < (list_at (tables_model tables.old).lists from).count }
        requires room { potential_stored (tables_model tables.old) to + potential 4
            (if_any (symbol_at (list_at (tables_model tables.old).lists from) at)) ≤ room_of self.bytes to }
        requires line { IfSome line (λ n. n < 2 ^ 24) }
        ensures lists { HasLists self.bytes (tables_model tables.new) }
        ensures copies { Copies from to (potential 4 (if_any (symbol_at (list_at (tables_model tables.old).lists from) at)))
            (tables_model tables.old) (tables_model tables.new) }
    {
        match waiting_at(tables, from, at) {
            Some(symbol) => {
                let symbol = self.completed(symbol, line);
                self.put(tables, to, symbol);
            }
            None => {}
        }
    }

    // Moves what waits in a list from this place on behind what waits in another; entries get their line.
    fn shift(self, tables: &mut Tables, from: u8, base: u32, to: u8, line: Option<u32>)
        requires lists { HasLists self.bytes (tables_model tables.old) }
        requires from { from < 5 }
        requires to { to < 5 }
        requires apart { from ≢ to }
        requires base { base ≤ (list_at (tables_model tables.old).lists from).count }
        requires room { potential_stored (tables_model tables.old) from + potential_stored (tables_model tables.old) to
            ≤ room_of self.bytes to }
        requires line { IfSome line (λ n. n < 2 ^ 24) }
        ensures lists { HasLists self.bytes (tables_model tables.new) }
        ensures moves { Moves from to base (tables_model tables.old) (tables_model tables.new) }
    {
        for at in base..tables.len(from) {
            self.copy(tables, from, at, to, line);
        }
        tables.cut(from, base);
    }

    /// What waits to be written turns out to belong to an own declaration.
    pub(crate) fn keep_own(self, tables: &mut Tables)
        requires lists { HasLists self.bytes (tables_model tables.old) }
        requires room { potential_stored (tables_model tables.old) 0 + potential_stored (tables_model tables.old) 3
            ≤ 8 * self.bytes + 64 }
        ensures lists { HasLists self.bytes (tables_model tables.new) }
        ensures moves { Moves 0 3 0 (tables_model tables.old) (tables_model tables.new) }
        ensures entries { potential_stored (tables_model tables.new) 1 ≡ potential_stored (tables_model tables.old) 1 }
        ensures own_entries { potential_stored (tables_model tables.new) 2 ≡ potential_stored (tables_model tables.old) 2 }
        ensures formals { potential_stored (tables_model tables.new) 4 ≡ potential_stored (tables_model tables.old) 4 }
    {
        self.shift(tables, OUT, 0, OWNS, None);
    }

    /// The own declarations are to be written.
    pub(crate) fn give_owns(self, tables: &mut Tables)
        requires lists { HasLists self.bytes (tables_model tables.old) }
        requires room { potential_stored (tables_model tables.old) 3 + potential_stored (tables_model tables.old) 0
            ≤ 8 * self.bytes + 64 }
        ensures lists { HasLists self.bytes (tables_model tables.new) }
        ensures moves { Moves 3 0 0 (tables_model tables.old) (tables_model tables.new) }
        ensures entries { potential_stored (tables_model tables.new) 1 ≡ potential_stored (tables_model tables.old) 1 }
        ensures own_entries { potential_stored (tables_model tables.new) 2 ≡ potential_stored (tables_model tables.old) 2 }
        ensures formals { potential_stored (tables_model tables.new) 4 ≡ potential_stored (tables_model tables.old) 4 }
    {
        self.shift(tables, OWNS, 0, OUT, None);
    }

    /// The descriptions of formals belong to the entry of a procedure.
    pub(crate) fn give_formals(self, tables: &mut Tables)
        requires lists { HasLists self.bytes (tables_model tables.old) }
        requires room { potential_stored (tables_model tables.old) 4 + potential_stored (tables_model tables.old) 1
            ≤ 6 * self.bytes + 48 }
        ensures lists { HasLists self.bytes (tables_model tables.new) }
        ensures moves { Moves 4 1 0 (tables_model tables.old) (tables_model tables.new) }
        ensures out { potential_stored (tables_model tables.new) 0 ≡ potential_stored (tables_model tables.old) 0 }
        ensures own_entries { potential_stored (tables_model tables.new) 2 ≡ potential_stored (tables_model tables.old) 2 }
        ensures owns { potential_stored (tables_model tables.new) 3 ≡ potential_stored (tables_model tables.old) 3 }
    {
        self.shift(tables, FORMALS, 0, ENTRIES, None);
    }

    /// The entries from this one on are to be written, behind a mark of this line.
    pub(crate) fn give_entries(self, tables: &mut Tables, base: u32, line: u32)
        requires lists { HasLists self.bytes (tables_model tables.old) }
        requires room { potential_stored (tables_model tables.old) 1 + potential_stored (tables_model tables.old) 0
            ≤ 8 * self.bytes + 64 }
        requires line { line < 2 ^ 24 }
        ensures lists { HasLists self.bytes (tables_model tables.new) }
        ensures moves { Moves 1 0 (min base (list_at (tables_model tables.old).lists 1).count) (tables_model tables.old)
            (tables_model tables.new) }
        ensures own_entries { potential_stored (tables_model tables.new) 2 ≡ potential_stored (tables_model tables.old) 2 }
        ensures owns { potential_stored (tables_model tables.new) 3 ≡ potential_stored (tables_model tables.old) 3 }
        ensures formals { potential_stored (tables_model tables.new) 4 ≡ potential_stored (tables_model tables.old) 4 }
    {
        let count = tables.len(ENTRIES);
        self.shift(tables, ENTRIES, cmp::min(base, count), OUT, Some(line));
    }

    /// The entries of own quantities are to be written, behind a mark of this line.
    pub(crate) fn give_own_entries(self, tables: &mut Tables, line: u32)
        requires lists { HasLists self.bytes (tables_model tables.old) }
        requires room { potential_stored (tables_model tables.old) 2 + potential_stored (tables_model tables.old) 0
            ≤ 8 * self.bytes + 64 }
        requires line { line < 2 ^ 24 }
        ensures lists { HasLists self.bytes (tables_model tables.new) }
        ensures moves { Moves 2 0 0 (tables_model tables.old) (tables_model tables.new) }
        ensures entries { potential_stored (tables_model tables.new) 1 ≡ potential_stored (tables_model tables.old) 1 }
        ensures owns { potential_stored (tables_model tables.new) 3 ≡ potential_stored (tables_model tables.old) 3 }
        ensures formals { potential_stored (tables_model tables.new) 4 ≡ potential_stored (tables_model tables.old) 4 }
    {
        self.shift(tables, OWN_ENTRIES, 0, OUT, Some(line));
    }
}
