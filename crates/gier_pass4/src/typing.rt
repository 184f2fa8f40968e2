// Entries of variables and arrays get their kind when the type of their declaration is read.
ghost use Rattle.std.specs.Prelude.{◌≡◌, ◌<◌, ◌^◌};
ghost use Rattle.gier_symbol.specs.Symbols.{IsSymbol};
ghost use Rattle.gier_text.specs.TablesModel.{tables_model};
ghost use Rattle.gier_text.specs.Lists.{list_at};
ghost use Rattle.gier_pass4.specs.Lists.{HasLists, Grows};

use crate::lists::{ENTRIES, Lists, OWN_ENTRIES};
use crate::marks::Untyped;
use gier_symbol::Tag;
use gier_text::{Tables, waiting_at};
use gier_tree::Kind;

// The part of a waiting symbol's code that is its value.
const VALUE: u8 = 1;

impl Lists {
    /// The entries that come now have no kind until the type of their declaration is read.
    pub(crate) fn untyped(self, tables: &Tables) -> Untyped
        requires { HasLists self.bytes (tables_model tables.now) }
    {
        Untyped {
            entries: tables.len(ENTRIES),
            own_entries: tables.len(OWN_ENTRIES),
        }
    }

    // Gives the kind to what waits at this place of a list, where that is a description.
    fn give_kind_at(self, tables: &mut Tables, list: u8, at: u32, kind: Kind)
        requires lists { HasLists self.bytes (tables_model tables.old) }
        requires list { list < 5 }
        requires entry { at < (list_at (tables_model tables.old).lists list).count }
        ensures lists { HasLists self.bytes (tables_model tables.new) }
        ensures grows { Grows (tables_model tables.old) (tables_model tables.new) 0 0 0 0 0 }
        ensures count { (list_at (tables_model tables.new).lists list).count
            ≡ (list_at (tables_model tables.old).lists list).count }
    {
        match waiting_at(tables, list, at) {
            Some(symbol) => {
                if symbol.tag == Tag::Description.number() {
                    tables.set_word(list, at, VALUE, kind.number());
                }
            }
            None => {}
        }
    }

    // Gives the kind to the descriptions that wait in a list from this place on.
    fn give_kind_from(self, tables: &mut Tables, list: u8, from: u32, kind: Kind)
        requires lists { HasLists self.bytes (tables_model tables.old) }
        requires list { list < 5 }
        ensures lists { HasLists self.bytes (tables_model tables.new) }
        ensures grows { Grows (tables_model tables.old) (tables_model tables.new) 0 0 0 0 0 }
    {
        for at in from..tables.len(list) {
            self.give_kind_at(tables, list, at, kind);
        }
    }

    /// Gives the kind to the entries that have none.
    pub(crate) fn give_kind(self, tables: &mut Tables, untyped: Untyped, kind: Kind)
        requires { HasLists self.bytes (tables_model tables.old) }
        ensures lists { HasLists self.bytes (tables_model tables.new) }
        ensures grows { Grows (tables_model tables.old) (tables_model tables.new) 0 0 0 0 0 }
    {
        self.give_kind_from(tables, ENTRIES, untyped.entries, kind);
        self.give_kind_from(tables, OWN_ENTRIES, untyped.own_entries, kind);
    }
}
