// What the heading of a procedure says of each identifier, found by the identifier's number.
//
// A row has the number of the specification in which the identifier stands first, the number of that heading, and the number of the
// heading in whose value list it was found. Rows aren't cleared: headings have numbers from 1 on, and what stands in a row counts
// only in the heading with its number.
ghost use Rattle.std.specs.Prelude.{◌≡◌, ◌<◌, ◌≤◌, ◌^◌, length};
ghost use Rattle.gier_text.specs.TablesModel.{tables_model};
ghost use Rattle.gier_text.specs.Lists.{list_at};
ghost use Rattle.gier_pass4.specs.Lists.{HasLists, Fills, Grows};

use crate::kinds::by_value;
use crate::lists::{Lists, ROWS, SPECIFICATIONS};
use gier_text::Tables;
use gier_tree::Kind;

// The parts of a row.
const SPECIFICATION: u8 = 0;

const SPECIFIED_IN: u8 = 1;

const VALUE_LISTED_IN: u8 = 2;

/// Fills the rows of so many identifiers in the list, which must be empty.
pub(crate) fn fill(tables: &mut Tables, names: u32)
    requires open { 7 < length (tables_model tables.old).lists }
    requires width { (list_at (tables_model tables.old).lists 7).width ≡ 3 }
    requires empty { (list_at (tables_model tables.old).lists 7).count ≡ 0 }
    requires room { names ≤ (list_at (tables_model tables.old).lists 7).capacity }
    ensures { Fills 7 (tables_model tables.old) (tables_model tables.new) }
{
    for _at in 0..names {
        tables.push(ROWS, &[0, 0, 0]);
    }
}

impl Lists {
    fn note(self, tables: &mut Tables, name: u64, part: u8, word: u64)
        requires lists { HasLists self.bytes (tables_model tables.old) }
        requires part { part < 3 }
        requires small { word < 2 ^ 40 }
        ensures lists { HasLists self.bytes (tables_model tables.new) }
        ensures grows { Grows (tables_model tables.old) (tables_model tables.new) 0 0 0 0 0 }
    {
        if name >= u64::from(tables.len(ROWS)) {
            return;
        }
        tables.set_word(ROWS, name as u32, part, word);
    }

    /// The identifier stands in the specification that is being read.
    pub(crate) fn specify(self, tables: &mut Tables, name: u64, heading: u32)
        requires { HasLists self.bytes (tables_model tables.old) }
        ensures lists { HasLists self.bytes (tables_model tables.new) }
        ensures grows { Grows (tables_model tables.old) (tables_model tables.new) 0 0 0 0 0 }
    {
        let number = u64::from(tables.len(SPECIFICATIONS));
        self.note(tables, name, SPECIFICATION, number);
        self.note(tables, name, SPECIFIED_IN, u64::from(heading));
    }

    /// The identifier stands in the value list.
    pub(crate) fn list_by_value(self, tables: &mut Tables, name: u64, heading: u32)
        requires { HasLists self.bytes (tables_model tables.old) }
        ensures lists { HasLists self.bytes (tables_model tables.new) }
        ensures grows { Grows (tables_model tables.old) (tables_model tables.new) 0 0 0 0 0 }
    {
        self.note(tables, name, VALUE_LISTED_IN, u64::from(heading));
    }

    /// A specification ends, at its beginning; its words gave this kind. Where there is no room for it, it is passed over.
    pub(crate) fn end_specification(self, tables: &mut Tables, kind: Kind)
        requires { HasLists self.bytes (tables_model tables.old) }
        ensures lists { HasLists self.bytes (tables_model tables.new) }
        ensures grows { Grows (tables_model tables.old) (tables_model tables.new) 0 0 0 0 0 }
    {
        if tables.len(SPECIFICATIONS) >= self.most_specifications() {
            return;
        }
        tables.push(SPECIFICATIONS, &[kind.number()]);
    }

    /// There are no specifications yet.
    pub(crate) fn clear_specifications(self, tables: &mut Tables)
        requires { HasLists self.bytes (tables_model tables.old) }
        ensures lists { HasLists self.bytes (tables_model tables.new) }
        ensures grows { Grows (tables_model tables.old) (tables_model tables.new) 0 0 0 0 0 }
    {
        tables.cut(SPECIFICATIONS, 0);
    }

    // What was noted, or 0 where nothing was.
    fn noted(self, tables: &Tables, name: u64, part: u8) -> u64
        requires lists { HasLists self.bytes (tables_model tables.now) }
        requires part { part < 3 }
    {
        if name < u64::from(tables.len(ROWS)) {
            tables.word(ROWS, name as u32, part)
        } else {
            0
        }
    }

    // The kind that the words of a specification give; those of the one that is being read gave the last.
    fn kind_specified(self, tables: &Tables, number: u64, last: Kind) -> Kind
        requires { HasLists self.bytes (tables_model tables.now) }
    {
        if number < u64::from(tables.len(SPECIFICATIONS)) {
            Kind::of(tables.word(SPECIFICATIONS, number as u32, 0)).unwrap_or(Kind::Undeclared)
        } else {
            last
        }
    }

    /// The kind of a formal in the heading with this number; Undeclared where it isn't specified. The last is the kind that the
    /// words of the specification that is being read gave.
    pub(crate) fn kind_of_formal(self, tables: &Tables, name: u64, heading: u32, last: Kind) -> Kind
        requires { HasLists self.bytes (tables_model tables.now) }
    {
        if self.noted(tables, name, SPECIFIED_IN) != u64::from(heading) {
            return Kind::Undeclared;
        }
        let kind = self.kind_specified(tables, self.noted(tables, name, SPECIFICATION), last);
        if self.noted(tables, name, VALUE_LISTED_IN) == u64::from(heading) {
            by_value(kind)
        } else {
            kind
        }
    }
}
