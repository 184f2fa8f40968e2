// The live entries: the declared identifiers of all scopes that are open, the innermost scope last.
//
// An entry that is the first of its identifier in its scope stands in the index, and hides the entry that stood there before.
ghost use Rattle.std.specs.Prelude.{◌≡◌, ◌≤◌, ◌<◌, ◌+◌, ◌*◌, ◌^◌, length, IfSome};
ghost use Rattle.gier_text.specs.TablesModel.{tables_model, with_list};
ghost use Rattle.gier_text.specs.Lists.{list_at, word_at};
ghost use Rattle.gier_pass5.specs.Entries.{part_at, Adds, Cuts};
ghost use Rattle.gier_pass5.specs.Lists.{HasLists, Keeps, entry_count, entry_room, row_count};

use crate::index;
use crate::links::{link_to, linked};
use gier_text::Tables;

// The list of entries.
const LIVE: u8 = 1;

const WIDTH: u8 = 9;

// The row of the index that shows the entry, increased by 1, or 0 where the identifier has an entry before it in its scope.
const ROW: u8 = 0;

// The entry that it hides, as a link.
const HIDES: u8 = 1;

/// A part of an entry.
#[derive(Debug, Clone, Copy, PartialEq, Eq)]
pub(crate) enum Field {
    Kind,
    /// Level times 2^24 plus address, or plus number of a label, switch or procedure.
    Place,
    /// The dimensions of an array, or the formals of a procedure.
    Count,
    /// Of an own quantity in its old place a link to its entry of the block around the program; else 0.
    Own,
    /// 1 where the formal was met in the value list.
    Valued,
    /// 1 where the formal was met in the specifications.
    Specified,
    /// The line of the declaring place, when it was met.
    Line,
}

/// What an entry tells of its identifier.
#[derive(Debug, Clone, Copy)]
pub(crate) struct SymbolEntry {
    pub(crate) kind: u64,
    pub(crate) place: u64,
    pub(crate) count: u64,
    /// The entry that an own quantity has in the block around the program.
    pub(crate) own: Option<u32>,
    ghost kind_small: { kind < 2 ^ 40 },
    ghost place_small: { place < 2 ^ 40 },
    ghost count_small: { count < 2 ^ 40 },
}

/// Opens the list for a program of so many bytes.
pub(crate) fn open(tables: &mut Tables, bytes: u32)
    requires lists { length (tables_model tables.old).lists ≡ 1 }
    requires bytes { bytes ≤ 2 ^ 19 }
    requires fits { (tables_model tables.old).used + 9 * (4 * bytes + 40) ≤ 62 * (tables_model tables.old).limit + 4092 }
    ensures { tables_model tables.new ≡ with_list (tables_model tables.old) 9 (4 * bytes + 40) }
{
    tables.list(WIDTH, 4 * bytes + 40);
}

/// How many entries there are.
pub(crate) fn count(tables: &Tables) -> u32
    requires { HasLists (tables_model tables.now) }
    ensures { result ≡ entry_count (tables_model tables.now) }
{
    tables.len(LIVE)
}

fn part_number(part: Field) -> u8
    ensures value { result ≡ part_at part }
    ensures within { result < 9 }
{
    match part {
        Field::Kind => 2,
        Field::Place => 3,
        Field::Count => 4,
        Field::Own => 5,
        Field::Valued => 6,
        Field::Specified => 7,
        Field::Line => 8,
    }
}

/// A part of an entry.
pub(crate) fn get(tables: &Tables, entry: u32, part: Field) -> u64
    requires lists { HasLists (tables_model tables.now) }
    requires entry { entry < entry_count (tables_model tables.now) }
    ensures value { result ≡ word_at (list_at (tables_model tables.now).lists 1) entry (part_at part) }
    ensures small { result < 2 ^ 40 }
{
    tables.word(LIVE, entry, part_number(part))
}

/// Sets a part of an entry.
pub(crate) fn set(tables: &mut Tables, entry: u32, part: Field, word: u64)
    requires lists { HasLists (tables_model tables.old) }
    requires entry { entry < entry_count (tables_model tables.old) }
    requires small { word < 2 ^ 40 }
    ensures { Keeps (tables_model tables.old) (tables_model tables.new) }
{
    tables.set_word(LIVE, entry, part_number(part), word);
}

/// Whether the identifier has an entry before this one in its scope.
pub(crate) fn is_second(tables: &Tables, entry: u32) -> bool
    requires lists { HasLists (tables_model tables.now) }
    requires entry { entry < entry_count (tables_model tables.now) }
{
    tables.word(LIVE, entry, ROW) == 0
}

/// The entry that an own quantity, whose entry in its old place this is, has in the block around the program.
pub(crate) fn own_entry(tables: &Tables, entry: u32) -> Option<u32>
    requires lists { HasLists (tables_model tables.now) }
    requires entry { entry < entry_count (tables_model tables.now) }
    ensures { IfSome result (λ own. own < entry_count (tables_model tables.now)) }
{
    linked(get(tables, entry, Field::Own), count(tables))
}

/// The innermost entry of an identifier, which has this row of the index.
pub(crate) fn innermost(tables: &Tables, row: u32) -> Option<u32>
    requires lists { HasLists (tables_model tables.now) }
    requires row { row < row_count (tables_model tables.now) }
    ensures { IfSome result (λ entry. entry < entry_count (tables_model tables.now)) }
{
    linked(index::get(tables, row), count(tables))
}

/// Adds an entry to the innermost scope, whose first entry is told.
pub(crate) fn add(tables: &mut Tables, row: Option<u32>, first: u32, told: SymbolEntry)
    requires lists { HasLists (tables_model tables.old) }
    requires row { IfSome row (λ at. at < row_count (tables_model tables.old)) }
    requires room { entry_count (tables_model tables.old) < entry_room (tables_model tables.old) }
    ensures { Adds (tables_model tables.old) (tables_model tables.new) }
{
    let at = count(tables);
    let Some(row) = row else {
        push(tables, 0, None, told);
        return;
    };
    let hidden = innermost(tables, row);
    if is_within(hidden, first) {
        push(tables, 0, None, told);
        return;
    }
    push(tables, u64::from(row) + 1, hidden, told);
    index::set(tables, row, link_to(Some(at)));
}

// Whether there is an entry that isn't before this first one.
fn is_within(entry: Option<u32>, first: u32) -> bool {
    match entry {
        Some(at) => at >= first,
        None => false,
    }
}

fn push(tables: &mut Tables, row: u64, hidden: Option<u32>, told: SymbolEntry)
    requires lists { HasLists (tables_model tables.old) }
    requires row { row < 2 ^ 40 }
    requires room { entry_count (tables_model tables.old) < entry_room (tables_model tables.old) }
    ensures { Adds (tables_model tables.old) (tables_model tables.new) }
{
    tables.push(
        LIVE,
        &[
            row,
            link_to(hidden),
            told.kind,
            told.place,
            told.count,
            link_to(told.own),
            0,
            0,
            0,
        ],
    );
}

/// Takes away the entries from this one on, the last one first; those that they hid stand in the index again.
pub(crate) fn cut(tables: &mut Tables, first: u32)
    requires lists { HasLists (tables_model tables.old) }
    requires within { first ≤ entry_count (tables_model tables.old) }
    ensures { Cuts (tables_model tables.old) first (tables_model tables.new) }
{
    let mut at = count(tables);
    while at > first {
        at -= 1;
        uncover(tables, at);
    }
    tables.cut(LIVE, first);
}

// Puts what the entry hides in its place in the index.
fn uncover(tables: &mut Tables, entry: u32)
    requires lists { HasLists (tables_model tables.old) }
    requires entry { entry < entry_count (tables_model tables.old) }
    ensures { Keeps (tables_model tables.old) (tables_model tables.new) }
{
    let row = tables.word(LIVE, entry, ROW);
    if row == 0 || row > u64::from(index::rows(tables)) {
        return;
    }
    let hidden = linked(tables.word(LIVE, entry, HIDES), entry);
    index::set(tables, (row - 1) as u32, link_to(hidden));
}
