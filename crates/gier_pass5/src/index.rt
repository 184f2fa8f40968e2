// The index of identifiers: for each number the innermost entry with it.
//
// Identifiers of the program and the standard ones have the first rows, the fresh identifiers of own quantities those behind them.
// A row is a word that tells of an entry or of none.
ghost use Rattle.std.specs.Prelude.{◌≡◌, ◌≤◌, ◌<◌, ◌+◌, ◌*◌, ◌^◌, length, IfSome};
ghost use Rattle.gier_text.specs.TablesModel.{tables_model, with_at};
ghost use Rattle.gier_text.specs.Lists.{list_at, word_at, with_word};
ghost use Rattle.gier_pass5.specs.Index.{row_at, OpensIndex};
ghost use Rattle.gier_pass5.specs.Lists.{HasLists, Keeps, row_count};

use gier_limits::{FIRST_OWN_NAME, STANDARD_NAMES};
use gier_text::Tables;

// The list of rows.
const INDEX: u8 = 3;

const WIDTH: u8 = 1;

const ENTRY: u8 = 0;

/// Opens the index of a program of so many bytes, without any entry.
pub(crate) fn open(tables: &mut Tables, bytes: u32)
    requires lists { length (tables_model tables.old).lists ≡ 3 }
    requires bytes { bytes ≤ 2 ^ 19 }
    requires fits { (tables_model tables.old).used + (2 * bytes + 65) ≤ 62 * (tables_model tables.old).limit + 4092 }
    ensures { OpensIndex (2 * bytes + 65) (2 * bytes + 65) (tables_model tables.old) (tables_model tables.new) }
{
    let rows = 2 * bytes + STANDARD_NAMES + 1;
    tables.list(WIDTH, rows);
    for _ in 0..rows {
        tables.push(INDEX, &[0]);
    }
}

/// The row of the identifier with this number, or None where no program of so many bytes has it.
pub(crate) fn row_of(number: u64, bytes: u32) -> Option<u32>
    requires { bytes ≤ 2 ^ 19 }
    ensures value { result ≡ row_at number bytes }
    ensures within { IfSome result (λ row. row < 2 * bytes + 65) }
{
    let named = bytes + STANDARD_NAMES;
    if number < u64::from(named) {
        return Some(number as u32);
    }
    if number >= FIRST_OWN_NAME && number - FIRST_OWN_NAME <= u64::from(bytes) {
        return Some(named + (number - FIRST_OWN_NAME) as u32);
    }
    None
}

/// The word of a row.
pub(crate) fn get(tables: &Tables, row: u32) -> u64
    requires lists { HasLists (tables_model tables.now) }
    requires row { row < row_count (tables_model tables.now) }
    ensures value { result ≡ word_at (list_at (tables_model tables.now).lists 3) row 0 }
    ensures small { result < 2 ^ 40 }
{
    tables.word(INDEX, row, ENTRY)
}

/// Sets the word of a row.
pub(crate) fn set(tables: &mut Tables, row: u32, word: u64)
    requires lists { HasLists (tables_model tables.old) }
    requires row { row < row_count (tables_model tables.old) }
    requires small { word < 2 ^ 40 }
    ensures value { tables_model tables.new
        ≡ with_at (tables_model tables.old) 3 (with_word (list_at (tables_model tables.old).lists 3) row 0 word) }
    ensures keeps { Keeps (tables_model tables.old) (tables_model tables.new) }
{
    tables.set_word(INDEX, row, ENTRY, word);
}

/// How many rows there are.
pub(crate) fn rows(tables: &Tables) -> u32
    requires { HasLists (tables_model tables.now) }
    ensures { result ≡ row_count (tables_model tables.now) }
{
    tables.len(INDEX)
}
