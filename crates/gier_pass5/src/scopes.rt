// The scopes that are open, the innermost last. The outermost one, of the standard identifiers, is never shut.
ghost use Rattle.std.specs.Prelude.{◌≡◌, ◌≤◌, ◌<◌, ◌+◌, ◌*◌, ◌^◌, length, IfSome};
ghost use Rattle.gier_text.specs.TablesModel.{tables_model};
ghost use Rattle.gier_pass5.specs.Scopes.{Enters, Leaves, OpensScopes};
ghost use Rattle.gier_pass5.specs.Lists.{HasLists, Keeps, entry_count, scope_count, scope_room};

use crate::entries;
use gier_text::Tables;

// The list of scopes.
const SCOPES: u8 = 2;

const WIDTH: u8 = 3;

// Its first entry.
const FIRST: u8 = 0;

// The entry whose declaring place comes next.
const NEXT: u8 = 1;

const LEVEL: u8 = 2;

const GREATEST_LEVEL: u64 = 255;

/// Opens the list for a program of so many bytes, with the outermost scope.
pub(crate) fn open(tables: &mut Tables, bytes: u32)
    requires lists { length (tables_model tables.old).lists ≡ 2 }
    requires bytes { bytes ≤ 2 ^ 19 }
    requires fits { (tables_model tables.old).used + 3 * (8 * bytes + 65) ≤ 62 * (tables_model tables.old).limit + 4092 }
    ensures { OpensScopes bytes (tables_model tables.old) (tables_model tables.new) }
{
    tables.list(WIDTH, 8 * bytes + 65);
    tables.push(SCOPES, &[0, 0, 0]);
}

/// The innermost scope.
pub(crate) fn innermost(tables: &Tables) -> u32
    requires { HasLists (tables_model tables.now) }
    ensures { result + 1 ≡ scope_count (tables_model tables.now) }
{
    tables.len(SCOPES) - 1
}

/// The scope around the innermost one.
pub(crate) fn around(tables: &Tables) -> u32
    requires { HasLists (tables_model tables.now) }
    ensures { result < scope_count (tables_model tables.now) }
{
    innermost(tables).saturating_sub(1)
}

/// Opens a scope behind all entries.
pub(crate) fn enter(tables: &mut Tables, level: u8)
    requires lists { HasLists (tables_model tables.old) }
    requires room { scope_count (tables_model tables.old) < scope_room (tables_model tables.old) }
    ensures { Enters (tables_model tables.old) (tables_model tables.new) }
{
    let first = u64::from(entries::count(tables));
    tables.push(SCOPES, &[first, first, u64::from(level)]);
}

/// Shuts the innermost scope, with its entries.
pub(crate) fn leave(tables: &mut Tables)
    requires { HasLists (tables_model tables.old) }
    ensures { Leaves (tables_model tables.old) (tables_model tables.new) }
{
    let scope = innermost(tables);
    if scope == 0 {
        return;
    }
    let first = first(tables, scope);
    entries::cut(tables, first);
    tables.cut(SCOPES, scope);
}

/// The first entry of a scope; there may be none.
pub(crate) fn first(tables: &Tables, scope: u32) -> u32
    requires lists { HasLists (tables_model tables.now) }
    requires scope { scope < scope_count (tables_model tables.now) }
    ensures { result ≤ entry_count (tables_model tables.now) }
{
    let first = tables.word(SCOPES, scope, FIRST);
    first.min(u64::from(entries::count(tables))) as u32
}

/// The level of a scope.
pub(crate) fn level(tables: &Tables, scope: u32) -> u8
    requires lists { HasLists (tables_model tables.now) }
    requires scope { scope < scope_count (tables_model tables.now) }
{
    tables.word(SCOPES, scope, LEVEL).min(GREATEST_LEVEL) as u8
}

/// The entry of a scope whose declaring place comes next.
pub(crate) fn next(tables: &Tables, scope: u32) -> Option<u32>
    requires lists { HasLists (tables_model tables.now) }
    requires scope { scope < scope_count (tables_model tables.now) }
    ensures { IfSome result (λ entry. entry < entry_count (tables_model tables.now)) }
{
    let next = tables.word(SCOPES, scope, NEXT);
    if next < u64::from(entries::count(tables)) {
        Some(next as u32)
    } else {
        None
    }
}

/// Passes over the entry of a scope whose declaring place comes next, and gives it.
pub(crate) fn pass_next(tables: &mut Tables, scope: u32) -> Option<u32>
    requires lists { HasLists (tables_model tables.old) }
    requires scope { scope < scope_count (tables_model tables.old) }
    ensures entry { IfSome result (λ entry. entry < entry_count (tables_model tables.new)) }
    ensures keeps { Keeps (tables_model tables.old) (tables_model tables.new) }
{
    let entry = next(tables, scope)?;
    tables.set_word(SCOPES, scope, NEXT, u64::from(entry) + 1);
    Some(entry)
}
