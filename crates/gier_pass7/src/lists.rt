// The lists of the pass. What lies outside a list reads as 0 and is kept nowhere, so no call here has a condition on places.
ghost use Rattle.std.specs.Prelude.{◌≡◌, ◌≤◌, ◌<◌, ◌+◌, ◌*◌, ◌^◌, ◌&&◌, nat_lt, IfSome, IsTrue};
ghost use Rattle.gier_symbol.specs.Symbols.{IsSymbol};
ghost use Rattle.gier_text.specs.TablesModel.{tables_model};
ghost use Rattle.gier_text.specs.Lists.{list_at};
ghost use Rattle.gier_pass7.specs.StateInvariants.{HasLists, PreservesTables};

use gier_symbol::Symbol;
use gier_text::Tables;
use std::cmp;

/// The list of symbols that wait to be written; an entry of zeros is left free for a symbol, and isn't written.
pub(crate) const OUTBOX: u8 = 0;

/// The list of the symbols of a step expression, which is coded twice.
pub(crate) const RECORD: u8 = 1;

/// The list of what is open, the innermost last.
pub(crate) const STACK: u8 = 2;

/// The list of the places in the outbox at which left operands are kept, whose operators are still to come.
pub(crate) const SPILLS: u8 = 3;

/// The list with the place in `DESCRIPTIONS` of each label, switch and procedure, by its number.
pub(crate) const NUMBERED: u8 = 4;

/// The list with the kind of each label, switch and procedure, and behind that of a procedure the kinds of its formals.
pub(crate) const DESCRIPTIONS: u8 = 5;

/// The words of a symbol.
pub(crate) const SYMBOL_WIDTH: u8 = 2;

const HEAD: u8 = 0;

const VALUE: u8 = 1;

/// The words of an entry of the stack.
pub(crate) const STACK_WIDTH: u8 = 12;

/// Each entry of the other lists is one word.
pub(crate) const WORD_WIDTH: u8 = 1;

/// The greatest word of a list.
pub(crate) const LAST_WORD: u64 = (1 << 40) - 1;

/// The longest code of an expression that is held back has fewer symbols for each byte: a formal procedure's call takes 46 for
/// three.
pub(crate) fn outbox_room(bytes: u32) -> u32
    requires { bytes ≤ 524288 }
    ensures { result ≡ 19 * bytes + 512 }
{
    19 * bytes + 512
}

/// No byte of an expression comes to more than four symbols of text 6.
pub(crate) fn record_room(bytes: u32) -> u32
    requires { bytes ≤ 524288 }
    ensures { result ≡ 4 * bytes + 64 }
{
    4 * bytes + 64
}

/// What is open, was declared or is kept has a byte of its own.
pub(crate) fn room(bytes: u32) -> u32
    requires { bytes ≤ 524288 }
    ensures { result ≡ bytes + 64 }
{
    bytes + 64
}

/// The word, or the greatest one where it is greater.
pub(crate) fn short(word: u64) -> u64
    ensures { result < 2 ^ 40 }
{
    cmp::min(word, LAST_WORD)
}

/// How many entries the list has.
pub(crate) fn len(bytes: u32, tables: &Tables, list: u8) -> u64
    requires ready { HasLists bytes (tables_model tables.now) }
    requires own { list < 6 }
{
    u64::from(tables.len(list))
}

/// Puts an entry of the outbox behind all others.
pub(crate) fn push_outbox(bytes: u32, tables: &mut Tables, head: u64, value: u64)
    requires ready { HasLists bytes (tables_model tables.old) }
    ensures { PreservesTables bytes (tables_model tables.old) bytes (tables_model tables.new) }
{
    if tables.len(OUTBOX) < outbox_room(bytes) {
        tables.push(OUTBOX, &[short(head), short(value)]);
    }
}

/// The first word of an entry of the outbox.
pub(crate) fn head_at(bytes: u32, tables: &Tables, at: u64) -> u64
    requires ready { HasLists bytes (tables_model tables.now) }
{
    if at < u64::from(tables.len(OUTBOX)) {
        tables.word(OUTBOX, at as u32, HEAD)
    } else {
        0
    }
}

/// The second word of an entry of the outbox.
pub(crate) fn value_at(bytes: u32, tables: &Tables, at: u64) -> u64
    requires ready { HasLists bytes (tables_model tables.now) }
{
    if at < u64::from(tables.len(OUTBOX)) {
        tables.word(OUTBOX, at as u32, VALUE)
    } else {
        0
    }
}

/// Changes an entry of the outbox.
pub(crate) fn set_outbox(bytes: u32, tables: &mut Tables, at: u64, head: u64, value: u64)
    requires ready { HasLists bytes (tables_model tables.old) }
    ensures { PreservesTables bytes (tables_model tables.old) bytes (tables_model tables.new) }
{
    if at < u64::from(tables.len(OUTBOX)) {
        tables.set_word(OUTBOX, at as u32, HEAD, short(head));
        tables.set_word(OUTBOX, at as u32, VALUE, short(value));
    }
}

/// Keeps a symbol of a step expression.
pub(crate) fn record(bytes: u32, tables: &mut Tables, s: Symbol)
    requires ready { HasLists bytes (tables_model tables.old) }
    requires symbol { IsSymbol s }
    ensures { PreservesTables bytes (tables_model tables.old) bytes (tables_model tables.new) }
{
    if tables.len(RECORD) < record_room(bytes) {
        tables.push(RECORD, &s.code());
    }
}

/// A symbol that was kept so.
pub(crate) fn recorded(bytes: u32, tables: &Tables, at: u64) -> Option<Symbol>
    requires ready { HasLists bytes (tables_model tables.now) }
    ensures { IfSome result IsSymbol }
{
    if at < u64::from(tables.len(RECORD)) {
        let at = at as u32;
        Symbol::decode([
            tables.word(RECORD, at, HEAD),
            tables.word(RECORD, at, VALUE),
        ])
    } else {
        None
    }
}

/// Forgets all entries of a list.
pub(crate) fn forget(bytes: u32, tables: &mut Tables, list: u8)
    requires ready { HasLists bytes (tables_model tables.old) }
    requires own { list < 6 }
    ensures { PreservesTables bytes (tables_model tables.old) bytes (tables_model tables.new) }
{
    tables.cut(list, 0);
}

/// Takes the last entry of a list away, where there is one.
pub(crate) fn drop_last(bytes: u32, tables: &mut Tables, list: u8)
    requires ready { HasLists bytes (tables_model tables.old) }
    requires own { list < 6 }
    ensures { PreservesTables bytes (tables_model tables.old) bytes (tables_model tables.new) }
{
    let count = tables.len(list);
    if count > 0 {
        tables.cut(list, count - 1);
    }
}

/// Puts an entry upon what is open.
pub(crate) fn push_stack(bytes: u32, tables: &mut Tables, words: [u64; 12])
    requires ready { HasLists bytes (tables_model tables.old) }
    ensures { PreservesTables bytes (tables_model tables.old) bytes (tables_model tables.new) }
{
    if tables.len(STACK) < room(bytes) {
        let [a, b, c, d, e, f, g, h, i, j, k, l] = words;
        tables.push(
            STACK,
            &[
                short(a),
                short(b),
                short(c),
                short(d),
                short(e),
                short(f),
                short(g),
                short(h),
                short(i),
                short(j),
                short(k),
                short(l),
            ],
        );
    }
}

/// A word of the entry that so many others stand upon.
pub(crate) fn stack_word(bytes: u32, tables: &Tables, depth: u32, part: u8) -> u64
    requires ready { HasLists bytes (tables_model tables.now) }
    requires part { part < 12 }
{
    let count = tables.len(STACK);
    if depth < count {
        tables.word(STACK, count - 1 - depth, part)
    } else {
        0
    }
}

/// Puts a word behind all others of a list of single words.
pub(crate) fn push_word(bytes: u32, tables: &mut Tables, list: u8, word: u64)
    requires ready { HasLists bytes (tables_model tables.old) }
    requires own { IsTrue (nat_lt 2 list && nat_lt list 6) }
    ensures { PreservesTables bytes (tables_model tables.old) bytes (tables_model tables.new) }
{
    if tables.len(list) < room(bytes) {
        tables.push(list, &[short(word)]);
    }
}

/// A word of such a list.
pub(crate) fn word_at(bytes: u32, tables: &Tables, list: u8, at: u64) -> u64
    requires ready { HasLists bytes (tables_model tables.now) }
    requires own { IsTrue (nat_lt 2 list && nat_lt list 6) }
{
    if at < u64::from(tables.len(list)) {
        tables.word(list, at as u32, 0)
    } else {
        0
    }
}
