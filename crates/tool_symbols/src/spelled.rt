// Texts spelled in words: `1 begin identifier=8 2 used=label place=1.3 JUMP=0.4`. A number is the line of what follows; a symbol has its
// name and, where its value isn't 0, a `=` with the value: a name of a construct, a kind or a symbol, or numbers with dots between
// them, of which the last has 24 bits and the one before it 8. What passes do with a text isn't told here.
ghost use Rattle.std.specs.Prelude.{◌≡◌, IfSome, false, true};
ghost use Rattle.gier_symbol.specs.Symbols.{IsSymbol};

use crate::names::{construct_named, kind_named, number_named, operation_named, tag_named};
use gier_limits::{ADDRESSES, LINES};
use gier_symbol::{Symbol, Tag};
use gier_text::{ListText, Text};
use std::alloc::Global;

// The word behind which anything may stand.
const MORE: &str = "..";

// Levels are below this number.
const LEVELS: u64 = 1 << 8;

/// The text that is spelled so, or None where a word is none or memory is wanting.
pub fn text_of(alloc: Global, spelled: &str) -> Option<ListText>
    ensures { IfSome result (λ text. text.rewound ≡ false) }
{
    let mut text = ListText::open(alloc);
    let mut line = 0;
    for word in spelled.split_whitespace() {
        match decimal(word) {
            Some(number) => line = number,
            None => match symbol_of(word, line) {
                Some(symbol) if text.write_next(&mut (), symbol).is_ok() => {}
                _ => return None,
            },
        }
    }
    Some(text)
}

/// Whether the symbols that are spelled so are left of the text, and, unless the last word is `..`, no more.
pub fn reads(text: &mut ListText, spelled: &str) -> bool
    requires { text.old.rewound ≡ true }
{
    let mut line = 0;
    for word in spelled.split_whitespace() {
        if word == MORE {
            return true;
        }
        match decimal(word) {
            Some(number) => line = number,
            None => match symbol_of(word, line) {
                Some(symbol) if text.read_next(&mut ()) == Ok(Some(symbol)) => {}
                _ => return false,
            },
        }
    }
    text.read_next(&mut ()) == Ok(None)
}

// A symbol with its name and value, on this line.
fn symbol_of(word: &str, line: u64) -> Option<Symbol>
    ensures { IfSome result IsSymbol }
{
    let (name, value) = word.split_once('=').unwrap_or((word, "0"));
    let tag = number_named(name)?;
    let value = value_of(tag, value)?;
    Symbol::decode([u64::from(tag) * LINES + line.min(LINES - 1), value])
}

// The value of a symbol with this tag.
fn value_of(tag: u16, word: &str) -> Option<u64> {
    if let Some(number) = packed(word) {
        return Some(number);
    }
    match Tag::of(tag) {
        Some(Tag::OpenMark | Tag::ShutMark) => construct_named(word).map(|found| found.number()),
        Some(Tag::Description | Tag::Used) => kind_named(word).map(|found| found.number()),
        Some(Tag::Operation) => tag_named(word).map(|found| u64::from(found.number())),
        _ => None,
    }
}

// A number; or a level and an address, or an operation, a level and an address, with dots between them.
fn packed(word: &str) -> Option<u64> {
    let Some((before, address)) = word.rsplit_once('.') else {
        return decimal(word);
    };
    let front = match before.split_once('.') {
        Some((operation, level)) => u64::from(operation_named(operation)?)
            .wrapping_mul(LEVELS)
            .wrapping_add(decimal(level)?),
        None => decimal(before)?,
    };
    Some(
        front
            .wrapping_mul(ADDRESSES)
            .wrapping_add(decimal(address)?),
    )
}

// A number in decimal digits.
fn decimal(word: &str) -> Option<u64> {
    if word.is_empty() || !word.bytes().all(|byte| byte.is_ascii_digit()) {
        return None;
    }
    let mut value = 0u64;
    for byte in word.bytes() {
        value = value.wrapping_mul(10).wrapping_add(u64::from(byte - b'0'));
    }
    Some(value)
}
