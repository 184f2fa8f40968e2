// What is said on standard error of the errors of a program, behind the list that was printed.
use crate::advice::advice_on;
use std::str;

// So much of a source line is shown.
const SHOWN: usize = 120;

// A word symbol in the spelling of other compilers, and here.
const BARE: &[u8] = b"begin";

const SYMBOL: &[u8] = b"_begin";

// A program text in the quoted spelling begins so.
const QUOTED: u8 = b'!';

/// Explains each line of a printed list of errors on standard error: where it stands, what is wrong and what to do, and the
/// source line where the tape is the file with this path. `name` is the program that speaks.
pub fn explain(rt: &impl Eprint, name: &str, path: Option<&str>, printed: &[u8], text: &[u8]) {
    for line in printed.split(|byte| *byte == b'\n') {
        if let Ok(line) = str::from_utf8(line) {
            explain_line(rt, name, path, line, text);
        }
    }
    hint_at_spelling(rt, name, text);
}

// One line of the list. What is no line of an error is passed over.
fn explain_line(rt: &impl Eprint, name: &str, path: Option<&str>, line: &str, text: &[u8]) {
    let place = path.unwrap_or("tape");
    match place_and_text(line) {
        Some((number, error)) => {
            if let Some(advice) = advice_on(error) {
                let _ = eprintln!(rt; "{name}: {place}:{number}: {error}: {advice}");
                if path.is_some() {
                    show_line(rt, number, text);
                }
            }
        }
        None => {
            if let Some(advice) = advice_on(line) {
                let _ = eprintln!(rt; "{name}: {place}: {line}: {advice}");
            }
        }
    }
}

// The line number and the text of an error, as they stand in its line.
fn place_and_text(line: &str) -> Option<(u32, &str)> {
    let (number, error) = line.strip_prefix("line ")?.split_once(' ')?;
    let number = number.parse::<u32>().ok()?;
    Some((number, error))
}

// The source line with this number, from 1. Bytes that aren't ASCII are shown as numbers.
fn show_line(rt: &impl Eprint, number: u32, text: &[u8]) {
    let before = (number as usize).saturating_sub(1);
    let Some(line) = text.split(|byte| *byte == b'\n').nth(before) else {
        return;
    };
    let line = line.trim_ascii_end();
    let more = if line.len() > SHOWN { " .." } else { "" };
    let shown = &line[..line.len().min(SHOWN)];
    let _ = match str::from_utf8(shown) {
        Ok(shown) => eprintln!(rt; "{number:>5} | {shown}{more}"),
        Err(_) => {
            let shown = shown.escape_ascii();
            eprintln!(rt; "{number:>5} | {shown}{more}")
        }
    };
}

// Says how word symbols are written, where the program has those of other compilers alone.
fn hint_at_spelling(rt: &impl Eprint, name: &str, text: &[u8]) {
    if text.first() != Some(&QUOTED) && has_word(text, BARE) && !has_word(text, SYMBOL) {
        let _ = eprintln!(rt;
            "{name}: word symbols begin with `_`, as `_begin`; tools/respell turns programs in other spellings into this one"
        );
    }
}

// Whether the word stands in the text, in letters of any case.
fn has_word(text: &[u8], word: &[u8]) -> bool {
    for piece in text.split(|byte| !byte.is_ascii_alphanumeric() && *byte != b'_') {
        if piece.eq_ignore_ascii_case(word) {
            return true;
        }
    }
    false
}
