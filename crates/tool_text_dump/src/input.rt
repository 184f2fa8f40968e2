// Reads a text that is given as decimal numbers.
ghost use Rattle.std.specs.Prelude.{◌≡◌, IfOk, IfSome, false};
ghost use Rattle.gier_symbol.specs.Symbols.{IsSymbol};

use gier_io::Source;
use gier_limits::LINES;
use gier_symbol::Symbol;
use gier_text::{ListText, Text, TextStop};
use std::alloc::Global;
use std::io;

// More symbols than this are never read.
const MOST: u64 = 1 << 24;

// Tags and lines are below these.
const TAGS: u64 = 1 << 8;

/// A text and how many bytes its program has.
#[derive(Drop)]
pub struct Symbols {
    pub bytes: u32,
    pub words: Vec<u64>,
}

/// Reads the number of bytes, the number of symbols, and then the three numbers of each. None at the end.
pub fn read_symbols<S: Source>(alloc: Global, tape: &mut S) -> io::Result<Option<Symbols>> {
    let Some(bytes) = read_number(tape) else {
        return Ok(None);
    };
    let count = read_number(tape).unwrap_or(0).min(MOST);
    let mut words = Vec::new(alloc);
    for _ in 0..3 * count {
        words.push(read_number(tape).unwrap_or(0))?;
    }
    Ok(Some(Symbols {
        bytes: u32::try_from(bytes).unwrap_or(u32::MAX),
        words,
    }))
}

// The next number, or None at the end.
fn read_number<S: Source>(tape: &mut S) -> Option<u64> {
    let mut number = None;
    for _ in 0..u64::MAX {
        let byte = match tape.next() {
            Ok(Some(byte)) => byte,
            _ => return number,
        };
        if byte.is_ascii_digit() {
            let digit = u64::from(byte - b'0');
            number = Some(number.unwrap_or(0u64).wrapping_mul(10).wrapping_add(digit));
        } else if number.is_some() {
            return number;
        }
    }
    number
}

/// Reads the number of bytes of a tape, and then its bytes. None at the end.
pub fn read_tape<S: Source>(alloc: Global, tape: &mut S) -> io::Result<Option<Vec<u8>>> {
    let Some(count) = read_number(tape) else {
        return Ok(None);
    };
    let mut bytes = Vec::new(alloc);
    for _ in 0..count.min(MOST) {
        bytes.push((read_number(tape).unwrap_or(0) % TAGS) as u8)?;
    }
    Ok(Some(bytes))
}

/// The text that the numbers are. Three that are no symbol are left out.
pub fn text_of(alloc: Global, symbols: &Symbols) -> Result<ListText, TextStop>
    ensures { IfOk result (λ text. text.rewound ≡ false) }
{
    let mut text = ListText::open(alloc);
    for three in symbols.words.chunks_exact(3) {
        if let Some(symbol) = symbol_of(three) {
            match text.write_next(&mut (), symbol) {
                Ok(()) => {}
                Err(stop) => return Err(stop),
            }
        }
    }
    Ok(text)
}

// The symbol with this tag, value and line.
fn symbol_of(three: &[u64]) -> Option<Symbol>
    ensures { IfSome result IsSymbol }
{
    match three {
        [tag, value, line] => Symbol::decode([(tag % TAGS) * LINES + line % LINES, *value]),
        _ => None,
    }
}
