// Reads what a run is given: a few numbers, and then its words and its data, of which there may be many.
ghost use Rattle.std.specs.Prelude.{◌≡◌, ◌≤◌, ◌<◌, ◌^◌, IfSome};
ghost use Rattle.tool_object_run.specs.Given.{IsGiven};

use gier_io::Source;
use gier_library::{Data, in_integer};
use gier_runner::Settings;
use std::alloc::{AllocError, Global};

// No object has more words, and the stack has fewer.
const WORDS: u64 = 1 << 24;

const PLACES: u64 = 64;

// Values of a byte.
const VALUES: u64 = 1 << 8;

/// What a run is given beside its words and its data: how many there are of both, and where it begins.
#[derive(Clone, Copy)]
pub struct Given {
    pub words: u32,
    pub start: u32,
    pub bytes: u32,
    pub settings: Settings,
}

/// The next six numbers; None where there are no more, or where they allow no run.
pub fn read_given<S: Source>(numbers: &mut S) -> Option<Given>
    ensures { IfSome result IsGiven }
{
    let words = next_below(numbers, WORDS)?;
    let start = next_below(numbers, u64::from(words))?;
    let places = next_below(numbers, PLACES + 1)?;
    let steps = next_number(numbers)?;
    let stack = next_below(numbers, WORDS)?;
    let bytes = next_below(numbers, WORDS)?;
    if places == 0 {
        return None;
    }
    Some(Given {
        words,
        start,
        bytes,
        settings: Settings {
            places: places as u8,
            steps,
            stack,
        },
    })
}

/// The next number as a word; 0 where there is none.
pub fn next_word<S: Source>(numbers: &mut S) -> u64
    ensures { result < 2 ^ 40 }
{
    match next_number(numbers) {
        Some(word) => word,
        None => 0,
    }
}

/// So many bytes.
pub fn read_bytes<S: Source>(
    alloc: Global,
    count: u32,
    numbers: &mut S,
) -> Result<Vec<u8>, AllocError> {
    let mut bytes = Vec::new(alloc);
    for _ in 0..count {
        bytes.push((next_word(numbers) % VALUES) as u8)?;
    }
    Ok(bytes)
}

// The next number, where it is below the limit.
fn next_below<S: Source>(numbers: &mut S, limit: u64) -> Option<u32>
    requires { limit ≤ 2 ^ 24 }
    ensures { IfSome result (λ number. number < limit) }
{
    let number = next_number(numbers)?;
    if number < limit {
        Some(number as u32)
    } else {
        None
    }
}

// The next number as a word, or None where there is none.
fn next_number<S: Source>(numbers: &mut S) -> Option<u64>
    ensures { IfSome result (λ word. word < 2 ^ 40) }
{
    match in_integer(&mut Data::of(numbers)) {
        Ok(number) => Some(number.word().bits()),
        Err(_) => None,
    }
}
