// The same symbols written to a text on a drum and read back, and their words copied into a vector and back.
ghost use Rattle.std.specs.Prelude.{◌≡◌, ◌≤◌, false};
ghost use Rattle.gier_symbol.specs.Symbols.{IsSymbol};

use crate::drums;
use gier_drum::MemDrum;
use gier_symbol::{Symbol, Tag};
use gier_text::{DrumText, Text, Way};
use std::alloc::{AllocError, Global};

// How many symbols a track holds.
const ON_TRACK: u32 = 20;

// More symbols are never asked for.
const MOST: u32 = 1 << 23;

/// Writes so many symbols, at most 2^23, to a text on a drum, and gives the sum of the values that are read back.
pub fn through_drum(alloc: Global, symbols: u32) -> Result<u64, AllocError> {
    let symbols = symbols.min(MOST);
    let mut drum = drums::open(alloc, symbols / ON_TRACK + 1)?;
    let mut text: DrumText<MemDrum> = DrumText::at(0, symbols);
    Ok(pump(&mut drum, &mut text, symbols))
}

fn pump<T: Text>(store: &mut T::Store, text: &mut T, symbols: u32) -> u64
    requires writing { (T.view text.old store.old).rewound ≡ false }
    requires placed { T.end_track text.old ≤ T.room store.old }
{
    for k in 0..symbols {
        if text.write_next(store, symbol(k)).is_err() {
            return 1;
        }
    }
    if text.rewind(store, Way::Forward).is_err() {
        return 2;
    }
    let mut sum = 0u64;
    loop {
        match text.read_next(store) {
            Ok(Some(s)) => sum = sum.wrapping_add(s.value),
            Ok(None) => break,
            Err(_) => return 3,
        }
    }
    sum
}

fn symbol(k: u32) -> Symbol
    ensures { IsSymbol result }
{
    Symbol::new(Tag::Number, 5 * u64::from(k), k % (1 << 24))
}

/// The same with a vector of words: each symbol's two words are pushed, and then read in turn.
pub fn through_vec(alloc: Global, symbols: u32) -> Result<u64, AllocError> {
    let symbols = symbols.min(MOST);
    let mut words = Vec::with_capacity(alloc, 2 * symbols as usize)?;
    for k in 0..symbols {
        let [head, value] = symbol(k).code();
        words.push(head)?;
        words.push(value)?;
    }
    let mut sum = 0u64;
    for pair in words.chunks_exact(2) {
        if let [head, value] = pair {
            if *head > 0 {
                sum = sum.wrapping_add(*value);
            }
        }
    }
    Ok(sum)
}
