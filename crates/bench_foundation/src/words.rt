// The same loop over the words of a vector and over those of a region.
ghost use Rattle.std.specs.Prelude.{◌<◌, ◌^◌};

use gier_region::Region;
use std::alloc::{AllocError, Global};

// How many words are read and written in turn.
const WORDS: u64 = 4096;

// Words are below this.
const LIMIT: u64 = 1 << 40;

/// Writes and reads words of a vector in turn, `turns` times, and gives the last one read.
pub fn in_vec(alloc: Global, turns: u32) -> Result<u64, AllocError> {
    let mut words = vec![in alloc; 0u64; WORDS as usize]?;
    let mut last = 0u64;
    for turn in 0..turns {
        last = turn_in_vec(&mut words, last, turn);
    }
    Ok(last)
}

fn turn_in_vec(words: &mut Vec<u64>, last: u64, turn: u32) -> u64
    requires { last < 2 ^ 40 }
    ensures { result < 2 ^ 40 }
{
    let place = (u64::from(turn) * 7 % WORDS) as usize;
    if place >= words.len() {
        return last;
    }
    let next = mixed(words[place], last, turn);
    words[place] = next;
    next
}

/// The same with the words of a region.
pub fn in_region(alloc: Global, turns: u32) -> Result<u64, AllocError> {
    let Ok(mut region) = Region::open(alloc, WORDS) else {
        return Err(AllocError);
    };
    let mut last = 0u64;
    for turn in 0..turns {
        let place = u64::from(turn) * 7 % WORDS;
        if place < region.size() {
            last = mixed(region.get(place), last, turn);
            region.set(place, last);
        }
    }
    Ok(last)
}

// A word that depends on all three.
fn mixed(word: u64, last: u64, turn: u32) -> u64
    requires { last < 2 ^ 40 }
    ensures { result < 2 ^ 40 }
{
    (word ^ (3 * last + u64::from(turn))) % LIMIT
}
