// The same word of the track that was used last, through the places and in a vector.
ghost use Rattle.std.specs.Prelude.{◌+◌, ◌<◌, ◌^◌};

use crate::drums;
use gier_drum::Drum;
use gier_places::Places;
use std::alloc::{AllocError, Global};

/// Refers to one track so many times, and gives the sum of the words that are read of it.
pub fn of_newest(alloc: Global, turns: u32) -> Result<u64, AllocError> {
    let mut drum = drums::open(alloc, 1)?;
    let Ok(mut places) = Places::open(alloc, 8) else {
        return Err(AllocError);
    };
    Ok(refer_in_turn(&mut places, &mut drum, turns))
}

fn refer_in_turn<D: Drum>(places: &mut Places, drum: &mut D, turns: u32) -> u64
    requires in_room { 0 < D.room drum.old }
    requires few { places.old.transfers < 2 ^ 64 }
{
    let mut sum = 0u64;
    for turn in 0..turns {
        match places.refer(0, drum) {
            Ok(words) => sum = sum
                .wrapping_add(words[turn as usize % 40])
                .wrapping_add(u64::from(turn)),
            Err(_) => return 0,
        }
    }
    sum
}

/// The same words of a vector, which is as long as a track.
pub fn of_vec(alloc: Global, turns: u32) -> Result<u64, AllocError> {
    let words = vec![in alloc; 0u64; 40]?;
    Ok(index_in_turn(words.as_slice(), turns))
}

#[inline(never)]
fn index_in_turn(words: &[u64], turns: u32) -> u64 {
    let mut sum = 0u64;
    for turn in 0..turns {
        let place = turn as usize % 40;
        if place < words.len() {
            sum = sum.wrapping_add(words[place]).wrapping_add(u64::from(turn));
        }
    }
    sum
}
