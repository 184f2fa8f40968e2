// How many tracks texts and objects take, and where they lie on the drum.
ghost use Rattle.std.specs.Prelude.{◌≡◌, ◌≤◌, ◌^◌};
ghost use Rattle.gier_limits.specs.Areas.{area_tracks, all_tracks, first_of, capacity_of, words_of, object_first};

use crate::limits::{LIMIT, SYMBOLS_ON_TRACK, WORDS_ON_TRACK};

// A text has at most so many symbols for each byte of the program, and so many more.
const GROWTH: u32 = 24;

const MORE: u32 = 64;

// An object has at most so many words for each byte of the program, and `MORE` more.
const OBJECT_GROWTH: u32 = 16;

/// The most symbols that a text of a program of so many bytes, at most 2^24, may have.
pub fn capacity(limit: u32) -> u32
    requires { limit ≤ 2 ^ 24 }
    ensures { result ≡ capacity_of limit }
{
    GROWTH * limit + MORE
}

/// The most words that the object of a program of so many bytes, at most 2^24, may have.
pub fn object_words(bytes: u32) -> u32
    requires { bytes ≤ 2 ^ 24 }
    ensures { result ≡ words_of bytes }
{
    OBJECT_GROWTH * bytes + MORE
}

fn area(limit: u32) -> u32
    requires { limit ≤ 2 ^ 24 }
    ensures { result ≡ area_tracks limit }
{
    capacity(limit).div_ceil(SYMBOLS_ON_TRACK)
}

/// How many tracks a drum needs for programs of so many bytes, at most 2^24: two areas for texts, and the object.
pub fn tracks_for(limit: u32) -> u32
    requires { limit ≤ 2 ^ 24 }
    ensures { result ≡ all_tracks limit }
{
    2 * area(limit) + object_words(limit).div_ceil(WORDS_ON_TRACK)
}

/// The first track of text k, from 1 to 8: texts with an odd number lie in the second area.
pub fn first_track(text: u8) -> u32
    ensures { result ≡ first_of text }
{
    if text % 2 == 1 { area(LIMIT) } else { 0 }
}

/// The first track of the object, behind both areas.
pub fn object_track() -> u32
    ensures { result ≡ object_first }
{
    2 * area(LIMIT)
}
