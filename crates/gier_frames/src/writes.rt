// Reads and writes of many words of a region, which know nothing of activations.
ghost use Rattle.std.specs.Prelude.{◌≡◌, ◌+◌, ◌*◌, ◌<◌, ◌≤◌, ◌^◌, ℕ, List, length, replicate, slice_index, vec_capacity};
ghost use Rattle.gier_frames.specs.Reach.{Reaches};
ghost use Rattle.gier_frames.specs.Writes.{with_zeros, words_from, with_values, with_two, with_header, Rewrites};

use gier_region::Region;

// Makes so many words from a place on 0.
pub(crate) fn zero(words: &mut Region, at: u64, count: u64)
    requires { Reaches words.old.words at count }
    ensures { Rewrites words.old.words (with_zeros words.old.words at count) words.new.words }
{
    for k in 0..count {
        words.set(at + k, 0);
    }
}

// Makes all words 0.
pub(crate) fn reset(words: &mut Region)
    ensures words { words.new.words ≡ replicate (length words.old.words) 0 }
{
    let size = words.size();
    words.give_to(0);
    match words.take(size) {
        Ok(_) => words.give_to(0),
        Err(_) => unreachable!(),
    }
}

// Two words side by side.
pub(crate) fn write_two(words: &mut Region, at: u64, first: u64, second: u64)
    requires room { Reaches words.old.words at 2 }
    requires first { first < 2 ^ 40 }
    requires second { second < 2 ^ 40 }
    ensures { Rewrites words.old.words (with_two words.old.words at first second) words.new.words }
{
    words.set(at, first);
    words.set(at + 1, second);
}

// The three words with which each activation begins.
pub(crate) fn write_header(words: &mut Region, at: u64, old: u64, head: u64, end: u64)
    requires room { Reaches words.old.words at 3 }
    requires old { old < 2 ^ 40 }
    requires head { head < 2 ^ 40 }
    requires end { end < 2 ^ 40 }
    ensures { Rewrites words.old.words (with_header words.old.words at old head end) words.new.words }
{
    write_two(words, at, old, head);
    words.set(at + 2, end);
}

// A new activation: its words 0, and its header.
pub(crate) fn make_activation(words: &mut Region, at: u64, room: u64, old: u64, head: u64)
    requires least { 3 ≤ room }
    requires within { Reaches words.old.words at room }
    requires old { old < 2 ^ 40 }
    requires head { head < 2 ^ 40 }
    ensures { Rewrites words.old.words (with_header (with_zeros words.old.words at room) at old head (at + room)) words.new.words }
{
    zero(words, at, room);
    write_header(words, at, old, head, at + room);
}

// Keeps so many words from a place on aside, in room that is there.
pub(crate) fn save(words: &Region, from: u64, count: u64, saved: &mut Vec<u64>)
    requires within { 0 < count → from + count ≤ length words.now.words }
    requires limit { length words.now.words < 2 ^ 24 }
    requires room { count ≤ vec_capacity saved.old }
    ensures saved { saved.new.items ≡ words_from words.now.words from count }
    ensures long { length saved.new.items ≡ count }
    ensures small { (k : ℕ) → slice_index saved.new.items k < 2 ^ 40 }
    ensures capacity { vec_capacity saved.new ≡ vec_capacity saved.old }
{
    saved.clear();
    for k in 0..count {
        saved.push_reserved(words.get(from + k));
    }
}

// Writes the values from a place on.
pub(crate) fn pour(words: &mut Region, at: u64, values: &Vec<u64>)
    requires within { Reaches words.old.words at (length values.now.items) }
    requires small { (k : ℕ) → slice_index values.now.items k < 2 ^ 40 }
    ensures { Rewrites words.old.words (with_values words.old.words at values.now.items (length values.now.items)) words.new.words }
{
    for (k, value) in values.iter().enumerate() {
        words.set(at + k as u64, *value);
    }
}
