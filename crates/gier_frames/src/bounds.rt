// The bounds and subscripts of arrays as they stand in the words of a region.
ghost use Rattle.std.specs.Prelude.{◌≡◌, ◌+◌, ◌*◌, ◌<◌, ◌≤◌, ◌^◌, ◌&&◌, nat_le, MatchOption, length, slice_index};
ghost use Rattle.gier_frames.specs.Numbers.{excess_number, lower, upper, extent, are_ordered, elements, subscript, are_within};
ghost use Rattle.gier_frames.specs.Numbers.{offset, element_in, element_by, element_at};
ghost use Rattle.gier_frames.specs.Reach.{Reaches};

use crate::Halt;
use crate::walk::BASES;
use gier_region::Region;
use gier_word::Alarm;

// From this word on the words stand for negative numbers.
const FIRST_NEGATIVE: u64 = 1 << 39;

// The most dimensions of an array.
pub(crate) const MOST_DIMENSIONS: u64 = 30;

// The number that a word at a place stands for, and 2^39 more.
fn number_at(words: &Region, place: u64) -> u64
    requires { place < length words.now.words }
    ensures value { result ≡ excess_number (slice_index words.now.words place) }
    ensures range { result < 2 ^ 40 }
{
    let word = words.get(place);
    if word < FIRST_NEGATIVE {
        return word + FIRST_NEGATIVE;
    }
    word - FIRST_NEGATIVE
}

fn lower_at(words: &Region, at: u64, i: u64) -> u64
    requires bounds { Reaches words.now.words at (2 * i + 2) }
    ensures value { result ≡ lower words.now.words at i }
    ensures range { result < 2 ^ 40 }
{
    number_at(words, at + 2 * i)
}

fn upper_at(words: &Region, at: u64, i: u64) -> u64
    requires bounds { Reaches words.now.words at (2 * i + 2) }
    ensures value { result ≡ upper words.now.words at i }
    ensures range { result < 2 ^ 40 }
{
    number_at(words, at + 2 * i + 1)
}

// How many subscripts the i-th pair of bounds allows.
fn extent_at(words: &Region, at: u64, i: u64) -> u64
    requires bounds { Reaches words.now.words at (2 * i + 2) }
    ensures value { result ≡ extent words.now.words at i }
    ensures range { result ≤ 2 ^ 40 }
{
    upper_at(words, at, i).saturating_sub(lower_at(words, at, i)) + 1
}

fn is_ordered(words: &Region, at: u64, i: u64) -> bool
    requires bounds { Reaches words.now.words at (2 * i + 2) }
    ensures { result ≡ nat_le (lower words.now.words at i) (upper words.now.words at i) }
{
    lower_at(words, at, i) <= upper_at(words, at, i)
}

// Whether no upper bound of d pairs lies below its lower bound.
pub(crate) fn have_order(words: &Region, at: u64, d: u64) -> bool
    requires bounds { Reaches words.now.words at (2 * d) }
    ensures { result ≡ are_ordered words.now.words at d }
{
    let mut so_far = true;
    for i in 0..d {
        so_far = so_far & is_ordered(words, at, i);
    }
    so_far
}

// How many elements d pairs of bounds give, and None where they are more than there are words.
#[tactic(auto, using(crate::proofs::Extents::elements_grow))]
pub(crate) fn count_elements(words: &Region, at: u64, d: u64) -> Option<u64>
    requires bounds { Reaches words.now.words at (2 * d) }
    ensures { MatchOption result (length words.now.words < elements words.now.words at d)
        (λ n. (n ≡ elements words.now.words at d) × (n ≤ length words.now.words)) }
{
    let size = words.size();
    let mut count = 1;
    for i in 0..d {
        if count > size {
            return None;
        }
        count *= extent_at(words, at, i);
    }
    if count > size { None } else { Some(count) }
}

fn subscript_at(words: &Region, from: u64, i: u64) -> u64
    requires subscript { Reaches words.now.words from (i + 1) }
    ensures value { result ≡ subscript words.now.words from i }
    ensures range { result < 2 ^ 40 }
{
    number_at(words, from + i)
}

// Whether the i-th subscript lies within its bounds.
fn is_within(words: &Region, at: u64, from: u64, i: u64) -> bool
    requires bounds { Reaches words.now.words at (2 * i + 2) }
    requires subscript { from + i < length words.now.words }
    ensures { result ≡ (nat_le (lower words.now.words at i) (subscript words.now.words from i) && nat_le
        (subscript words.now.words from i) (upper words.now.words at i)) }
{
    let number = subscript_at(words, from, i);
    (lower_at(words, at, i) <= number) & (number <= upper_at(words, at, i))
}

// Whether each of d subscripts lies within its bounds.
fn lie_within(words: &Region, at: u64, from: u64, d: u64) -> bool
    requires bounds { Reaches words.now.words at (2 * d) }
    requires subscripts { from + d ≤ length words.now.words }
    ensures { result ≡ are_within words.now.words at from d }
{
    let mut so_far = true;
    for i in 0..d {
        so_far = so_far & is_within(words, at, from, i);
    }
    so_far
}

// The number of an element from the first on, and None where it passes every size of a stack.
#[tactic(auto, using(crate::proofs::Extents::offset_grows))]
fn offset_by(words: &Region, at: u64, from: u64, d: u64) -> Option<u64>
    requires bounds { Reaches words.now.words at (2 * d) }
    requires subscripts { from + d ≤ length words.now.words }
    ensures { MatchOption result (2 ^ 24 ≤ offset words.now.words at from d)
        (λ n. (n ≡ offset words.now.words at from d) × (n < 2 ^ 24)) }
{
    let mut number = 0;
    for i in 0..d {
        if number >= BASES {
            return None;
        }
        let above = subscript_at(words, from, i).saturating_sub(lower_at(words, at, i));
        number = number * extent_at(words, at, i) + above;
    }
    if number >= BASES { None } else { Some(number) }
}

// The element of the array with the descriptor at `base`, whose number of dimensions is known to agree.
fn find_element(words: &Region, d: u64, base: u64, from: u64) -> Result<u64, Halt>
    requires most { d ≤ 30 }
    requires base { base < length words.now.words }
    requires subscripts { Reaches words.now.words from d }
    ensures { result ≡ element_in words.now.words d base from }
{
    let size = words.size();
    if base + 2 + 2 * d > size {
        return Err(Halt::Odd);
    }
    if !lie_within(words, base + 2, from, d) {
        return Err(Halt::Alarm(Alarm::Subscript));
    }
    let first = words.get(base);
    match offset_by(words, base + 2, from, d) {
        None => Err(Halt::Odd),
        Some(number) => {
            if first + number < size {
                Ok(first + number)
            } else {
                Err(Halt::Odd)
            }
        }
    }
}

// The same, where the number of subscripts is first compared with the descriptor's.
fn compare_dimensions(words: &Region, d: u64, base: u64, from: u64) -> Result<u64, Halt>
    requires most { d ≤ 30 }
    requires base { base < 2 ^ 40 }
    requires subscripts { Reaches words.now.words from d }
    ensures { result ≡ element_by words.now.words d base from }
{
    if base + 1 >= words.size() {
        return Err(Halt::Odd);
    }
    if words.get(base + 1) != d {
        return Err(Halt::Alarm(Alarm::Subscript));
    }
    find_element(words, d, base, from)
}

// The element whose descriptor's place stands in a word, by the d subscripts after it.
pub(crate) fn element(words: &Region, d: u64, place: u64) -> Result<u64, Halt>
    requires d { d < 2 ^ 8 }
    requires place { place < 2 ^ 40 }
    requires limit { length words.now.words < 2 ^ 24 }
    ensures { result ≡ element_at words.now.words d place }
{
    if d == 0 || d > MOST_DIMENSIONS || place + d >= words.size() {
        return Err(Halt::Odd);
    }
    compare_dimensions(words, d, words.get(place), place + 1)
}
