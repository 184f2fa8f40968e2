// What a value needs so that a table can keep it: a fixed number of words, and the way there and back.
ghost use Rattle.std.specs.Prelude.{◌≡◌, ◌+◌, ◌≤◌, ℕ, List, Option, Some, length, slice_index};
ghost use Rattle.gier_region.specs.Contents.{ChangesOnly};
ghost use Rattle.gier_region.specs.Packing.{words_at};

use crate::Region;
use gier_word::Word40;

/// A value that is kept in a fixed number of words of a region.
///
/// What is read back depends on these words alone: a packed value gives itself, and None comes only from words that no
/// value was packed into.
pub trait Packed: Sized {
    /// How many words a value takes.
    const WORDS: u64;

    ghost WORDS: { ℕ };

    // the value that so many words stand for
    ghost value_of: { List ℕ → Option Self };

    /// Writes the value into the words from a place on.
    fn pack(&self, region: &mut Region, place: u64)
        requires { place + WORDS ≤ length region.old.words }
        ensures packed { value_of (words_at region.new.words place WORDS) ≡ Some self.now }
        ensures only { ChangesOnly place WORDS region.old.words region.new.words }
        ensures used { region.new.used ≡ region.old.used };

    /// The value that stands in the words from a place on, and None where they are no packed value's.
    fn unpack(region: &Region, place: u64) -> Option<Self>
        requires { place + WORDS ≤ length region.now.words }
        ensures { result ≡ value_of (words_at region.now.words place WORDS) };
}

/// A word is kept as itself.
impl Packed for Word40 {
    const WORDS: u64 = 1;

    ghost WORDS = { 1 };

    ghost value_of = { λ words. Some (slice_index words 0) };

    fn pack(&self, region: &mut Region, place: u64) {
        region.set(place, self.bits());
    }

    fn unpack(region: &Region, place: u64) -> Option<Word40> {
        Word40::of(region.get(place))
    }
}
