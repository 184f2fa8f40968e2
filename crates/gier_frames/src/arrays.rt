// Arrays in the frames: their descriptors and elements.
ghost use Rattle.std.specs.Prelude.{◌≡◌, ◌+◌, ◌*◌, ◌<◌, ◌≤◌, ◌^◌, ℕ, length, slice_index, slice_set, vec_capacity, IfOk, OnOk};
ghost use Rattle.std.specs.Prelude.{OnErr};
ghost use Rattle.gier_frames.specs.Answers.{Answers};
ghost use Rattle.gier_frames.specs.Refusals.{is_array, array_refusal, elements_refusal};
ghost use Rattle.gier_frames.specs.Effects.{with_array, array_words};
ghost use Rattle.gier_frames.specs.Numbers.{elements};
ghost use Rattle.gier_frames.specs.Walk.{element_of};
ghost use Rattle.gier_frames.specs.Reach.{Reaches};
ghost use Rattle.gier_frames.specs.Writes.{with_zeros, words_from, with_values, with_two};

use crate::bounds::{MOST_DIMENSIONS, count_elements, element, have_order};
use crate::{Frames, Halt, writes};
use gier_region::Region;
use gier_word::Alarm;

impl Frames {
    /// Takes the elements of an array with d dimensions from the free words, all 0, and writes its descriptor.
    ///
    /// The descriptor comes to `place` and the d pairs of bounds stand from `from` on, both counted from the current base.
    /// Odd where there is no activation, d isn't 1 to 30, or one of these words isn't in the stack; the alarm `bounds`
    /// where an upper bound lies below its lower one; the alarm `stack` where the elements are more than the free words.
    pub fn array(&mut self, d: u8, place: u32, from: u32) -> Result<(), Halt>
        ensures refused { Answers (array_refusal self.old d place from) result }
        ensures effect { OnOk result (self.new ≡ with_array self.old d place from) }
        ensures err { OnErr result (self.new ≡ self.old) }
    {
        let d = u64::from(d);
        let place = self.base + u64::from(place);
        let from = self.base + u64::from(from);
        if !self.entered || !can_hold(self.words.size(), d, place, from, self.base) {
            return Err(Halt::Odd);
        }
        let count = elements_for(&self.words, from, d, self.top)?;
        writes::save(&self.words, from, 2 * d, &mut self.saved);
        make_array(&mut self.words, &self.saved, d, place, self.top, count);
        self.words.set(self.base + 2, self.top + count);
        self.top += count;
        self.greatest = self.greatest.max(self.top);
        self.display.build(&self.words, self.base);
        Ok(())
    }

    /// The place of an element, whose array's descriptor has its place in the word at `place` from the current base, and
    /// whose d subscripts stand after that word.
    ///
    /// The alarm `subscript` where the array has another number of dimensions, or where a subscript isn't within its
    /// bounds. Odd where there is no activation, d isn't 1 to 30, or a word that is read or the element isn't in the stack.
    pub fn index(&self, d: u8, place: u32) -> Result<u64, Halt>
        ensures { result ≡ element_of self.now d place }
    {
        if !self.entered {
            return Err(Halt::Odd);
        }
        element(&self.words, u64::from(d), self.base + u64::from(place))
    }
}

// Whether the words of a descriptor, of its bounds and of the header are in the stack.
fn can_hold(size: u64, d: u64, place: u64, from: u64, base: u64) -> bool
    requires d { d < 2 ^ 8 }
    requires place { place < 2 ^ 40 }
    requires from { from < 2 ^ 40 }
    requires base { base < 2 ^ 40 }
    ensures { result ≡ is_array size d place from base }
{
    if d == 0 || d > MOST_DIMENSIONS {
        return false;
    }
    if place + 2 + 2 * d > size {
        return false;
    }
    if from + 2 * d > size {
        return false;
    }
    base + 2 < size
}

// How many elements there are, where they fit.
fn elements_for(words: &Region, from: u64, d: u64, top: u64) -> Result<u64, Halt>
    requires bounds { Reaches words.now.words from (2 * d) }
    requires top { top < 2 ^ 24 }
    ensures refused { Answers (elements_refusal words.now.words from d top) result }
    ensures count { IfOk result (λ n. (n ≡ elements words.now.words from d) × (top + n ≤ length words.now.words)) }
{
    if !have_order(words, from, d) {
        return Err(Halt::Alarm(Alarm::Bounds));
    }
    match count_elements(words, from, d) {
        None => Err(Halt::Alarm(Alarm::Stack)),
        Some(count) => {
            if top + count > words.size() {
                Err(Halt::Alarm(Alarm::Stack))
            } else {
                Ok(count)
            }
        }
    }
}

// The elements, all 0, and the descriptor with the bounds that were kept aside.
fn make_array(words: &mut Region, bounds: &Vec<u64>, d: u64, place: u64, top: u64, count: u64)
    requires d { d ≤ 30 }
    requires place { place + 2 + length bounds.now.items ≤ length words.old.words }
    requires top { Reaches words.old.words top count }
    requires small { (k : ℕ) → slice_index bounds.now.items k < 2 ^ 40 }
    ensures words { words.new.words ≡ with_values (with_two (with_zeros words.old.words top count) place top d)
        (place + 2) bounds.now.items
        (length bounds.now.items) }
    ensures size { length words.new.words ≡ length words.old.words }
{
    writes::zero(words, top, count);
    writes::write_two(words, place, top, d);
    writes::pour(words, place + 2, bounds);
}
