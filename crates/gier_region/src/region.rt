// A list of words, of which memory is touched only up to the highest word in use.
// It knows nothing of what the words stand for.
ghost use Rattle.std.specs.Prelude.{◌≡◌, ◌+◌, ◌<◌, ◌≤◌, ◌^◌, ◌↔◌, ◌⊎◌, ℕ, length, slice_index, OnErr, IfOk, IsErr, OnOk};
ghost use Rattle.std.specs.Prelude.{vec_capacity};
ghost use Rattle.gier_region.specs.Contents.{fresh, with_taken, with_word};

use gier_word::NoMemory;
use std::alloc::Global;
use std::marker::Model;

/// The refusal for want of room in a region or a table.
#[derive(Debug, Clone, Copy, PartialEq, Eq)]
pub struct Full;

/// A list of words below 2^40, the first of which are used.
///
/// Its memory is taken at opening, and no later call takes any.
#[derive(Drop)]
pub struct Region {
    // The words that were touched; all behind them are 0.
    touched: Vec<u64>,
    used: usize,
    size: usize,
}

impl Model for Region {
    ghost use Rattle.std.specs.Prelude.{◌<◌, ◌≤◌, ◌^◌, ℕ, length, slice_index, vec_capacity};
    ghost use Rattle.gier_region.specs.Contents.{Contents, zero_filled};

    ghost Value = { Contents };

    ghost view = { λ r. record { words = zero_filled r.touched.items r.size; used = r.used } };

    ghost invariant = { λ r. (r.used ≤ r.size) × (length r.touched.items ≤ r.size) × (r.size ≤ vec_capacity r.touched)
        × ((k : ℕ) → slice_index r.touched.items k < 2 ^ 40) };
}

impl Region {
    /// A region of so many words, all 0 and none used. It touches no memory.
    pub fn open(alloc: Global, words: u64) -> Result<Region, NoMemory>
        ensures { IfOk result (λ r. r ≡ fresh words) }
    {
        let size = words as usize;
        match Vec::with_capacity(alloc, size) {
            Ok(touched) => Ok(Region {
                touched,
                used: 0,
                size,
            }),
            Err(_) => Err(NoMemory),
        }
    }

    /// How many words are used, those from place 0 on.
    #[inline]
    pub fn used(&self) -> u64
        ensures used { result ≡ self.now.used }
        ensures within { result ≤ length self.now.words }
    {
        self.used as u64
    }

    /// How many words there are.
    #[inline]
    pub fn size(&self) -> u64
        ensures { result ≡ length self.now.words }
    {
        self.size as u64
    }

    /// The word at a place below the size, used or not.
    #[inline]
    pub fn get(&self, place: u64) -> u64
        requires { place < length self.now.words }
        ensures word { result ≡ slice_index self.now.words place }
        ensures small { result < 2 ^ 40 }
        ensures size { length self.now.words < 2 ^ 64 }
    {
        let place = place as usize;
        if place < self.touched.len() {
            self.touched[place]
        } else {
            0
        }
    }

    /// Writes the word at a place below the size, used or not.
    #[inline]
    pub fn set(&mut self, place: u64, word: u64)
        requires place { place < length self.old.words }
        requires small { word < 2 ^ 40 }
        ensures written { self.new ≡ with_word self.old place word }
        ensures size { length self.old.words < 2 ^ 64 }
    {
        let place = place as usize;
        if place < self.touched.len() {
            self.touched[place] = word;
        } else {
            reach(&mut self.touched, place, word);
        }
    }

    /// Uses the next `n` words, makes them 0 and gives the place of the first.
    ///
    /// It refuses exactly where fewer than `n` words are unused, and nothing changes then.
    pub fn take(&mut self, n: u64) -> Result<u64, Full>
        ensures place { IfOk result (λ at. at ≡ self.old.used) }
        ensures taken { OnOk result (self.new ≡ with_taken self.old n) }
        ensures full { IsErr result ↔ (length self.old.words < self.old.used + n) }
        ensures err { OnErr result (self.new ≡ self.old) }
    {
        let from = self.used;
        if n > (self.size - from) as u64 {
            return Err(Full);
        }
        let end = from + n as usize;
        clear(&mut self.touched, from, end);
        self.used = end;
        Ok(from as u64)
    }

    /// Gives back all words from `mark` on, which isn't above the number used. They keep what they hold.
    pub fn give_to(&mut self, mark: u64)
        requires { mark ≤ self.old.used }
        ensures { self.new ≡ record self.old { used = mark } }
    {
        self.used = mark as usize;
    }
}

// Touches all words up to a place, and writes that one.
#[cold]
fn reach(touched: &mut Vec<u64>, place: usize, word: u64)
    requires behind { length touched.old.items ≤ place }
    requires room { place < vec_capacity touched.old }
    ensures length { length touched.new.items ≡ place + 1 }
    ensures written { slice_index touched.new.items place ≡ word }
    ensures kept { (k : ℕ) → k < place → slice_index touched.new.items k ≡ slice_index touched.old.items k }
    ensures capacity { vec_capacity touched.old ≤ vec_capacity touched.new }
{
    match touched.resize(place, 0) {
        Ok(()) => touched.push_reserved(word),
        Err(_) => unreachable!(),
    }
}

// Makes the words from one place up to another 0, where all behind the touched ones are 0 already.
fn clear(touched: &mut Vec<u64>, from: usize, end: usize)
    requires { from ≤ end }
    ensures kept { (k : ℕ) → (k < from) ⊎ (end ≤ k) → slice_index touched.new.items k ≡ slice_index touched.old.items k }
    ensures zero { (k : ℕ) → from ≤ k → k < end → slice_index touched.new.items k ≡ 0 }
    ensures length { length touched.new.items ≤ length touched.old.items }
    ensures capacity { vec_capacity touched.new ≡ vec_capacity touched.old }
{
    if end <= touched.len() {
        touched[from..end].fill(0);
    } else if from < touched.len() {
        touched.truncate(from);
    }
}
