// Bounded lists of packed values, each in its own words of a region.
ghost use Rattle.std.specs.Prelude.{◌≡◌, ◌+◌, ◌*◌, ◌<◌, ◌≤◌, ◌↔◌, ◌++◌, [], ◌∷◌, ℕ, List, Option, Some, length, take};
ghost use Rattle.std.specs.Prelude.{slice_set, IfOk, OnOk, OnErr, IsErr};
ghost use Rattle.gier_region.specs.Contents.{with_taken, ChangesOnly};
ghost use Rattle.gier_region.specs.Packing.{LiesIn, entry, entries};

use crate::{Full, Packed, Region};
use std::marker::{Model, PhantomData};

/// A list of at most `capacity` packed values.
///
/// It holds what was pushed, set and cut, as long as no other call changes its words of the region.
#[derive(Drop)]
pub struct Table<T: Packed> {
    base: u64,
    capacity: u64,
    len: u64,
    of: PhantomData<T>,
}

impl<T: Packed> Model for Table<T> {
    ghost use Rattle.std.specs.Prelude.{◌+◌, ◌*◌, ◌<◌, ◌≤◌, ◌^◌};
    ghost use Rattle.gier_region.specs.Packing.{Extent};

    ghost Value = { Extent };

    ghost view = { λ t. record { base = t.base; capacity = t.capacity; len = t.len } };

    ghost invariant = { λ t. (t.len ≤ t.capacity) × (t.base + t.capacity * T.WORDS < 2 ^ 64) };
}

impl<T: Packed> Table<T> {
    /// An empty table, which takes the words of `capacity` entries from the region and no more.
    ///
    /// It refuses exactly where the region hasn't so many unused words, and nothing changes then.
    pub fn open(region: &mut Region, capacity: u64) -> Result<Table<T>, Full>
        ensures empty { IfOk result (λ t. t ≡ record { base = region.old.used; capacity = capacity; len = 0 }) }
        ensures taken { OnOk result (region.new ≡ with_taken region.old (capacity * T.WORDS)) }
        ensures full { IsErr result ↔ (length region.old.words < region.old.used + capacity * T.WORDS) }
        ensures err { OnErr result (region.new ≡ region.old) }
    {
        let words = u128::from(capacity) * u128::from(T::WORDS);
        if words > u128::from(region.size()) {
            return Err(Full);
        }
        let base = region.take(words as u64)?;
        Ok(Table {
            base,
            capacity,
            len: 0,
            of: PhantomData,
        })
    }

    /// How many entries there are.
    pub fn len(&self) -> u64
        ensures len { result ≡ self.now.len }
        ensures within { result ≤ self.now.capacity }
    {
        self.len
    }

    /// The entry with a number below the length, from 0, and None only where its words are no packed value's.
    pub fn get(&self, region: &Region, at: u64) -> Option<T>
        requires at { at < self.now.len }
        requires room { LiesIn T.WORDS self.now region.now.words }
        ensures { result ≡ entry T.value_of T.WORDS self.now region.now.words at }
    {
        T::unpack(region, self.base + at * T::WORDS)
    }

    /// Keeps the first `len` entries, which is not above the length.
    pub fn truncate(&mut self, len: u64)
        requires { len ≤ self.old.len }
        ensures cut { self.new ≡ record self.old { len = len } }
        ensures entries { (words : List ℕ)
            → entries T.value_of T.WORDS self.new words ≡ take len (entries T.value_of T.WORDS self.old words) }
    {
        self.len = len;
    }
}

impl<T: Packed + Drop> Table<T> {
    /// Appends an entry; refused exactly where the table holds its capacity, and nothing changes then.
    pub fn try_push(&mut self, region: &mut Region, item: T) -> Result<(), Full>
        requires room { LiesIn T.WORDS self.old region.old.words }
        ensures full { IsErr result ↔ (self.old.len ≡ self.old.capacity) }
        ensures len { OnOk result (self.new ≡ record self.old { len = self.old.len + 1 }) }
        ensures entries { OnOk result (entries T.value_of T.WORDS self.new region.new.words
            ≡ entries T.value_of T.WORDS self.old region.old.words ++ Some item ∷ []) }
        ensures only { OnOk result (ChangesOnly
            (self.old.base + self.old.len * T.WORDS) T.WORDS region.old.words region.new.words) }
        ensures used { region.new.used ≡ region.old.used }
        ensures table { OnErr result (self.new ≡ self.old) }
        ensures region { OnErr result (region.new ≡ region.old) }
    {
        if self.len == self.capacity {
            return Err(Full);
        }
        item.pack(region, self.base + self.len * T::WORDS);
        self.len += 1;
        Ok(())
    }

    /// Replaces the entry with a number below the length, from 0.
    pub fn set(&mut self, region: &mut Region, at: u64, item: T)
        requires at { at < self.old.len }
        requires room { LiesIn T.WORDS self.old region.old.words }
        ensures table { self.new ≡ self.old }
        ensures entries { entries T.value_of T.WORDS self.new region.new.words
            ≡ slice_set (entries T.value_of T.WORDS self.old region.old.words) at (Some item) }
        ensures only { ChangesOnly (self.old.base + at * T.WORDS) T.WORDS region.old.words region.new.words }
        ensures used { region.new.used ≡ region.old.used }
    {
        item.pack(region, self.base + at * T::WORDS);
    }
}
