// The visible activations by level, so that one is found without a walk, and the words that tell which these are.
// Nothing here changes a word of the stack, nor asks when the display must be built anew.
ghost use Rattle.std.specs.Prelude.{◌≡◌, ◌==◌, ◌+◌, ◌<◌, ◌≤◌, ◌^◌, ℕ, [], length, replicate, slice_index, slice_set};
ghost use Rattle.std.specs.Prelude.{vec_capacity, IfOk};
ghost use Rattle.gier_frames.specs.Reach.{IsBase};
ghost use Rattle.gier_frames.specs.Display.{base_or_halt, with_levels_noted, Shows, KeepsLit};

use crate::Halt;
use crate::walk::BASES;
use gier_region::Region;
use gier_word::NoMemory;
use std::alloc::Global;
use std::marker::Model;

// How many levels can be asked for.
const LEVELS: usize = 256;

/// The visible activations by level, as the last walk found them.
#[derive(Drop)]
pub(crate) struct Display {
    // The base of the first activation of each level and 1 more, or 0 where there is none.
    by_level: [u32; LEVELS],
    // From this level on there are none.
    levels: usize,
    // The bases that the walk came by.
    chain: Vec<u32>,
    // 1 for the second header word of each of these; all behind the last are 0.
    lit: Vec<u8>,
    size: usize,
}

impl Model for Display {
    ghost use Rattle.std.specs.Prelude.{◌≡◌, ◌<◌, ◌≤◌, ◌^◌, ℕ, length, slice_index, vec_capacity};
    ghost use Rattle.gier_frames.specs.Display.{Shown};

    ghost Value = { Shown };

    ghost view = { λ d. record { by_level = d.by_level; chain = d.chain.items; lit = d.lit.items; size = d.size } };

    ghost invariant = { λ d. ((level : ℕ) → d.levels ≤ level → slice_index d.by_level level ≡ 0) × (d.levels ≤ 256)
        × (length d.lit.items ≤ d.size) × (d.size ≤ vec_capacity d.lit) × (d.size ≤ vec_capacity d.chain) × (d.size < 2 ^ 24) };
}

impl Display {
    /// A display for so many words, fewer than 2^24, which shows no activation. It touches no memory but its own levels.
    #[tactic(auto, using(crate::proofs::DisplayBuild::none_at))]
    pub(crate) fn open(alloc: Global, words: u32) -> Result<Display, NoMemory>
        requires { words < 2 ^ 24 }
        ensures { IfOk result (λ display. display.size ≡ words) }
    {
        let size = words as usize;
        let Ok(chain) = Vec::with_capacity(alloc, size) else {
            return Err(NoMemory);
        };
        match Vec::with_capacity(alloc, size) {
            Ok(lit) => Ok(Display {
                by_level: no_levels(),
                levels: 0,
                chain,
                lit,
                size,
            }),
            Err(_) => Err(NoMemory),
        }
    }

    /// The base of the visible activation of a level, and Odd where there is none.
    #[inline]
    pub(crate) fn find(&self, level: u8) -> Result<u64, Halt>
        ensures base { result ≡ base_or_halt (slice_index self.now.by_level level) }
        ensures range { IfOk result (λ base. base < 2 ^ 32) }
    {
        let after = self.by_level[usize::from(level)];
        if after == 0 {
            return Err(Halt::Odd);
        }
        Ok(u64::from(after - 1))
    }

    /// Builds the display anew for the activation at a base.
    #[tactic(auto, using(crate::proofs::DisplayBuild::display_walk))]
    pub(crate) fn build(&mut self, words: &Region, base: u64)
        requires size { self.old.size ≡ length words.now.words }
        requires base { IsBase words.now.words base }
        ensures shows { Shows self.new words.now.words base }
        ensures size { self.new.size ≡ self.old.size }
    {
        self.forget();
        let mut base = base;
        while base + 1 < words.size() {
            let head = words.get(base + 1);
            self.note(base, head / BASES);
            if head % BASES >= base {
                return;
            }
            base = head % BASES;
        }
    }

    /// Writes a word of the stack, and builds the display of the activation at a base anew where it rests on this word.
    #[inline]
    pub(crate) fn write(&mut self, words: &mut Region, base: u64, place: u64, word: u64)
        requires size { self.old.size ≡ length words.old.words }
        requires base { IsBase words.old.words base }
        requires place { place < length words.old.words }
        requires word { word < 2 ^ 40 }
        requires shown { Shows self.old words.old.words base }
        ensures words { words.new.words ≡ slice_set words.old.words place word }
        ensures shows { Shows self.new words.new.words base }
        ensures size { self.new.size ≡ self.old.size }
    {
        words.set(place, word);
        if self.rests_on(place) {
            self.build(words, base);
        }
    }

    // Whether the display was built from the word at a place.
    #[inline]
    fn rests_on(&self, place: u64) -> bool
        requires { place < 2 ^ 24 }
        ensures { result ≡ (slice_index self.now.lit place == 1) }
    {
        let place = place as usize;
        place < self.lit.len() && self.lit[place] == 1
    }

    // Shows none.
    fn forget(&mut self)
        ensures by_level { (level : ℕ) → slice_index self.new.by_level level ≡ 0 }
        ensures levels { length self.new.by_level ≡ 256 }
        ensures chain { self.new.chain ≡ [] }
        ensures size { self.new.size ≡ self.old.size }
    {
        self.by_level[..self.levels].fill(0);
        self.levels = 0;
        darken(&mut self.lit, &self.chain);
        self.chain.clear();
    }

    // Takes in the next activation of the walk.
    fn note(&mut self, base: u64, level: u64)
        requires base { base + 1 < self.old.size }
        requires room { length self.old.chain < self.old.size }
        ensures by_level { self.new.by_level ≡ with_levels_noted self.old.by_level level base }
        ensures chain { length self.new.chain ≡ length self.old.chain + 1 }
        ensures lit { slice_index self.new.lit (base + 1) ≡ 1 }
        ensures kept { KeepsLit self.old.lit self.new.lit }
        ensures size { self.new.size ≡ self.old.size }
    {
        self.chain.push_reserved(base as u32);
        light(&mut self.lit, base as usize + 1);
        self.show(base, level);
    }

    // Only the first activation of a level is visible.
    fn show(&mut self, base: u64, level: u64)
        requires { base < 2 ^ 24 }
        ensures by_level { self.new.by_level ≡ with_levels_noted self.old.by_level level base }
        ensures rest { self.new ≡ record self.old { by_level = self.new.by_level } }
    {
        if level >= LEVELS as u64 {
            return;
        }
        let level = level as usize;
        if self.by_level[level] == 0 {
            self.by_level[level] = base as u32 + 1;
            self.levels = self.levels.max(level + 1);
        }
    }
}

fn no_levels() -> [u32; LEVELS]
    ensures { result ≡ replicate 256 0 }
{
    [0; LEVELS]
}

// Marks a place, up to which memory is touched.
fn light(lit: &mut Vec<u8>, place: usize)
    requires { place < vec_capacity lit.old }
    ensures lit { slice_index lit.new.items place ≡ 1 }
    ensures kept { KeepsLit lit.old.items lit.new.items }
    ensures capacity { vec_capacity lit.old ≤ vec_capacity lit.new }
    ensures length { (size : ℕ) → length lit.old.items ≤ size → place < size → length lit.new.items ≤ size }
{
    if place < lit.len() {
        lit[place] = 1;
        return;
    }
    match lit.resize(place, 0) {
        Ok(()) => lit.push_reserved(1),
        Err(_) => unreachable!(),
    }
}

// Marks the second header words of these activations no more.
fn darken(lit: &mut Vec<u8>, chain: &Vec<u32>)
    ensures length { length lit.new.items ≡ length lit.old.items }
    ensures capacity { vec_capacity lit.new ≡ vec_capacity lit.old }
{
    for base in chain.iter() {
        let place = *base as usize + 1;
        if place < lit.len() {
            lit[place] = 0;
        }
    }
}
