// The live activations, for the report of a stopped run. Nothing is changed here.
ghost use Rattle.std.specs.Prelude.{◌≡◌, ◌+◌, ◌<◌, ◌≤◌, ◌^◌, suc, length, slice_get, slice_index};
ghost use Rattle.gier_frames.specs.Reach.{IsBase, IsMarkedBase};
ghost use Rattle.gier_frames.specs.Stop.{activations, activations_from, number_from, activation_at, shape_at, back_at};

use crate::Frames;
use crate::walk::BASES;
use gier_region::Region;

/// What an activation is of.
#[derive(Debug, Clone, Copy, PartialEq, Eq)]
pub enum Shape {
    /// The outermost block.
    Program,
    Block,
    Procedure,
    /// The evaluation of an actual by name or of an element of a switch.
    Evaluation,
}

/// A live activation.
#[derive(Debug, Clone, Copy, PartialEq, Eq)]
pub struct Activation {
    pub shape: Shape,
    /// How many words it has; 0 where the top isn't above its base.
    pub words: u32,
    /// The order to return to, from 1 to 2^32 - 1, which stands for all others too; 0 for a program or a block.
    pub back: u32,
}

// The last number of 32 bits.
const LAST: u32 = u32::MAX;

impl Frames {
    /// How many activations there are, the current one and those before it.
    #[tactic(auto, using(crate::proofs::WalkLength::length_activations))]
    pub fn count(&self) -> u32
        ensures { result ≡ length (activations self.now) }
    {
        if !self.entered {
            return 0;
        }
        count_from(&self.words, self.base)
    }

    /// An activation by its number, 0 being the current one, and None exactly where there are no more.
    pub fn activation(&self, at: u32) -> Option<Activation>
        ensures { result ≡ slice_get (activations self.now) at }
    {
        if !self.entered {
            return None;
        }
        find(&self.words, &self.marks, self.top, self.base, at)
    }
}

// How many activations there are from a base on.
#[tactic(auto, using(crate::proofs::WalkLength::number_on, crate::proofs::WalkLength::number_ends))]
fn count_from(words: &Region, base: u64) -> u32
    requires { IsBase words.now.words base }
    ensures { result ≡ number_from (suc base) words.now.words base }
{
    let mut base = base;
    let mut count = 0;
    loop {
        count += 1;
        let old = words.get(base);
        if old >= base {
            return count;
        }
        base = old;
    }
}

// The activation so many before the one at a base.
#[tactic(auto, using(crate::proofs::WalkLength::find_on, crate::proofs::WalkLength::find_ends))]
fn find(words: &Region, marks: &Region, top: u64, base: u64, at: u32) -> Option<Activation>
    requires base { IsMarkedBase words.now.words marks.now.words base }
    requires top { top < 2 ^ 24 }
    ensures { result ≡ slice_get (activations_from (suc base) words.now.words marks.now.words top base) at }
{
    let mut top = top;
    let mut base = base;
    let mut left = at;
    while left > 0 {
        let old = words.get(base);
        if old >= base {
            return None;
        }
        top = base;
        base = old;
        left -= 1;
    }
    Some(one(words, marks, top, base))
}

fn one(words: &Region, marks: &Region, top: u64, base: u64) -> Activation
    requires base { IsMarkedBase words.now.words marks.now.words base }
    requires top { top < 2 ^ 24 }
    ensures { result ≡ activation_at words.now.words marks.now.words top base }
{
    Activation {
        shape: shape_of(words, marks, base),
        words: top.saturating_sub(base) as u32,
        back: back_of(words, marks, base),
    }
}

// The word at a place, and 0 behind the last.
fn word_or_zero(words: &Region, place: u64) -> u64
    ensures value { result ≡ slice_index words.now.words place }
    ensures small { result < 2 ^ 40 }
{
    if place < words.size() {
        return words.get(place);
    }
    0
}

fn shape_of(words: &Region, marks: &Region, base: u64) -> Shape
    requires { IsMarkedBase words.now.words marks.now.words base }
    ensures { result ≡ shape_at words.now.words marks.now.words base }
{
    if words.get(base) >= base {
        return Shape::Program;
    }
    if marks.get(base) == 0 {
        return Shape::Block;
    }
    if word_or_zero(words, base + 1) / BASES == 0 {
        return Shape::Evaluation;
    }
    Shape::Procedure
}

fn back_of(words: &Region, marks: &Region, base: u64) -> u32
    requires { IsMarkedBase words.now.words marks.now.words base }
    ensures { result ≡ back_at words.now.words marks.now.words base }
{
    if words.get(base) >= base || marks.get(base) == 0 {
        return 0;
    }
    let back = word_or_zero(words, base + 3);
    if back == 0 || back > u64::from(LAST) {
        return LAST;
    }
    back as u32
}
