// Single words of the frames, as the orders read and write them.
ghost use Rattle.std.specs.Prelude.{◌≡◌, ◌+◌, ◌<◌, ◌≤◌, ◌^◌, ◌&&◌, ℕ, true, nat_lt, nat_le, List, Ok, Err, IfOk, OnErr, length};
ghost use Rattle.std.specs.Prelude.{slice_index};
ghost use Rattle.gier_frames.specs.Refusals.{is_call};
ghost use Rattle.gier_frames.specs.Effects.{after_write};
ghost use Rattle.gier_order.specs.Flat.Row.{Row};
ghost use Rattle.gier_order.specs.Flat.Rows.{word_at, local as local_row, in_level, cell_pair};
ghost use Rattle.gier_exec.specs.Registers.{Registers};
ghost use Rattle.gier_exec.specs.Rows.{regs_of};
ghost use Rattle.gier_exec.specs.Following.{RefinesValue, word_of};
ghost use Rattle.gier_exec.specs.declared.stop.Stop.TheVariants.{Odd};

use crate::stop::Stop;
use gier_frames::{Frames, Halt};

/// The word at an address of the current activation.
#[inline(always)]
#[tactic(auto, using(crate::proofs::FrameReads::here_refused))]
pub(crate) fn local(frames: &Frames, address: u32) -> Result<u64, Stop>
    ensures small { IfOk result (λ word. word < 2 ^ 40) }
    ensures found { frames.now.entered ≡ true → result ≡ word_of frames.now (frames.now.base + address) }
    ensures row { (code input : List ℕ) (m : Registers) (go : ℕ → Row) → frames.now.entered ≡ true
        → RefinesValue (local_row code (length frames.now.words) (regs_of m frames.now input) address go) go result }
{
    match frames.here(address) {
        Ok(place) => read(frames, place),
        Err(halt) => Err(Stop::from(halt)),
    }
}

/// The word at a place.
#[inline(always)]
#[tactic(auto, using(crate::proofs::FrameReads::word_refused))]
pub(crate) fn read(frames: &Frames, place: u64) -> Result<u64, Stop>
    ensures small { IfOk result (λ word. word < 2 ^ 40) }
    ensures found { frames.now.entered ≡ true → result ≡ word_of frames.now place }
    ensures row { (code input : List ℕ) (m : Registers) (go : ℕ → Row) → frames.now.entered ≡ true
        → RefinesValue (word_at code (length frames.now.words) (regs_of m frames.now input) place go) go result }
{
    match frames.get(place) {
        Ok(word) => Ok(word),
        Err(halt) => Err(Stop::from(halt)),
    }
}

/// The place at an address in the visible activation of a level.
#[inline(always)]
#[tactic(auto, using(crate::proofs::FrameReads::cell_answers))]
pub(crate) fn place_of(frames: &Frames, level: u8, address: u32) -> Result<u64, Stop>
    ensures small { IfOk result (λ place. place < 2 ^ 40) }
    ensures row { (code input : List ℕ) (m : Registers) (go : ℕ → Row) → frames.now.entered ≡ true
        → RefinesValue (in_level code (length frames.now.words) (regs_of m frames.now input) level (λ base. go (base + address))) go
        result }
{
    match frames.cell(level, address) {
        Ok(place) => as_word(place),
        Err(halt) => Err(Stop::from(halt)),
    }
}

/// The place at an address in the current activation.
#[inline(always)]
#[tactic(auto, using(crate::proofs::FrameReads::here_refused, crate::proofs::FrameReads::here_small))]
pub(crate) fn here(frames: &Frames, address: u32) -> Result<u64, Stop>
    ensures small { IfOk result (λ place. place < 2 ^ 40) }
    ensures place { frames.now.entered ≡ true → result ≡ Ok (frames.now.base + address) }
{
    match frames.here(address) {
        Ok(place) => as_word(place),
        Err(halt) => Err(Stop::from(halt)),
    }
}

/// A place as a word, which R and Q may be.
#[inline]
pub(crate) fn as_word(place: u64) -> Result<u64, Stop>
    ensures small { IfOk result (λ word. word < 2 ^ 40) }
    ensures same { place < 2 ^ 40 → result ≡ Ok place }
{
    if place < WORDS {
        Ok(place)
    } else {
        Err(Stop::Odd)
    }
}

/// The two words from an address on in the visible activation of a level: an address of the object, and a base.
pub(crate) fn read_pair(frames: &Frames, level: u8, address: u32) -> Result<(u64, u64), Stop>
    ensures first { IfOk result (λ pair. pair.0 < 2 ^ 40) }
    ensures second { IfOk result (λ pair. pair.1 < 2 ^ 40) }
    ensures row { (code input : List ℕ) (m : Registers) (go : ℕ → ℕ → Row) → frames.now.entered ≡ true
        → RefinesValue (cell_pair code (length frames.now.words) (regs_of m frames.now input) level address go)
        (λ pair. go pair.0 pair.1)
        result }
{
    let place = match place_of(frames, level, address) {
        Ok(place) => place,
        Err(stop) => return Err(stop),
    };
    let first = match read(frames, place) {
        Ok(word) => word,
        Err(stop) => return Err(stop),
    };
    match read(frames, place + 1) {
        Ok(second) => Ok((first, second)),
        Err(stop) => Err(stop),
    }
}

/// Writes a word at a place.
#[inline(always)]
pub(crate) fn write(frames: &mut Frames, place: u64, word: u64) -> Result<(), Stop>
    requires { word < 2 ^ 40 }
    ensures size { length frames.new.words ≡ length frames.old.words }
    ensures odd { OnErr result (frames.new ≡ frames.old) }
    ensures writes { frames.old.entered ≡ true → place < length frames.old.words → (result ≡ Ok tt)
        × (frames.new ≡ after_write frames.old place word) }
    ensures refused { length frames.old.words ≤ place → result ≡ Err Odd }
{
    match frames.set(place, word) {
        Ok(()) => Ok(()),
        Err(halt) => Err(Stop::from(halt)),
    }
}

/// Whether an activation of a procedure or an evaluation can be entered, apart from the free words.
pub(crate) fn can_enter(frames: &Frames, room: u32, outer: u64, from: u32, count: u32) -> bool
    ensures { frames.now.entered ≡ true → result ≡ is_call (length frames.now.words) room outer (frames.now.base + from) count }
{
    if count > MOST_COUNT || room < CALL_HEADER + count || frames.get(outer).is_err() {
        return false;
    }
    let Ok(first) = here(frames, from) else {
        return false;
    };
    count < 2 || frames.get(first + u64::from(count / 2 * 2) - 1).is_ok()
}

/// Whether a label of the activation at `base` can be gone to.
pub(crate) fn can_go(frames: &Frames, base: u64) -> bool
    requires { base < 2 ^ 40 }
    ensures { frames.now.entered ≡ true → result
        ≡ (nat_lt (base + 2) (length frames.now.words) && nat_le (slice_index frames.now.words (base + 2))
        (length frames.now.words)) }
{
    match frames.get(base + END) {
        Ok(top) => top == 0 || frames.get(top - 1).is_ok(),
        Err(_) => false,
    }
}

// Words are below this.
const WORDS: u64 = 1 << 40;

// The greatest number that tells what a procedure takes.
pub(crate) const MOST_COUNT: u32 = 511;

// The words of a header with the order to return to and what is wanted.
const CALL_HEADER: u32 = 5;

// Where a header tells the first word after its activation.
const END: u64 = 2;
