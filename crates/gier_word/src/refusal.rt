// What a call answers where it can't do its work. No text here is printed by a program.

use thiserror::Error;

/// The refusal of an opening call: there is not enough memory.
#[derive(Debug, Clone, Copy, PartialEq, Eq, Error)]
#[error("want of memory")]
pub struct NoMemory;

/// The refusal of a device: a read or a write failed, and the device's count of faults rose.
#[derive(Debug, Clone, Copy, PartialEq, Eq, Error)]
#[error("device fault")]
pub struct Failed;

/// A word that isn't allowed at its place.
///
/// In a text `place` is the number of the symbol in reading order, from 0, and `word` the symbol's first word.
/// In a run they are the address and the word of the order.
#[derive(Debug, Clone, Copy, PartialEq, Eq)]
pub struct Odd {
    pub place: u64,
    pub word: u64,
}
