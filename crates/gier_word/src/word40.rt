// Words of 40 bits.
ghost use Rattle.std.specs.Prelude.{◌≡◌, ◌^◌, ◌<◌, ◌↔◌, IsSome, IfSome};
ghost use Rattle.gier_word.specs.Words.{int_of_word, word_of_int};

use crate::Int40;
use std::marker::Model;

/// A word of the machine: 40 bits, as a number below 2^40.
#[derive(Debug, Clone, Copy, PartialEq, Eq)]
pub struct Word40 {
    bits: u64,
}

impl Model for Word40 {
    ghost use Rattle.std.specs.Prelude.{ℕ, ◌<◌, ◌^◌};

    ghost Value = { ℕ };

    ghost view = { λ w. w.bits };

    ghost invariant = { λ w. w.bits < 2 ^ 40 };

    ghost inverse = { λ n. record { bits = n } };
}

const WORDS: u64 = 1 << 40;

// From this word on the words stand for negative numbers.
const FIRST_NEGATIVE: u64 = 1 << 39;

impl Word40 {
    /// The word with these bits, or None where they are no number below 2^40.
    pub fn of(bits: u64) -> Option<Word40>
        ensures some { IsSome result ↔ (bits < 2 ^ 40) }
        ensures value { IfSome result (λ word. word ≡ bits) }
    {
        if bits < WORDS {
            Some(Word40 { bits })
        } else {
            None
        }
    }

    // The word with these bits, which are known to be few enough.
    pub(crate) fn new(bits: u64) -> Word40
        requires { bits < 2 ^ 40 }
        ensures { result ≡ bits }
    {
        Word40 { bits }
    }

    /// The word's bits, below 2^40.
    pub fn bits(self) -> u64
        ensures value { result ≡ self }
        ensures range { result < 2 ^ 40 }
    {
        self.bits
    }

    /// The whole number that the word stands for, in two's complement.
    pub fn int(self) -> Int40
        ensures value { result ≡ int_of_word self }
        ensures back { word_of_int result ≡ self }
    {
        if self.bits < FIRST_NEGATIVE {
            Int40::new(self.bits as i64)
        } else {
            Int40::new(self.bits as i64 - WORDS as i64)
        }
    }
}
