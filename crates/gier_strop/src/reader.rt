// One word, from the byte behind its first one on. Which names are words is told by `gier_symbol`; comments and skipped
// parts aren't told here.
ghost use Rattle.std.specs.Prelude.{◌≡◌, ◌↔◌, [], ◌∷◌, ◌++◌, ℕ, List, IsTrue, IsSome, IfSome, take};
ghost use Rattle.gier_symbol.specs.Words.{is_next_letter, tag_named};
ghost use Rattle.gier_strop.specs.Reading.{lower, answer_with, answer_before};

use gier_symbol::{Spelling, word_named};
use std::marker::Model;

/// What a byte, or the end, gives behind the first byte of a word.
#[derive(Debug, Clone, Copy, PartialEq, Eq)]
pub enum Fed {
    /// The word isn't ended yet.
    More,
    /// The byte ends the word with this number: the tag of its symbol, or that of the comment word.
    Word(u16),
    /// The byte ends a name that is no word.
    Fault,
    /// The word with this number ended before the byte, which doesn't belong to it.
    WordBefore(u16),
    /// A name that is no word ended before the byte, which doesn't belong to it.
    FaultBefore,
}

// So many letters and more are no word.
const KEPT_LETTERS: usize = 10;

const LOWER_CASE: u8 = b'a' - b'A';

/// Reads one word, and takes no memory.
#[derive(Debug, Drop)]
pub struct WordReader {
    spelling: Spelling,
    // The first letters of the name, in lower case.
    kept: [u8; KEPT_LETTERS],
    len: usize,
}

impl Model for WordReader {
    ghost use Rattle.std.specs.Prelude.{◌≤◌, take};
    ghost use Rattle.gier_strop.specs.Reading.{Reading};

    ghost Value = { Reading };

    ghost view = { λ r. record { spelling = r.spelling; name = take r.len r.kept } };

    ghost invariant = { λ r. r.len ≤ 10 };
}

impl WordReader {
    ghost use Rattle.gier_strop.specs.Reading.{behind, ended_by, Feeds};

    /// A reader that waits for the byte behind the first one, which is `_` or `'`.
    pub fn new(spelling: Spelling) -> WordReader
        ensures { result ≡ behind spelling [] }
    {
        WordReader {
            spelling,
            kept: [0; KEPT_LETTERS],
            len: 0,
        }
    }

    /// Takes the next byte of the program, or None at its end.
    ///
    /// The word is behind the reader once it answers anything but `More`.
    pub fn feed(&mut self, byte: Option<u8>) -> Fed
        ensures { (letters : List ℕ) → self.old ≡ behind self.old.spelling letters
            → Feeds self.old.spelling letters byte result self.new }
    {
        match letter_of(self.spelling, byte) {
            Some(letter) => {
                self.keep(letter);
                Fed::More
            }
            None => self.ended(byte),
        }
    }

    // Keeps one more letter, as long as there may be a word with so many.
    fn keep(&mut self, letter: u8)
        ensures { self.new ≡ record self.old { name = take 10 (self.old.name ++ letter ∷ []) } }
    {
        if self.len < KEPT_LETTERS {
            self.kept[self.len] = letter;
            self.len += 1;
        }
    }

    // The answer where no letter follows.
    fn ended(&self, byte: Option<u8>) -> Fed
        ensures { result ≡ ended_by self.now.spelling (tag_named self.now.name) byte }
    {
        match self.spelling {
            Spelling::Plain => word_before(self.word()),
            Spelling::Quoted => match byte {
                Some(b'\'') => word_with(self.word()),
                _ => Fed::FaultBefore,
            },
        }
    }

    fn word(&self) -> Option<u16>
        ensures { result ≡ tag_named self.now.name }
    {
        word_named(&self.kept[..self.len])
    }
}

// The letter in lower case, where a letter of the spelling's names is fed.
fn letter_of(spelling: Spelling, byte: Option<u8>) -> Option<u8>
    ensures some { IsSome result ↔ IsTrue (is_next_letter spelling byte) }
    ensures letter { IfSome result (λ letter. IfSome byte (λ fed. letter ≡ lower spelling fed)) }
{
    match (spelling, byte) {
        (Spelling::Plain, Some(letter @ b'a'..=b'z')) => Some(letter),
        (Spelling::Quoted, Some(letter @ b'A'..=b'Z')) => Some(letter + LOWER_CASE),
        _ => None,
    }
}

fn word_with(word: Option<u16>) -> Fed
    ensures { result ≡ answer_with word }
{
    match word {
        Some(tag) => Fed::Word(tag),
        None => Fed::Fault,
    }
}

fn word_before(word: Option<u16>) -> Fed
    ensures { result ≡ answer_before word }
{
    match word {
        Some(tag) => Fed::WordBefore(tag),
        None => Fed::FaultBefore,
    }
}
