// Where the reading of a program stands, and what its steps find. The steps themselves stand in `steps`.
ghost use Rattle.std.specs.Prelude.{◌≡◌, ◌<◌, ◌^◌, IsTrue};
ghost use Rattle.gier_symbol.specs.Tags.{number_of};
ghost use Rattle.gier_symbol.specs.Texts.{stands_in};
ghost use Rattle.gier_pass1.specs.Scan.{began_symbol, here_symbol, began_fault, here_fault, start_state, at_next_byte};
ghost use Rattle.gier_pass1.specs.Scan.{is_start, in_word, line_after};
ghost use Rattle.gier_pass1.specs.StepCounts.{IsLetter};

use crate::bytes::DoubleSignPrefix;
use gier_symbol::{Spelling, Symbol, Tag};
use gier_text::{Fault, FaultKind};

/// What is being read.
#[derive(Debug, Clone, Copy, PartialEq, Eq)]
pub(crate) enum Mode {
    /// Nothing was read yet.
    Start,
    /// A symbol may begin.
    Between,
    /// A sign that may be the first byte of a double one.
    AfterPrefix(DoubleSignPrefix),
    /// A word.
    InWord,
    /// A string, with so many `{` more than `}` so far.
    InString(u32),
    /// A comment.
    InComment,
    /// What is skipped behind an end word.
    InSkipped,
    /// A word that may end what is skipped.
    InSkippedWord,
}

/// Which byte of the program it is, from 0, and in which line it stands, from 1.
#[derive(Debug, Clone, Copy, PartialEq, Eq)]
pub(crate) struct Place {
    pub(crate) at: u32,
    pub(crate) line: u32,
}

/// Where the reading stands.
#[derive(Debug, Clone, Copy, PartialEq, Eq)]
pub(crate) struct State {
    pub(crate) spelling: Spelling,
    pub(crate) mode: Mode,
    // Whether a comment may begin: directly behind `;` or the begin word.
    pub(crate) may_comment: bool,
    // Where the sign, word or string that is being read began.
    pub(crate) began: Place,
    // The place of the next byte.
    pub(crate) here: Place,
}

/// What a step finds.
#[derive(Debug, Clone, Copy, PartialEq, Eq)]
pub(crate) enum Token {
    Nothing,
    Written(Symbol),
    LexError(Fault),
}

/// A step: where the reading stands behind it, what it found, and whether the byte belongs to it.
#[derive(Debug, Clone, Copy, PartialEq, Eq)]
pub(crate) struct Step {
    pub(crate) state: State,
    pub(crate) found: Token,
    pub(crate) taken: bool,
}

/// Before the first byte.
pub(crate) fn start_state() -> State
    ensures { result ≡ start_state }
{
    let first = Place { at: 0, line: 1 };
    State {
        spelling: Spelling::Plain,
        mode: Mode::Start,
        may_comment: false,
        began: first,
        here: first,
    }
}

impl State {
    /// The state at the next byte.
    pub(crate) fn passed(self, byte: u8) -> State
        requires at { self.here.at < 2 ^ 24 }
        requires line { self.here.line < 2 ^ 24 }
        ensures { result ≡ at_next_byte self byte }
    {
        State {
            here: Place {
                at: self.here.at + 1,
                line: line_after(self.here.line, byte),
            },
            ..self
        }
    }

    /// Whether nothing was read yet.
    pub(crate) fn is_start(self) -> bool
        ensures { result ≡ is_start self.mode }
    {
        match self.mode {
            Mode::Start => true,
            _ => false,
        }
    }

    /// Whether a word is being read.
    pub(crate) fn in_word(self) -> bool
        ensures { result ≡ in_word self.mode }
    {
        match self.mode {
            Mode::InWord => true,
            Mode::InSkippedWord => true,
            _ => false,
        }
    }

    /// A symbol whose first byte stands where the sign, word or string began.
    pub(crate) fn began_symbol(self, number: u16) -> Token
        requires line { self.began.line < 2 ^ 24 }
        requires letter { IsTrue (stands_in 1 number) }
        ensures found { result ≡ began_symbol self number }
        ensures letter { IsLetter result }
    {
        Token::Written(Symbol {
            tag: number,
            value: 0,
            line: self.began.line,
        })
    }

    /// A symbol of the byte here.
    pub(crate) fn here_symbol(self, tag: Tag, value: u8) -> Token
        requires line { self.here.line < 2 ^ 24 }
        requires letter { IsTrue (stands_in 1 (number_of tag)) }
        ensures found { result ≡ here_symbol self tag value }
        ensures letter { IsLetter result }
    {
        Token::Written(Symbol::new(tag, u64::from(value), self.here.line))
    }

    /// A fault where the word or string began.
    pub(crate) fn began_fault(self, kind: FaultKind) -> Token
        ensures { result ≡ began_fault self kind }
    {
        Token::LexError(Fault {
            position: self.began.at,
            line: self.began.line,
            kind,
        })
    }

    /// A fault of the byte here.
    pub(crate) fn here_fault(self, kind: FaultKind) -> Token
        ensures { result ≡ here_fault self kind }
    {
        Token::LexError(Fault {
            position: self.here.at,
            line: self.here.line,
            kind,
        })
    }
}

// The line of the byte behind this one.
fn line_after(line: u32, byte: u8) -> u32
    requires { line < 2 ^ 24 }
    ensures { result ≡ line_after line byte }
{
    if byte == b'\n' { line + 1 } else { line }
}
