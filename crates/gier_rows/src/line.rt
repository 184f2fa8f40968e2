// One line of print, which is put together before it is printed.
ghost use Rattle.gier_word.specs.Cause.{HasCause};

use arrayvec::ArrayVec;
use gier_io::Sink;
use gier_word::Failed;
use itoa::Buffer;

// No line has more bytes.
const MOST: usize = 160;

const BLANK: u8 = b' ';

/// The bytes of a line. What goes beyond 160 of them is left out.
#[derive(Drop)]
pub(crate) struct Line {
    bytes: ArrayVec<u8, MOST>,
}

impl Line {
    pub(crate) fn new() -> Line {
        Line {
            bytes: ArrayVec::new(),
        }
    }

    fn byte(&mut self, byte: u8) {
        if !self.bytes.is_full() {
            self.bytes.push(byte);
        }
    }

    /// Adds a text.
    pub(crate) fn text(&mut self, text: &[u8]) {
        for byte in text {
            self.byte(*byte);
        }
    }

    /// Adds the digits of a number.
    pub(crate) fn number(&mut self, number: u64) {
        let mut buffer = Buffer::new();
        self.text(buffer.format(number).as_bytes());
    }

    /// Adds the digits of a number with blanks before them, so many characters together or more.
    pub(crate) fn number_in(&mut self, number: u64, width: usize) {
        let mut buffer = Buffer::new();
        let digits = buffer.format(number).as_bytes();
        for _ in 0..width.saturating_sub(digits.len()) {
            self.byte(BLANK);
        }
        self.text(digits);
    }

    /// Adds blanks until the line has so many characters, and at least one.
    pub(crate) fn fill(&mut self, column: usize) {
        self.byte(BLANK);
        for _ in 0..column.saturating_sub(self.bytes.len()) {
            self.byte(BLANK);
        }
    }

    /// Prints the line.
    pub(crate) fn put<K: Sink>(&self, out: &mut K) -> Result<(), Failed>
        ensures { HasCause (K.faults out.old) (K.faults out.new) result }
    {
        out.put(self.bytes.as_slice())
    }
}
