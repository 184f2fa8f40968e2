// The line of one call, made in place.
ghost use Rattle.std.specs.Prelude.{◌≡◌, ◌+◌, ◌<◌, ◌≤◌, ◌++◌, ◌∷◌, [], length};
ghost use Rattle.std.specs.Fmt.{decimal};
ghost use Rattle.gier_sample.specs.Sample.{call_line};

use std::marker::Model;

// As many bytes as the line of a number of four digits has.
const LONGEST: usize = 11;

// Clauses see its bytes.
#[derive(Drop)]
pub(crate) struct Line {
    bytes: [u8; LONGEST],
    len: usize,
}

impl Model for Line {
    ghost use Rattle.std.specs.Prelude.{◌≤◌, ℕ, List, take};
    ghost use Rattle.gier_sample.specs.declared.line.TheConstants.{LONGEST};

    ghost Value = { List ℕ };

    ghost view = { λ l. take l.len l.bytes };

    ghost invariant = { λ l. l.len ≤ LONGEST };
}

impl Line {
    // The line that calls with this number, which has at most four digits.
    #[tactic(auto, using(crate::proofs::Digits::decimal_short))]
    pub(crate) fn of(number: u16) -> Line
        requires { number < 10000 }
        ensures { result ≡ call_line number }
    {
        let mut line = Line {
            bytes: [0; LONGEST],
            len: 0,
        };
        line.push_all(b"p(s+");
        line.push_number(number);
        line.push_all(b");\n");
        line
    }

    pub(crate) fn as_slice(&self) -> &[u8]
        ensures { result.now ≡ self.now }
    {
        &self.bytes[..self.len]
    }

    fn push(&mut self, byte: u8)
        requires { length self.old < LONGEST }
        ensures { self.new ≡ self.old ++ byte ∷ [] }
    {
        self.bytes[self.len] = byte;
        self.len += 1;
    }

    fn push_all(&mut self, bytes: &[u8])
        requires { length self.old + length bytes.now ≤ LONGEST }
        ensures { self.new ≡ self.old ++ bytes.now }
    {
        for byte in bytes {
            self.push(*byte);
        }
    }

    // Appends the decimal digits.
    #[tactic(auto, using(crate::proofs::Digits::decimal_more, crate::proofs::Digits::decimal_one))]
    fn push_number(&mut self, number: u16)
        requires { length self.old + length (decimal number) ≤ LONGEST }
        ensures { self.new ≡ self.old ++ decimal number }
    {
        if number < 10 {
            self.push(number as u8 + b'0');
            return;
        }
        self.push_number(number / 10);
        self.push((number % 10) as u8 + b'0');
    }
}
