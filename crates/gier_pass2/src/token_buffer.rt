// A few symbols that one step of the pass gives. What they are isn't told here.
ghost use Rattle.std.specs.Prelude.{◌≡◌, ◌≤◌, ◌<◌, ◌++◌, ◌∷◌, [], All, length, take};
ghost use Rattle.gier_pass2.specs.Letters.{IsWritable};

use gier_symbol::{Symbol, Tag};

// As many as one symbol of the input gives at most: three that waited, a run that it ends, and itself.
const MOST: usize = 5;

/// Symbols that are ready to be written, in order.
#[derive(Debug, Clone, Copy)]
pub(crate) struct TokenBuffer {
    symbols: [Symbol; MOST],
    count: usize,
    // How many bytes the program has.
    bytes: u32,
    ghost within: { count ≤ 5 },
    ghost writable: { All (IsWritable bytes) symbols },
}

impl TokenBuffer {
    ghost use Rattle.gier_pass2.specs.TokensGiven.{buffered};

    pub(crate) fn none(bytes: u32) -> TokenBuffer
        ensures none { buffered result ≡ [] }
        ensures bytes { result.bytes ≡ bytes }
    {
        TokenBuffer {
            symbols: [Symbol::new(Tag::TextEnd, 0, 0); MOST],
            count: 0,
            bytes,
        }
    }

    pub(crate) fn push(&mut self, s: Symbol)
        requires room { length (buffered self.old) < 5 }
        requires writable { IsWritable self.old.bytes s }
        ensures bytes { self.new.bytes ≡ self.old.bytes }
        ensures pushed { buffered self.new ≡ buffered self.old ++ s ∷ [] }
    {
        self.symbols[self.count] = s;
        self.count += 1;
    }

    pub(crate) fn as_slice(&self) -> &[Symbol]
        ensures listed { result.now ≡ buffered self.now }
        ensures writable { All (IsWritable self.now.bytes) result.now }
        ensures few { length result.now ≤ 5 }
    {
        &self.symbols[..self.count]
    }
}
