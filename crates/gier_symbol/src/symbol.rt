// A symbol of a text and its code in two words.
ghost use Rattle.std.specs.Prelude.{◌≡◌, ◌≢◌, ◌<◌, ◌^◌, IfSome, IfNone, slice_index};

use crate::{LAST_ORDER, ORDER_BASE, Tag, is_tag};
use gier_limits::LINES;

/// A symbol of a text.
///
/// The conditions and promises of calls say where the tag is one of the table in `Tag` or an order's, the value is
/// below 2^40 and the line below 2^24.
#[derive(Debug, Clone, Copy, PartialEq, Eq)]
pub struct Symbol {
    pub tag: u16,
    pub value: u64,
    pub line: u32,
}

// All values are below this number of words.
const WORDS: u64 = 1 << 40;

impl Symbol {
    ghost use Rattle.gier_symbol.specs.Symbols.{IsSymbol, code_of, symbol_of_code};
    ghost use Rattle.gier_symbol.specs.Tags.{number_of};
    ghost use Rattle.gier_symbol.specs.declared.symbol.Symbol.{Symbol};

    /// The symbol of this kind, with this value and line.
    pub fn new(kind: Tag, value: u64, line: u32) -> Symbol
        requires value { value < 2 ^ 40 }
        requires line { line < 2 ^ 24 }
        ensures fields { result ≡ record { tag = number_of kind; value = value; line = line } }
        ensures symbol { IsSymbol result }
    {
        Symbol {
            tag: kind.number(),
            value,
            line,
        }
    }

    /// The two words `[tag * 2^24 + line, value]`, each below 2^40.
    pub fn code(self) -> [u64; 2]
        requires { IsSymbol self }
        ensures { result ≡ code_of self }
    {
        [
            u64::from(self.tag) * LINES + u64::from(self.line),
            self.value,
        ]
    }

    /// The symbol with this code, or None where the words are no code of a symbol.
    pub fn decode(words: [u64; 2]) -> Option<Symbol>
        ensures value { result ≡ symbol_of_code (slice_index words 0) (slice_index words 1) }
        ensures some { IfSome result (λ s. IsSymbol s × (code_of s ≡ words)) }
        ensures none { IfNone result ((s : Symbol) → IsSymbol s → code_of s ≢ words) }
    {
        let [head, value] = words;
        let tag = head / LINES;
        if tag > u64::from(ORDER_BASE + LAST_ORDER) || !is_tag(tag as u16) || value >= WORDS {
            return None;
        }
        Some(Symbol {
            tag: tag as u16,
            value,
            line: (head % LINES) as u32,
        })
    }
}
