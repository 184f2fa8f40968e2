// The alphabets of texts: which symbols a reader of a text takes for its letters.
ghost use Rattle.std.specs.Prelude.{◌≡◌, ◌↔◌, Bool, IsTrue, IsSome, IfSome};
ghost use Rattle.gier_symbol.specs.Symbols.{IsSymbol};
ghost use Rattle.gier_symbol.specs.Texts.{stands_in};

use crate::{Symbol, stands_in};

/// The letters that a text is read by.
pub trait Alphabet: Sized {
    ghost use Rattle.gier_symbol.specs.declared.symbol.Symbol.{Symbol};

    /// The symbol that a letter is.
    ghost symbol_of: { Self → Symbol };

    /// Which symbols are letters.
    ghost has: { Symbol → Bool };

    /// The letter that the symbol is, or None exactly where it is none.
    fn of(s: Symbol) -> Option<Self>
        requires { IsSymbol s }
        ensures some { IsSome result ↔ IsTrue (has s) }
        ensures back { IfSome result (λ letter. symbol_of letter ≡ s) };

    /// The symbol that the letter is.
    fn symbol(&self) -> Symbol
        ensures value { result ≡ symbol_of self.now }
        ensures symbol { IsSymbol result }
        ensures letter { IsTrue (has result) };
}

/// A symbol of text K, from 1 to 8: its tag stands in that text.
#[derive(Debug, Clone, Copy, PartialEq, Eq)]
pub struct Coded<const K: usize> {
    symbol: Symbol,
    ghost known: { IsSymbol symbol },
    ghost listed: { IsTrue (stands_in K symbol.tag) },
}

impl<const K: usize> Alphabet for Coded<K> {
    ghost symbol_of = { λ letter. letter.symbol };

    ghost has = { λ s. stands_in K s.tag };

    fn of(s: Symbol) -> Option<Coded<K>> {
        if stands_in(K, s.tag) {
            Some(Coded { symbol: s })
        } else {
            None
        }
    }

    fn symbol(&self) -> Symbol {
        self.symbol
    }
}
