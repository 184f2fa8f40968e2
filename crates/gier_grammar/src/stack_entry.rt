// An entry of the stack of what is wanted next.
use crate::grammar_symbol::GrammarSymbol;

/// A grammar symbol on the stack.
#[derive(Debug, Clone, Copy)]
pub struct StackEntry {
    pub symbol: GrammarSymbol,
    /// How many pairs of constants may still follow.
    pub left: u64,
}
