// The grammar of pass 3 as an LL(1) table: what may be wanted next, which symbols it takes, and what is done with them. How a
// stack is driven by the table is said elsewhere.
#![tactic(auto)]

mod grammar_symbol;
mod parse_table;
mod production;
mod right_sides;
mod stack_entry;

pub use grammar_symbol::{GrammarSymbol, Mark};
pub use parse_table::{ParseAction, parse_action};
pub use production::{Action, Production, Role};
pub use stack_entry::StackEntry;
