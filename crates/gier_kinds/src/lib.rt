// The types of expressions and their faults, and the errors of a program text. It holds definitions and their laws, no code.
#![tactic(auto)]

mod laws;

pub use laws::{law_errors, law_long, law_types, law_uses};
