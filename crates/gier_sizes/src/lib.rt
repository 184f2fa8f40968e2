// How big what is made of a program text of so many bytes is. It holds laws over definitions, no code, and nothing that passes or
// the machine do.
#![tactic(auto)]

mod laws;

pub use laws::{law_many_marks, law_many_symbols, law_symbols, law_text3};
