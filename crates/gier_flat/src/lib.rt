// The flat run of a program's code against what the program means with environments: the law, for a part of the language. The
// definitions stand in specs/; no program runs anything of it.
#![tactic(auto)]

mod law;

pub use law::{law_flat, law_flat_example, law_flat_faultless, law_flat_nested, law_flat_programs};
