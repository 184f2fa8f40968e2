// Evaluations of formals by name and of switch elements: how one begins, and how one of a variable ends.
// The definitions in specs/ say what refuses them and what they make of the frames. No object is read here.
#![tactic(auto)]

mod evaluation;
mod wanted;

pub use evaluation::{begin, give, pick};
pub use wanted::Wanted;

#[cfg(test)]
mod tests;
