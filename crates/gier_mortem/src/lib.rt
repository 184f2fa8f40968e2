// The lines of a program in which a stopped run was: words of the object are found by their addresses in the text of orders that
// lies on the drum. Which activations were live, and what is printed of them, isn't told here.
#![tactic(auto)]

mod lines;
mod search;
mod stop;

pub use lines::Lines;
pub use stop::LineStop;

#[cfg(test)]
mod tests;
