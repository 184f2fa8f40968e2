// A whole run of a compiled program: one order after another, until one of them ends it.
// What an order does is said elsewhere; here is what a run begins with, why it ends, and what is told of it afterwards.
#![tactic(auto)]

mod ending;
mod orders;
mod runner;
mod settings;

pub use ending::Ending;
pub use runner::Runner;
pub use settings::{Report, Settings};

#[cfg(test)]
mod tests;
