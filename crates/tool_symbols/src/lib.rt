//! Texts spelled in words, and whether a pass writes such a text for another: for the tests of passes. It isn't needed to compile or to
//! run a program.
#![tactic(auto)]

mod names;
mod passes;
mod spelled;
#[cfg(test)]
mod tests;

pub use passes::writes;
pub use spelled::{reads, text_of};
