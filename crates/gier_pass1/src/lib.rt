// The first pass: from the bytes of a program text to its symbols, one letter, digit, sign, word or string byte each.
#![tactic(auto)]

mod bytes;
mod emit;
mod program;
mod read;
mod scanner;
mod state;
mod steps;

pub use read::{Pass1, ReadStop};

#[cfg(test)]
mod tests;
