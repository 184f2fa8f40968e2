// Words of a program, read byte by byte in either spelling.
#![tactic(auto)]

mod reader;

pub use gier_symbol::Spelling;
pub use reader::{Fed, WordReader};

#[cfg(test)]
mod tests;
