// Assembling: identifiers, numbers and parameter commas from letters, digits and signs.
#![tactic(auto)]

mod commas;
mod laws;
mod names;
mod pass;
mod runs;
mod token_buffer;
mod writing;

pub use laws::{law_characters, law_spelled};
pub use pass::Pass2;

#[cfg(test)]
mod tests;
