// The words of the object: read backward, text 8 gets the addresses that lie behind, and fills the object's tracks.
#![tactic(auto)]

mod laws;
mod object;
mod words;
mod writer;

pub use laws::{law_made, law_objects};
pub use writer::Pass9;

#[cfg(test)]
mod tests;
