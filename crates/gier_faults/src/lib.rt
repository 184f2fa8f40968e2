// Faults as a list in order of position, and that the order in which they are found doesn't matter. It holds definitions and their
// law, no code.
#![tactic(auto)]

mod laws;

pub use laws::law_insertion;
