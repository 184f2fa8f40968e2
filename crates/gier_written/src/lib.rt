// Texts of the hoisted program said of the program as it was written, which is what the passes read. It holds definitions and their
// laws, no code.
#![tactic(auto)]

mod laws;

pub use laws::{law_renaming_undone, law_written_text4};
