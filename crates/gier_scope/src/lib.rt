// The faults of scopes: which declarations and uses of identifiers are wrong, and where. It holds definitions and their laws,
// no code.
#![tactic(auto)]

mod laws;

pub use laws::{law_levels, law_scopes};
