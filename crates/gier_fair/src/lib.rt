// What all that stands behind the faults may rely on: a program without faults of scopes and types is fair. It holds definitions
// and their laws, no code.
#![tactic(auto)]

mod laws;

pub use laws::{
    law_fair, law_fair_examples, law_fair_expressions, law_fair_scopes, law_fair_types,
};
