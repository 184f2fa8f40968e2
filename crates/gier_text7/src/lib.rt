// Pass 7 as a pure function from text 6 to text 7, so far of expressions, evaluations and switches, and what it writes of them. It
// holds definitions and their laws, no code.
#![tactic(auto)]

mod laws;

pub use laws::{law_code_written, law_outbox, law_seen_ahead};
