// Pass 4 as a pure function from text 3 to text 4, and what it writes of a program. It has no code: it says what its laws say.
#![tactic(auto)]

mod laws;

pub use laws::{law_text4, law_text4_examples};
