// Pass 3 as a pure function from symbols to text 3, and what it writes of a program. It has no code: it says what its law says.
#![tactic(auto)]

mod laws;

pub use laws::law_text3;
