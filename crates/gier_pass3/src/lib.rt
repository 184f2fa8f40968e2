// Structure: text 2 is read by a table of what is wanted next, and the constructs that are found get marks.
#![tactic(auto)]

mod laws;
mod lookahead;
mod pass;
mod stack;

pub use laws::law_completion;
pub use pass::Pass3;

#[cfg(test)]
mod tests;
