// A word for each label number, found by the number, in a list of the tables. What the words mean isn't told here.
#![tactic(auto)]

mod labels;

pub use labels::{FIRST_OTHER, open, set_word, word};
