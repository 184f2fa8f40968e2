// A few places that hold tracks of the drum. A track that no place holds is read into the place used least recently.
#![tactic(auto)]

mod places;
mod slots;

pub use places::Places;

#[cfg(test)]
mod tests;
