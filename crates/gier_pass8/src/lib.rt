// Rooms and addresses that lie ahead: read backward, text 7 gets all that is known by its end.
#![tactic(auto)]

mod laws;
mod pass;
mod step;
mod words;

pub use laws::law_complete;
pub use pass::Pass8;

#[cfg(test)]
mod tests;
