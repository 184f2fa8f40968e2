// The front of the compiler: passes 1 to 6, from the tape to text 6, and the list of errors.
#![tactic(auto)]

mod pass_contract;
mod pass_contracts;
mod passes;
mod printing;
mod stop;

pub use gier_limits::{LIMIT, first_track, tracks_for};
pub use gier_text::Fronted;
pub use passes::front;
pub use printing::print_errors;
pub use stop::FrontStop;

#[cfg(test)]
mod tests;
