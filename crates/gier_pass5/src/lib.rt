// Scopes: each used identifier gets the description, place and count of what it means.
#![tactic(auto)]

mod binding;
mod entries;
mod faults;
mod heed;
mod index;
mod kinds;
mod links;
mod marks;
mod outbox;
mod pass;
mod places;
mod scopes;
mod step;
mod uses;

pub use pass::Pass5;

#[cfg(test)]
mod tests;
