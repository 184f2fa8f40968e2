// Scopes, read backward: each scope gets the list of what it declares, and own quantities move to a block around the program.
#![tactic(auto)]

mod headings;
mod kinds;
mod lists;
mod marks;
mod moving;
mod names;
mod owns;
mod pass;
mod scopes;
mod steps;
mod typing;

pub use pass::Pass4;

#[cfg(test)]
mod tests;
