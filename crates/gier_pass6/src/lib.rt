// Types: which uses and operands a program allows, and expressions with their operators behind the operands.
#![tactic(auto)]

mod actuals;
mod expressions;
mod heads;
mod kind;
mod lists;
mod marks;
mod names;
mod open;
mod pass;
mod places;
mod state;
mod statements;
mod steps;
mod types;
mod uses;

pub use pass::Pass6;

#[cfg(test)]
mod tests;
