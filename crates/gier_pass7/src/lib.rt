// Orders with marks: text 6 read forward becomes the orders of the machine. Addresses of labels and rooms are still open behind it.
#![tactic(auto)]

mod actuals;
mod backpatch;
mod blocks;
mod calls;
mod declarations;
mod elements;
mod evaluations;
mod formal_calls;
mod identifiers;
mod kinds;
mod lists;
mod loops;
mod marks;
mod names;
mod open;
mod operands;
mod operations;
mod orders;
mod pass;
mod send;
mod state;
mod statements;
mod steps;
mod strings;

pub use pass::Pass7;

#[cfg(test)]
mod tests;
