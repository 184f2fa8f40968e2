// The rows of a listing: what each word of an object is, with its address, its place on the drum and its line, and the listing of a
// whole object, which is printed row by row. Nothing is compiled here.
#![tactic(auto)]

mod line;
mod listing;
mod printing;
mod reading;
mod row;

pub use listing::{ListStop, put_listing};
pub use reading::read_row;
pub use row::{Row, Shown};

#[cfg(test)]
mod tests;
