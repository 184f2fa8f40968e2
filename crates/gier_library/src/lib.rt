// The standard procedures that print and read, on a sink and on the data.
#![tactic(auto)]

mod data;
mod number;
mod printing;
mod reading;
#[cfg(test)]
mod tests;

pub use data::Data;
pub use printing::{OutStop, out_bytes, out_char, out_integer};
pub use reading::{InStop, in_char, in_integer};
