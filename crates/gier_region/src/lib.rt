// A region of words whose memory is taken once, and bounded tables of packed values in it.
// Nothing here takes memory but the opening of a region.
#![tactic(auto)]

mod packed;
mod region;
mod table;
#[cfg(test)]
mod tests;

pub use packed::Packed;
pub use region::{Full, Region};
pub use table::Table;
