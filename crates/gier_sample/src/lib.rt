// The sample programs, as a source that makes its bytes when they are read.
#![tactic(auto)]

mod line;
mod piece;
mod sample_source;
#[cfg(test)]
mod tests;

pub use sample_source::SampleSource;
