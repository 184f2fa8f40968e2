// Where bytes come from and where they go: the traits of a source and a sink, forms of both in memory, and adapters
// over std's readers and writers.
#![tactic(auto)]

mod device;
mod failing_sink;
mod failing_source;
mod failure_plan;
mod mem_sink;
mod mem_source;
mod pieces;
mod std_sink;
mod std_source;
#[cfg(test)]
mod tests;

pub use device::{Sink, Source};
pub use failing_sink::FailingSink;
pub use failing_source::FailingSource;
pub use gier_word::{Failed, NoMemory};
pub use mem_sink::MemSink;
pub use mem_source::MemSource;
pub use pieces::put_both;
pub use std_sink::StdSink;
pub use std_source::StdSource;
