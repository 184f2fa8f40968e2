// The drum: tracks of 40 words, what each of its calls promises, and drums in memory and in a file.
#![tactic(auto)]

mod drum;
mod failing_drum;
mod file_drum;
mod file_words;
mod forgetful_drum;
mod journal;
mod mem_drum;
mod reserve;
mod sparse_index;
mod tracks;

pub use drum::{Drum, Entry, RoomFault};
pub use failing_drum::FailingDrum;
pub use file_drum::FileDrum;
pub use forgetful_drum::ForgetfulDrum;
pub use mem_drum::MemDrum;

#[cfg(test)]
mod tests;
