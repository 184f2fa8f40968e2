// The top call: the words of the command line, the status, and the work on one tape.
#![tactic(auto)]

mod answer;
mod command;
mod laws;
mod mortem;
mod printing;
mod running;
mod status;
mod tails;
mod words;
mod working;

pub use answer::gier;
pub use command::{Command, read_words};
pub use gier_runner::Settings;
pub use laws::{law_calls, law_journals, law_reply, law_told};
pub use status::{Status, status_text};
pub use working::work;

#[cfg(test)]
mod tests;
