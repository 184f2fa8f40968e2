// Texts of symbols, passes over them, and what drives a pass.
#![tactic(auto)]

mod driver;
mod drum_text;
mod extent;
mod fault;
mod fronted;
mod list_text;
mod outbox;
mod pass;
mod potential;
mod tables;
mod text;

pub use driver::{drive, pass_stop, write};
pub use drum_text::DrumText;
pub use fault::{Fault, FaultKind};
pub use fronted::Fronted;
pub use list_text::ListText;
pub use outbox::{OUTBOX_WIDTH, flush, put, waiting_at, write_any};
pub use pass::{Pass, PassStop};
pub use potential::is_name;
pub use tables::Tables;
pub use text::{Text, TextStop, Way};

#[cfg(test)]
mod tests;
