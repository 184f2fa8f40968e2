// Words and whole numbers of 40 bits, alarms, and the refusals that every layer shares.
// The definitions in specs/ say what an operation gives and what a standard procedure prints and reads.
#![tactic(auto)]

mod alarm;
mod int40;
mod law;
mod refusal;
mod word40;

pub use alarm::Alarm;
pub use int40::{Int40, Spoil};
pub use law::law_power;
pub use refusal::{Failed, NoMemory, Odd};
pub use word40::Word40;
