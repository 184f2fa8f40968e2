// One order of the machine, with all that it does to the registers, the frames, the data and the printer.
// The definitions in specs/ say what is kept and what falls. No run is driven here.
#![tactic(auto)]

mod activations;
mod calls;
mod evaluations;
mod execute;
mod frame;
mod jumps;
mod kinds;
mod library;
mod machine;
mod number;
mod pager;
mod reading;
mod step;
mod stop;
mod turn;
mod values;

pub use machine::Machine;
pub use step::step_order;
pub use turn::Turn;
