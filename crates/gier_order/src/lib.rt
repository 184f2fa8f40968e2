// The orders of the machine with their code, what an object is, and the number of misses by the list of recent tracks.
// The definitions in specs/ are the order table, the code, and which references miss. No order is executed here.
#![tactic(auto)]

mod flat_run;
mod more_places;
mod object;
mod operation;
mod order;
mod recent;

pub use flat_run::{law_flat_ends, law_flat_run};
pub use more_places::law_more_places;
pub use object::Object;
pub use operation::{Fields, Operation};
pub use order::Order;
pub use recent::Recent;
