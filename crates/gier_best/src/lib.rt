// The fewest reads of tracks that any use of the places could need, over the tracks that a run referred to.
// The definitions in specs/ say what a plan is and which one gives up the track that is wanted farthest ahead.
#![tactic(auto)]

mod law;
mod places;
mod planner;
mod trace;
mod uses;

pub use law::law_best;
pub use trace::Trace;
