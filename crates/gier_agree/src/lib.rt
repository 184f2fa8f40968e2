// What formals and actuals agree at the call of a formal procedure, and how their kinds are packed into words.
// Which kind a declaration or an expression has is said elsewhere.
#![tactic(auto)]

mod call;
mod kind;
mod packed;

pub use call::{agree, fits};
pub use kind::Kind;
pub use packed::{kind_at, pack};
