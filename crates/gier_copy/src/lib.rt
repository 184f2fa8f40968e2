// Both definitions of what a program means are equal: that by the copy rule, and that with environments.
#![tactic(auto)]

mod law;

pub use law::law_copy;
