// The back of the compiler: passes 7 to 9, from text 6 on the drum to the object.
#![tactic(auto)]

mod passes;
mod stop;
mod turned;

pub use gier_order::Object;
pub use passes::back;
pub use stop::BackStop;

#[cfg(test)]
mod tests;
