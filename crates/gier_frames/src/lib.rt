// The stack of a run: its words, the activations in them, and what each order does to both.
// The definitions in specs/ say what refuses a call and what it makes of the frames. No object is read here.
#![tactic(auto)]

mod arrays;
mod bounds;
mod calls;
mod display;
mod frames;
mod halt;
mod stop;
mod walk;
mod writes;

pub use frames::Frames;
pub use halt::Halt;
pub use stop::{Activation, Shape};

#[cfg(test)]
mod tests;
