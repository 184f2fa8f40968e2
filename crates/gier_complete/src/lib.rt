// The text 7 of each program is whole: a law over definitions alone, which stand in specs/; no program runs anything of it.
#![tactic(auto)]

mod law;

pub use law::law_whole;
