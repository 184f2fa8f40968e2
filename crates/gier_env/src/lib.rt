// What a program means where each identifier is looked up in an environment. The definitions stand in specs/; no program runs
// anything of it.
#![tactic(auto)]

mod laws;
