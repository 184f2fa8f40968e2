// What a program means by the copy rule of the Report (4.7.3). The definitions stand in specs/; no program runs anything of it.
#![tactic(auto)]

mod laws;
