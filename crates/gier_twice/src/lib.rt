// What is defined twice, once for texts and once for meanings, is the same. It holds the laws between the two, no code.
#![tactic(auto)]

mod laws;

pub use laws::{
    law_same_counts, law_same_formals, law_same_labels, law_same_lines, law_same_rooms,
};
