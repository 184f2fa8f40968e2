// Where the labels of text 7 stand: laws over definitions alone, which stand in specs/; no program runs anything of them.
#![tactic(auto)]

mod laws;

pub use laws::{
    law_complete_where_fitting, law_label_addresses, law_labels_within, law_placed,
    law_placed_examples, law_text7_placed,
};
