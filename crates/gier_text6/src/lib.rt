// Pass 6 as a pure function from text 5 to text 6 and to faults of types. It has no code: it says what its law says.
//
// `step` of specs/PurePass stands for `step` of gier_pass6's `State`, and its arms for `take_one`, `take_other` and `note`. Of the
// functions there, specs/Uses has `hold`, `settle`, `becomes`, `left_bracket` and `left_parenthesis`; specs/Ending has `finish`,
// `assignment_ends`, `comma`, `right_bracket` and `right_parenthesis`; specs/Constructs has `open_mark` and `shut_mark`;
// specs/Entering has `enter`, `add_formal`, `set_open`, `is_open` and `formal_of`. An `Open` is one entry of the stack, but
// `Brackets` and `Calls` are three each. Nothing is dropped for want of room. A string is held and has no type. An identifier
// alone as an actual is written as a call by what its formal wants; the code asks in addition whether it fits, and where it
// doesn't there is a fault.
#![tactic(auto)]

mod laws;

pub use laws::{
    law_judged_assignments, law_judged_calls, law_judged_expressions, law_judged_parts,
};
