// What the passes behind the first two have in common: the kinds of identifiers and the constructs that have marks.
#![tactic(auto)]

mod construct;
mod kind;
mod laws;

pub use construct::Construct;
pub use kind::Kind;
pub use laws::{
    law_code, law_hoisted, law_rooms, law_spelling, law_structured, law_texts, law_unique,
    law_word_lines,
};

#[cfg(test)]
mod tests {
    use super::*;

    #[test]
    fn numbers_stand_for_kinds_and_constructs(rt: HostRuntime) {
        assert_eq!(rt; Kind::of(22), Some(Kind::BooleanProcedureFormal));
        assert_eq!(rt; Kind::of(10), None);
        assert_eq!(rt; Kind::Sign.number(), 38);
        assert_eq!(rt; Construct::of(14), Some(Construct::Bound));
        assert_eq!(rt; Construct::of(0), None);
        assert_eq!(rt; Construct::ConditionalExpression.number(), 18);
    }
}
