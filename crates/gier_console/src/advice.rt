// What each error of a program means and what to do about it. docs/LANGUAGE.md says the same behind the same texts.
use gier_text::FaultKind;

const ADVICE: [(FaultKind, &str); 26] = [
    (
        FaultKind::TooLong,
        "the program text has more than 524,288 bytes. Make it shorter; data belong behind `#`.",
    ),
    (
        FaultKind::Character,
        "a byte that has no meaning here. Real division `/` is one of them: write `_div`.",
    ),
    (
        FaultKind::Word,
        "no word symbol. It may be misspelt, `_real` doesn't exist, and `_comment` stands only behind `;` or `_begin`.",
    ),
    (
        FaultKind::Unclosed,
        "a string that isn't closed. Look for the missing `}` from this line on.",
    ),
    (
        FaultKind::Number,
        "above 549755813887. Make it by multiplication from smaller ones, if it fits at all.",
    ),
    (
        FaultKind::Structure,
        "the text can't be a program from here on. Look at this symbol and the one before it: a missing `;`, a `;` before \
         `_else`, a declaration behind statements, `_if` directly behind `_then`, a sign behind an operator, a missing `_end`.",
    ),
    (
        FaultKind::DeclaredTwice,
        "declared before in the same block, or as a formal or a label of the same scope. Give it another name.",
    ),
    (
        FaultKind::NotDeclared,
        "no block around declares it. Declare it, or look at its spelling.",
    ),
    (
        FaultKind::LocalInBound,
        "a bound uses what the same block declares, and that has no value yet. Put the array into an inner block.",
    ),
    (
        FaultKind::NotFormal,
        "a value list or specification names what isn't in the formal list. Add it to the list, or declare it in the body.",
    ),
    (
        FaultKind::SpecifiedTwice,
        "a formal stands twice in the specifications or in the value list. Strike one out.",
    ),
    (
        FaultKind::NotSpecified,
        "a formal without a specification. Say what it is.",
    ),
    (
        FaultKind::Level,
        "blocks and procedures are nested more than 255 deep. Move inner blocks into procedures of an outer one.",
    ),
    (
        FaultKind::ListTooLong,
        "more than 30 subscripts or bounds, or more than 255 parameters. Use fewer.",
    ),
    (
        FaultKind::Value,
        "only an integer or Boolean formal can be by value. Take it out of the value list.",
    ),
    (
        FaultKind::Kind,
        "the identifier is something else than its use here wants: a variable with parentheses, an array without subscripts, \
         a procedure without its parameters, a procedure without type in an expression.",
    ),
    (
        FaultKind::Subscripts,
        "their number isn't that of the bounds, or one of them is Boolean. Look at the declaration of the array.",
    ),
    (
        FaultKind::ParameterCount,
        "the call has another number of actuals than the procedure has formals. Look at its declaration.",
    ),
    (
        FaultKind::Parameter,
        "the actual doesn't fit its formal. Look at the specification of the formal; a standard procedure can't be an actual.",
    ),
    (
        FaultKind::Bound,
        "a bound that isn't an integer. Compute it from integers.",
    ),
    (
        FaultKind::ForElement,
        "an expression of a for list that isn't an integer. A condition stands behind `_while` alone.",
    ),
    (
        FaultKind::Condition,
        "behind `_if` or `_while` stands no Boolean expression. Compare with something: `n <> 0`.",
    ),
    (
        FaultKind::Branches,
        "the branches of a conditional expression have different types. Make both integers or both Boolean.",
    ),
    (
        FaultKind::Designational,
        "behind `_goto`, or in a switch, stands no label. Write a label or an element of a switch.",
    ),
    (
        FaultKind::Assignment,
        "left part and right side have different types. Give both the same type.",
    ),
    (
        FaultKind::Operand,
        "an operator with an operand of a wrong type. Relations compare integers alone, and bind stronger than `_not` and \
         `_and`.",
    ),
];

/// What an error with this text means and what to do; None where no error has it.
pub(crate) fn advice_on(text: &str) -> Option<&'static str> {
    for (kind, advice) in &ADVICE {
        if kind.text() == text {
            return Some(*advice);
        }
    }
    None
}
