// The orders of operators.
ghost use Rattle.std.specs.Prelude.{◌≡◌};
ghost use Rattle.gier_pass7.specs.Operations.{operator_of, result_type};

use crate::kinds::ValueType;
use gier_order::Operation;
use gier_symbol::Tag;

/// How an operator is coded.
#[derive(Debug, Clone, Copy, PartialEq, Eq)]
pub(crate) enum Operator {
    /// Both operands, then the order on the kept left one.
    Binary(Operation),
    /// The operand, then the order.
    Unary(Operation),
    /// A leading `+`, and what is no operator.
    Nothing,
}

/// The operator with this tag.
pub(crate) fn operator_of(tag: Option<Tag>) -> Operator
    ensures { result ≡ operator_of tag }
{
    match tag {
        Some(Tag::Plus) => Operator::Binary(Operation::Add),
        Some(Tag::Minus) => Operator::Binary(Operation::Sub),
        Some(Tag::Times) => Operator::Binary(Operation::Mul),
        Some(Tag::Div) => Operator::Binary(Operation::Div),
        Some(Tag::Power) => Operator::Binary(Operation::Pow),
        Some(Tag::Less) => Operator::Binary(Operation::Lt),
        Some(Tag::NotGreater) => Operator::Binary(Operation::Le),
        Some(Tag::Equal) => Operator::Binary(Operation::Eq),
        Some(Tag::NotLess) => Operator::Binary(Operation::Ge),
        Some(Tag::Greater) => Operator::Binary(Operation::Gt),
        Some(Tag::NotEqual) => Operator::Binary(Operation::Ne),
        Some(Tag::And) => Operator::Binary(Operation::And),
        Some(Tag::Or) => Operator::Binary(Operation::Or),
        Some(Tag::Impl) => Operator::Binary(Operation::Impl),
        Some(Tag::Equiv) => Operator::Binary(Operation::Equiv),
        Some(Tag::Not) => Operator::Unary(Operation::Not),
        Some(Tag::LeadingMinus) => Operator::Unary(Operation::Neg),
        _ => Operator::Nothing,
    }
}

/// The type that an operator gives.
pub(crate) fn result_type(tag: Option<Tag>) -> ValueType
    ensures { result ≡ result_type tag }
{
    match tag {
        Some(Tag::Plus) | Some(Tag::Minus) | Some(Tag::Times) => ValueType::Integer,
        Some(Tag::Div) | Some(Tag::Power) => ValueType::Integer,
        Some(Tag::LeadingPlus) | Some(Tag::LeadingMinus) => ValueType::Integer,
        _ => ValueType::Boolean,
    }
}
