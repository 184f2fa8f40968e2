// What each use of an identifier allows, by its kind and the number of its dimensions or formals. An unknown type means that the
// use is a fault of kind.
ghost use Rattle.std.specs.Prelude.{◌≡◌};
ghost use Rattle.gier_pass6.specs.Uses.{value_type, function_type, meaning_alone, may_stand, may_be_statement, element_type};
ghost use Rattle.gier_pass6.specs.Uses.{subscripts_of, may_be_called, formals_of, standard_formal, may_be_controlled};

use crate::kind::{Kind, is_procedure, is_procedure_formal};
use crate::types::ValueType;

/// What a number of subscripts or actuals is where any number will do.
pub(crate) const ANY: u64 = (1 << 40) - 1;

/// What an identifier alone in an expression is: its type, and whether it is a call.
#[derive(Debug, Clone, Copy, PartialEq, Eq)]
pub(crate) struct Meaning {
    pub(crate) value: ValueType,
    pub(crate) call: bool,
}

/// Variables and formals that have a value: their type.
pub(crate) fn value_type(kind: Kind) -> ValueType
    ensures { result ≡ value_type kind }
{
    match kind {
        Kind::IntegerVariable | Kind::IntegerValue | Kind::IntegerFormal => ValueType::Integer,
        Kind::BooleanVariable | Kind::BooleanValue | Kind::BooleanFormal => ValueType::Boolean,
        _ => ValueType::Unknown,
    }
}

/// The type that a procedure gives, whether declared or a formal.
pub(crate) fn function_type(kind: Kind) -> ValueType
    ensures { result ≡ function_type kind }
{
    match kind {
        Kind::IntegerProcedure | Kind::IntegerProcedureFormal => ValueType::Integer,
        Kind::BooleanProcedure | Kind::BooleanProcedureFormal => ValueType::Boolean,
        Kind::InInteger | Kind::InChar | Kind::Abs | Kind::Sign => ValueType::Integer,
        _ => ValueType::Unknown,
    }
}

/// Alone in an expression.
pub(crate) fn alone(kind: Kind, count: u64) -> Meaning
    ensures { result ≡ meaning_alone kind count }
{
    if kind == Kind::Label || kind == Kind::LabelFormal {
        return Meaning {
            value: ValueType::Label,
            call: false,
        };
    }
    if may_stand(kind, count) {
        return Meaning {
            value: function_type(kind),
            call: true,
        };
    }
    Meaning {
        value: value_type(kind),
        call: false,
    }
}

// A function that is called without actuals.
fn may_stand(kind: Kind, count: u64) -> bool
    ensures { result ≡ may_stand kind count }
{
    match kind {
        Kind::IntegerProcedure | Kind::BooleanProcedure => count == 0,
        Kind::IntegerProcedureFormal | Kind::BooleanProcedureFormal => true,
        Kind::InInteger | Kind::InChar => true,
        _ => false,
    }
}

/// Alone as a statement.
pub(crate) fn may_be_statement(kind: Kind, count: u64) -> bool
    ensures { result ≡ may_be_statement kind count }
{
    match kind {
        Kind::OutCr | Kind::InInteger | Kind::InChar => true,
        _ => is_procedure_formal(kind) || (is_procedure(kind) && count == 0),
    }
}

/// With subscripts: the type of the element.
pub(crate) fn element_type(kind: Kind) -> ValueType
    ensures { result ≡ element_type kind }
{
    match kind {
        Kind::IntegerArray | Kind::IntegerArrayFormal => ValueType::Integer,
        Kind::BooleanArray | Kind::BooleanArrayFormal => ValueType::Boolean,
        Kind::Switch | Kind::SwitchFormal => ValueType::Label,
        _ => ValueType::Unknown,
    }
}

/// How many subscripts there must be.
pub(crate) fn subscripts_of(kind: Kind, count: u64) -> u64
    ensures { result ≡ subscripts_of kind count }
{
    match kind {
        Kind::IntegerArray | Kind::BooleanArray => count,
        Kind::Switch | Kind::SwitchFormal => 1,
        _ => ANY,
    }
}

/// With actuals, as a statement or in an expression.
pub(crate) fn may_be_called(kind: Kind, count: u64, statement: bool) -> bool
    ensures { result ≡ may_be_called kind count statement }
{
    match kind {
        Kind::Procedure => statement && count > 0,
        Kind::IntegerProcedure | Kind::BooleanProcedure => count > 0,
        Kind::ProcedureFormal => statement,
        Kind::IntegerProcedureFormal | Kind::BooleanProcedureFormal => true,
        Kind::OutInteger | Kind::OutText | Kind::OutChar => statement,
        Kind::Abs | Kind::Sign => true,
        _ => false,
    }
}

/// How many formals a procedure has, where its calls must have as many actuals.
pub(crate) fn formals_of(kind: Kind, count: u64) -> u64
    ensures { result ≡ formals_of kind count }
{
    match kind {
        Kind::Procedure | Kind::IntegerProcedure | Kind::BooleanProcedure => count,
        Kind::OutInteger | Kind::OutText | Kind::OutChar | Kind::Abs | Kind::Sign => 1,
        Kind::OutCr | Kind::InInteger | Kind::InChar => 0,
        _ => ANY,
    }
}

/// The kind of a standard procedure's formal.
pub(crate) fn standard_formal(kind: Kind) -> Kind
    ensures { result ≡ standard_formal kind }
{
    match kind {
        Kind::OutInteger | Kind::OutChar | Kind::Abs | Kind::Sign => Kind::IntegerValue,
        Kind::OutText => Kind::StringFormal,
        _ => Kind::Undeclared,
    }
}

/// A controlled variable.
pub(crate) fn may_be_controlled(kind: Kind) -> bool
    ensures { result ≡ may_be_controlled kind }
{
    match kind {
        Kind::IntegerVariable | Kind::IntegerValue | Kind::IntegerFormal => true,
        _ => false,
    }
}
