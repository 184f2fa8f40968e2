// What the kinds of identifiers mean for code: groups of kinds, types of values, and the kinds at calls of formal procedures.
ghost use Rattle.std.specs.Prelude.{◌≡◌};
ghost use Rattle.gier_pass7.specs.Kinds.{is_cell, is_value, is_name, is_array, is_array_formal, is_switch, is_procedure};
ghost use Rattle.gier_pass7.specs.Kinds.{is_procedure_formal, is_numbered, library_number, is_evaluated, value_type};
ghost use Rattle.gier_pass7.specs.Kinds.{actual_of_value, actual_of_name, formal_kind, packed_number};

use gier_tree::Kind;

/// The type of what was evaluated last.
#[derive(Debug, Clone, Copy, PartialEq, Eq)]
pub(crate) enum ValueType {
    Unknown,
    Integer,
    Boolean,
    Label,
    Text,
}

pub(crate) fn kind_of(number: u64) -> Kind {
    match Kind::of(number) {
        Some(kind) => kind,
        None => Kind::Undeclared,
    }
}

/// A variable or a formal by value, whose cell holds the value itself.
pub(crate) fn is_cell(kind: Kind) -> bool
    ensures { result ≡ is_cell kind }
{
    match kind {
        Kind::IntegerVariable | Kind::BooleanVariable => true,
        Kind::IntegerValue | Kind::BooleanValue => true,
        _ => false,
    }
}

pub(crate) fn is_value(kind: Kind) -> bool
    ensures { result ≡ is_value kind }
{
    match kind {
        Kind::IntegerValue | Kind::BooleanValue => true,
        _ => false,
    }
}

/// An integer or Boolean formal by name.
pub(crate) fn is_name(kind: Kind) -> bool
    ensures { result ≡ is_name kind }
{
    match kind {
        Kind::IntegerFormal | Kind::BooleanFormal => true,
        _ => false,
    }
}

pub(crate) fn is_array(kind: Kind) -> bool
    ensures { result ≡ is_array kind }
{
    match kind {
        Kind::IntegerArray | Kind::BooleanArray => true,
        _ => false,
    }
}

pub(crate) fn is_array_formal(kind: Kind) -> bool
    ensures { result ≡ is_array_formal kind }
{
    match kind {
        Kind::IntegerArrayFormal | Kind::BooleanArrayFormal => true,
        _ => false,
    }
}

pub(crate) fn is_switch(kind: Kind) -> bool
    ensures { result ≡ is_switch kind }
{
    match kind {
        Kind::Switch | Kind::SwitchFormal => true,
        _ => false,
    }
}

/// A declared procedure.
pub(crate) fn is_procedure(kind: Kind) -> bool
    ensures { result ≡ is_procedure kind }
{
    match kind {
        Kind::Procedure | Kind::IntegerProcedure | Kind::BooleanProcedure => true,
        _ => false,
    }
}

pub(crate) fn is_procedure_formal(kind: Kind) -> bool
    ensures { result ≡ is_procedure_formal kind }
{
    match kind {
        Kind::ProcedureFormal | Kind::IntegerProcedureFormal | Kind::BooleanProcedureFormal => true,
        _ => false,
    }
}

/// A label, a switch or a declared procedure: these are numbered.
pub(crate) fn is_numbered(kind: Kind) -> bool
    ensures { result ≡ is_numbered kind }
{
    match kind {
        Kind::Label | Kind::Switch => true,
        _ => is_procedure(kind),
    }
}

/// The number of the order for a standard procedure, or 0 where the kind is none.
pub(crate) fn library_number(kind: Kind) -> u64
    ensures { result ≡ library_number kind }
{
    match kind {
        Kind::OutInteger => 1,
        Kind::OutText => 2,
        Kind::OutCr => 3,
        Kind::OutChar => 4,
        Kind::InInteger => 5,
        Kind::InChar => 6,
        Kind::Abs => 7,
        Kind::Sign => 8,
        _ => 0,
    }
}

/// Whether the actual for such a formal is an evaluation. Of a formal procedure's call the formals aren't known, so each expression
/// is one.
pub(crate) fn is_evaluated(formal: Kind) -> bool
    ensures { result ≡ is_evaluated formal }
{
    match formal {
        Kind::IntegerFormal | Kind::BooleanFormal => true,
        Kind::LabelFormal | Kind::Undeclared => true,
        _ => false,
    }
}

/// The type of an identifier alone, of an element of it, or of a call of it.
pub(crate) fn value_type(kind: Kind) -> ValueType
    ensures { result ≡ value_type kind }
{
    match kind {
        Kind::IntegerVariable | Kind::IntegerValue | Kind::IntegerFormal => ValueType::Integer,
        Kind::IntegerArray | Kind::IntegerArrayFormal => ValueType::Integer,
        Kind::IntegerProcedure | Kind::IntegerProcedureFormal => ValueType::Integer,
        Kind::InInteger | Kind::InChar | Kind::Abs | Kind::Sign => ValueType::Integer,
        Kind::BooleanVariable | Kind::BooleanValue | Kind::BooleanFormal => ValueType::Boolean,
        Kind::BooleanArray | Kind::BooleanArrayFormal => ValueType::Boolean,
        Kind::BooleanProcedure | Kind::BooleanProcedureFormal => ValueType::Boolean,
        Kind::Label | Kind::LabelFormal => ValueType::Label,
        Kind::Switch | Kind::SwitchFormal => ValueType::Label,
        Kind::StringFormal => ValueType::Text,
        _ => ValueType::Unknown,
    }
}

/// What an expression or a string is as an actual at the call of a formal procedure.
pub(crate) fn actual_of_value(value: ValueType) -> Option<gier_agree::Kind>
    ensures { result ≡ actual_of_value value }
{
    match value {
        ValueType::Integer => Some(gier_agree::Kind::Integer),
        ValueType::Boolean => Some(gier_agree::Kind::Boolean),
        ValueType::Label => Some(gier_agree::Kind::Label),
        ValueType::Text => Some(gier_agree::Kind::String),
        ValueType::Unknown => None,
    }
}

/// What an identifier alone is as an actual there.
pub(crate) fn actual_of_name(kind: Kind) -> Option<gier_agree::Kind>
    ensures { result ≡ actual_of_name kind }
{
    match kind {
        Kind::IntegerArray | Kind::IntegerArrayFormal => Some(gier_agree::Kind::IntegerArray),
        Kind::BooleanArray | Kind::BooleanArrayFormal => Some(gier_agree::Kind::BooleanArray),
        Kind::Switch | Kind::SwitchFormal => Some(gier_agree::Kind::Switch),
        Kind::Procedure | Kind::ProcedureFormal => Some(gier_agree::Kind::Procedure),
        Kind::IntegerProcedure | Kind::IntegerProcedureFormal => Some(
            gier_agree::Kind::IntegerProcedure,
        ),
        Kind::BooleanProcedure | Kind::BooleanProcedureFormal => Some(
            gier_agree::Kind::BooleanProcedure,
        ),
        other => actual_of_value(value_type(other)),
    }
}

/// What a formal asks for there.
pub(crate) fn formal_kind(kind: Kind) -> Option<gier_agree::Kind>
    ensures { result ≡ formal_kind kind }
{
    match kind {
        Kind::IntegerValue => Some(gier_agree::Kind::IntegerByValue),
        Kind::BooleanValue => Some(gier_agree::Kind::BooleanByValue),
        other => actual_of_name(other),
    }
}

/// The number of a kind in a packed word, and 0 for none.
pub(crate) fn packed_number(kind: Option<gier_agree::Kind>) -> u8
    ensures { result ≡ packed_number kind }
{
    match kind {
        Some(kind) => kind.number(),
        None => 0,
    }
}
