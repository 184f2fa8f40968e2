// What words say of the kinds of identifiers. The text is read backward: of a specification the last word comes first.
ghost use Rattle.std.specs.Prelude.{◌≡◌};
ghost use Rattle.gier_pass4.specs.Kinds.{by_value, declared_by, integer_before, boolean_before, specified_by};
ghost use Rattle.gier_pass4.specs.Kinds.{variable_by, array_by};

use gier_symbol::Tag;
use gier_tree::Kind;

/// The kind of a formal that stands in the value list.
pub(crate) fn by_value(kind: Kind) -> Kind
    ensures { result ≡ by_value kind }
{
    match kind {
        Kind::IntegerFormal => Kind::IntegerValue,
        Kind::BooleanFormal => Kind::BooleanValue,
        _ => kind,
    }
}

/// The kind of a procedure in whose heading these words stand that would specify a formal of this kind.
pub(crate) fn declared_by(kind: Kind) -> Kind
    ensures { result ≡ declared_by kind }
{
    match kind {
        Kind::IntegerProcedureFormal => Kind::IntegerProcedure,
        Kind::BooleanProcedureFormal => Kind::BooleanProcedure,
        _ => Kind::Procedure,
    }
}

// The kind that `_integer` gives in a specification, where the words behind it gave this one.
fn integer_before(behind: Kind) -> Kind
    ensures { result ≡ integer_before behind }
{
    match behind {
        Kind::IntegerArrayFormal => Kind::IntegerArrayFormal,
        Kind::ProcedureFormal => Kind::IntegerProcedureFormal,
        _ => Kind::IntegerFormal,
    }
}

// The kind that `_boolean` gives there.
fn boolean_before(behind: Kind) -> Kind
    ensures { result ≡ boolean_before behind }
{
    match behind {
        Kind::IntegerArrayFormal => Kind::BooleanArrayFormal,
        Kind::ProcedureFormal => Kind::BooleanProcedureFormal,
        _ => Kind::BooleanFormal,
    }
}

/// The kind that a word of a specification gives, where those behind it gave this one.
pub(crate) fn specified(behind: Kind, word: Tag) -> Kind
    ensures { result ≡ specified_by behind word }
{
    match word {
        Tag::Integer => integer_before(behind),
        Tag::Boolean => boolean_before(behind),
        Tag::Array => Kind::IntegerArrayFormal,
        Tag::Switch => Kind::SwitchFormal,
        Tag::Procedure => Kind::ProcedureFormal,
        Tag::String => Kind::StringFormal,
        Tag::Label => Kind::LabelFormal,
        _ => behind,
    }
}

/// The kind of variables with this type.
pub(crate) fn variable_kind(word: Tag) -> Kind
    ensures { result ≡ variable_by word }
{
    match word {
        Tag::Boolean => Kind::BooleanVariable,
        _ => Kind::IntegerVariable,
    }
}

/// The kind of arrays with this type.
pub(crate) fn array_kind(word: Tag) -> Kind
    ensures { result ≡ array_by word }
{
    match word {
        Tag::Boolean => Kind::BooleanArray,
        _ => Kind::IntegerArray,
    }
}
