// What the kinds in descriptions have in common, as far as it matters for scopes.
ghost use Rattle.std.specs.Prelude.{◌≡◌};
ghost use Rattle.gier_tree.specs.Kinds.{kind_number};
ghost use Rattle.gier_pass5.specs.Kinds.{class_at, is_counted};

use gier_tree::Kind;

/// The kind of the first standard procedure; those of the others follow.
pub(crate) const FIRST_STANDARD: Kind = Kind::OutInteger;

/// How many standard procedures there are.
pub(crate) const STANDARDS: u32 = 8;

/// What kinds have in common.
#[derive(Debug, Clone, Copy, PartialEq, Eq)]
pub(crate) enum Class {
    /// A simple variable.
    Variable,
    Array,
    /// A label or a switch.
    Numbered,
    /// A procedure without type.
    Procedure,
    /// A procedure with a type.
    Function,
    /// A formal, also one without a specification.
    Formal,
    /// A standard procedure.
    Standard,
}

/// What a kind is.
fn class_of(kind: Kind) -> Class
    ensures { result ≡ class_at (kind_number kind) }
{
    match kind {
        Kind::IntegerVariable | Kind::BooleanVariable => Class::Variable,
        Kind::IntegerArray | Kind::BooleanArray => Class::Array,
        Kind::Label | Kind::Switch => Class::Numbered,
        Kind::Procedure => Class::Procedure,
        Kind::IntegerProcedure | Kind::BooleanProcedure => Class::Function,
        Kind::OutInteger | Kind::OutText | Kind::OutCr | Kind::OutChar => Class::Standard,
        Kind::InInteger | Kind::InChar | Kind::Abs | Kind::Sign => Class::Standard,
        _ => Class::Formal,
    }
}

/// What the kind with this number is. A number that no kind has counts as that of a formal.
#[tactic(auto, using(crate::proofs::Unnumbered::formal_where_none))]
pub(crate) fn class_at(number: u64) -> Class
    ensures { result ≡ class_at number }
{
    match Kind::of(number) {
        Some(kind) => class_of(kind),
        None => Class::Formal,
    }
}

/// Whether a count stands behind the place of a used identifier whose kind has this number.
pub(crate) fn has_count(kind: u64) -> bool
    ensures { result ≡ is_counted (class_at kind) }
{
    match class_at(kind) {
        Class::Array | Class::Procedure | Class::Function => true,
        Class::Variable | Class::Numbered | Class::Formal | Class::Standard => false,
    }
}
