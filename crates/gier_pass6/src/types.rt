// The types of expressions, and a row for each operator: how strongly it binds, what it takes and what it gives.
ghost use Rattle.std.specs.Prelude.{◌≡◌};
ghost use Rattle.gier_pass6.specs.declared.types.ValueType.TheVariants.{Integer, Boolean};
ghost use Rattle.gier_pass6.specs.Types.{fits, common_type, agree, row, row_if, number_of};

use gier_symbol::Tag;

/// The type of an expression. An unknown one fits everywhere.
#[derive(Debug, Clone, Copy, PartialEq, Eq)]
pub(crate) enum ValueType {
    Unknown = 0,
    Integer = 1,
    Boolean = 2,
    Label = 3,
    /// A string, which is an actual alone.
    Text = 4,
}

impl ValueType {
    ghost use Rattle.gier_pass6.specs.declared.types.ValueType.{ValueType};

    /// The type with this number.
    pub(crate) fn of(number: u64) -> ValueType
        ensures { (value : ValueType) → number_of value ≡ number → result ≡ value }
    {
        match number {
            1 => ValueType::Integer,
            2 => ValueType::Boolean,
            3 => ValueType::Label,
            4 => ValueType::Text,
            _ => ValueType::Unknown,
        }
    }

    /// The type's number.
    pub(crate) fn number(self) -> u64
        ensures { result ≡ number_of self }
    {
        self as u64
    }

    /// Whether an expression of this type may stand where one of that type is wanted.
    pub(crate) fn fits(self, wanted: ValueType) -> bool
        ensures { result ≡ fits self wanted }
    {
        self == wanted || self == ValueType::Unknown
    }
}

/// The type of two branches together, or None where they differ.
pub(crate) fn joined(yes: ValueType, no: ValueType) -> Option<ValueType>
    ensures { result ≡ common_type yes no }
{
    if yes == ValueType::Unknown {
        return Some(no);
    }
    if no.fits(yes) { Some(yes) } else { None }
}

/// Whether both types are known and the same.
pub(crate) fn agree(first: ValueType, second: ValueType) -> bool
    ensures { result ≡ agree first second }
{
    match (first, second) {
        (ValueType::Integer, ValueType::Integer) => true,
        (ValueType::Boolean, ValueType::Boolean) => true,
        (ValueType::Label, ValueType::Label) => true,
        (ValueType::Text, ValueType::Text) => true,
        _ => false,
    }
}

/// An operator's row.
#[derive(Debug, Clone, Copy, PartialEq, Eq)]
pub(crate) struct Row {
    /// Those of a higher level bind more strongly; 0 is no operator.
    pub(crate) level: u8,
    /// The type of each operand.
    pub(crate) takes: ValueType,
    /// The type of what it gives.
    pub(crate) gives: ValueType,
}

fn binding(level: u8, takes: ValueType, gives: ValueType) -> Row
    ensures { result ≡ row level takes gives }
{
    Row {
        level,
        takes,
        gives,
    }
}

/// The row of an operator.
pub(crate) fn operator(tag: Option<Tag>) -> Row
    ensures { result ≡ row_if tag }
{
    match tag {
        Some(Tag::Equiv) => binding(1, ValueType::Boolean, ValueType::Boolean),
        Some(Tag::Impl) => binding(2, ValueType::Boolean, ValueType::Boolean),
        Some(Tag::Or) => binding(3, ValueType::Boolean, ValueType::Boolean),
        Some(Tag::And) => binding(4, ValueType::Boolean, ValueType::Boolean),
        Some(Tag::Not) => binding(5, ValueType::Boolean, ValueType::Boolean),
        Some(Tag::Less) | Some(Tag::NotGreater) | Some(Tag::Equal) => relation(),
        Some(Tag::NotLess) | Some(Tag::Greater) | Some(Tag::NotEqual) => relation(),
        Some(Tag::Plus) | Some(Tag::Minus) => binding(7, ValueType::Integer, ValueType::Integer),
        Some(Tag::LeadingPlus) | Some(Tag::LeadingMinus) => binding(
            7,
            ValueType::Integer,
            ValueType::Integer,
        ),
        Some(Tag::Times) | Some(Tag::Div) => binding(8, ValueType::Integer, ValueType::Integer),
        Some(Tag::Power) => binding(9, ValueType::Integer, ValueType::Integer),
        _ => binding(0, ValueType::Unknown, ValueType::Unknown),
    }
}

fn relation() -> Row
    ensures { result ≡ row 6 Integer Boolean }
{
    binding(6, ValueType::Integer, ValueType::Boolean)
}
