// The kinds of formals and actuals at the call of a formal procedure, each with its number in packed words.
ghost use Rattle.std.specs.Prelude.{◌≡◌, IfSome, IsNone};
ghost use Rattle.gier_agree.specs.Kinds.{number_of, wanted_by, IsNoKind};

/// What a formal asks for, and what an actual is. An actual is never of the two kinds by value.
#[derive(Debug, Clone, Copy, PartialEq, Eq)]
pub enum Kind {
    /// 1: an integer formal by value.
    IntegerByValue,
    /// 2: a Boolean formal by value.
    BooleanByValue,
    /// 3: an integer formal by name, or an expression of integer type.
    Integer,
    /// 4: a Boolean formal by name, or an expression of Boolean type.
    Boolean,
    /// 5: a label, or a designational expression.
    Label,
    /// 6: an integer array.
    IntegerArray,
    /// 7: a Boolean array.
    BooleanArray,
    /// 8: a switch.
    Switch,
    /// 9: a string.
    String,
    /// 10: a procedure without a type.
    Procedure,
    /// 11: a procedure of integer type, named without actuals.
    IntegerProcedure,
    /// 12: a procedure of Boolean type, named without actuals.
    BooleanProcedure,
}

impl Kind {
    /// The kind with this number, or None where the number is not 1 to 12.
    pub fn of(number: u8) -> Option<Kind>
        ensures some { IfSome result (λ kind. number_of kind ≡ number) }
        ensures none { IsNone result → IsNoKind number }
    {
        match number {
            1 => Some(Kind::IntegerByValue),
            2 => Some(Kind::BooleanByValue),
            3 => Some(Kind::Integer),
            4 => Some(Kind::Boolean),
            5 => Some(Kind::Label),
            6 => Some(Kind::IntegerArray),
            7 => Some(Kind::BooleanArray),
            8 => Some(Kind::Switch),
            9 => Some(Kind::String),
            10 => Some(Kind::Procedure),
            11 => Some(Kind::IntegerProcedure),
            12 => Some(Kind::BooleanProcedure),
            _ => None,
        }
    }

    /// The kind's number, 1 to 12.
    pub fn number(self) -> u8
        ensures { result ≡ number_of self }
    {
        self as u8 + 1
    }

    /// The kind of the actuals that fit a formal of this kind: a formal by value takes an expression.
    pub fn wanted(self) -> Kind
        ensures { result ≡ wanted_by self }
    {
        match self {
            Kind::IntegerByValue => Kind::Integer,
            Kind::BooleanByValue => Kind::Boolean,
            other => other,
        }
    }
}
