// What an identifier is, as descriptions in texts tell it by number. What each kind allows isn't told here.
ghost use Rattle.std.specs.Prelude.{◌≡◌, ◌≢◌, ◌≤◌, IfSome, IfNone, Some};
ghost use Rattle.gier_tree.specs.Kinds.{kind_number};

/// What an identifier is. The number of a variant is the value of its description.
#[derive(Debug, Clone, Copy, PartialEq, Eq)]
pub enum Kind {
    /// No declaration, or a formal without a specification.
    Undeclared = 0,
    IntegerVariable = 1,
    BooleanVariable = 2,
    IntegerArray = 3,
    BooleanArray = 4,
    Label = 5,
    Switch = 6,
    /// A procedure without type.
    Procedure = 7,
    IntegerProcedure = 8,
    BooleanProcedure = 9,
    /// A formal by value.
    IntegerValue = 11,
    BooleanValue = 12,
    /// A formal by name.
    IntegerFormal = 13,
    BooleanFormal = 14,
    IntegerArrayFormal = 15,
    BooleanArrayFormal = 16,
    LabelFormal = 17,
    SwitchFormal = 18,
    StringFormal = 19,
    /// A formal procedure without type.
    ProcedureFormal = 20,
    IntegerProcedureFormal = 21,
    BooleanProcedureFormal = 22,
    /// The standard procedure `outinteger`; those below are the others.
    OutInteger = 31,
    OutText = 32,
    OutCr = 33,
    OutChar = 34,
    InInteger = 35,
    InChar = 36,
    Abs = 37,
    Sign = 38,
}

impl Kind {
    ghost use Rattle.gier_tree.specs.declared.kind.Kind.{Kind};

    /// The kind's number.
    pub fn number(self) -> u64
        ensures value { result ≡ kind_number self }
        ensures small { result ≤ 38 }
    {
        self as u64
    }

    /// The kind with this number, or None where no row has it.
    pub fn of(number: u64) -> Option<Kind>
        ensures some { IfSome result (λ kind. kind_number kind ≡ number) }
        ensures every { (kind : Kind) → kind_number kind ≡ number → result ≡ Some kind }
        ensures none { IfNone result ((kind : Kind) → kind_number kind ≢ number) }
    {
        match number {
            0 => Some(Kind::Undeclared),
            1 => Some(Kind::IntegerVariable),
            2 => Some(Kind::BooleanVariable),
            3 => Some(Kind::IntegerArray),
            4 => Some(Kind::BooleanArray),
            5 => Some(Kind::Label),
            6 => Some(Kind::Switch),
            7 => Some(Kind::Procedure),
            8 => Some(Kind::IntegerProcedure),
            9 => Some(Kind::BooleanProcedure),
            11 => Some(Kind::IntegerValue),
            12 => Some(Kind::BooleanValue),
            13 => Some(Kind::IntegerFormal),
            14 => Some(Kind::BooleanFormal),
            15 => Some(Kind::IntegerArrayFormal),
            16 => Some(Kind::BooleanArrayFormal),
            17 => Some(Kind::LabelFormal),
            18 => Some(Kind::SwitchFormal),
            19 => Some(Kind::StringFormal),
            20 => Some(Kind::ProcedureFormal),
            21 => Some(Kind::IntegerProcedureFormal),
            22 => Some(Kind::BooleanProcedureFormal),
            31 => Some(Kind::OutInteger),
            32 => Some(Kind::OutText),
            33 => Some(Kind::OutCr),
            34 => Some(Kind::OutChar),
            35 => Some(Kind::InInteger),
            36 => Some(Kind::InChar),
            37 => Some(Kind::Abs),
            38 => Some(Kind::Sign),
            _ => None,
        }
    }
}
