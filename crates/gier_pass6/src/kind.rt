// The kinds of identifiers, as descriptions tell them by number. What each kind allows isn't told here.
ghost use Rattle.std.specs.Prelude.{◌≡◌};
ghost use Rattle.gier_pass6.specs.Kinds.{number_of};
ghost use Rattle.gier_pass6.specs.Uses.{is_procedure, is_procedure_formal, has_number, is_value};

/// What an identifier is. The number of a variant is the value of its description.
#[derive(Debug, Clone, Copy, PartialEq, Eq)]
pub(crate) enum Kind {
    /// No declaration, and each number that isn't one of these.
    Undeclared = 0,
    IntegerVariable = 1,
    BooleanVariable = 2,
    IntegerArray = 3,
    BooleanArray = 4,
    Label = 5,
    Switch = 6,
    /// A procedure without type.
    Procedure = 7,
    IntegerProcedure = 8,
    BooleanProcedure = 9,
    /// Formals by value.
    IntegerValue = 11,
    BooleanValue = 12,
    /// Formals by name.
    IntegerFormal = 13,
    BooleanFormal = 14,
    IntegerArrayFormal = 15,
    BooleanArrayFormal = 16,
    LabelFormal = 17,
    SwitchFormal = 18,
    StringFormal = 19,
    /// A formal procedure without type.
    ProcedureFormal = 20,
    IntegerProcedureFormal = 21,
    BooleanProcedureFormal = 22,
    /// The standard procedures.
    OutInteger = 31,
    OutText = 32,
    OutCr = 33,
    OutChar = 34,
    InInteger = 35,
    InChar = 36,
    Abs = 37,
    Sign = 38,
}

impl Kind {
    ghost use Rattle.gier_pass6.specs.declared.kind.Kind.{Kind};

    /// The kind with this number.
    pub(crate) fn of(number: u64) -> Kind
        ensures { (kind : Kind) → number_of kind ≡ number → result ≡ kind }
    {
        match number {
            1 => Kind::IntegerVariable,
            2 => Kind::BooleanVariable,
            3 => Kind::IntegerArray,
            4 => Kind::BooleanArray,
            5 => Kind::Label,
            6 => Kind::Switch,
            7 => Kind::Procedure,
            8 => Kind::IntegerProcedure,
            9 => Kind::BooleanProcedure,
            11 => Kind::IntegerValue,
            12 => Kind::BooleanValue,
            13 => Kind::IntegerFormal,
            14 => Kind::BooleanFormal,
            15 => Kind::IntegerArrayFormal,
            16 => Kind::BooleanArrayFormal,
            17 => Kind::LabelFormal,
            18 => Kind::SwitchFormal,
            19 => Kind::StringFormal,
            20 => Kind::ProcedureFormal,
            21 => Kind::IntegerProcedureFormal,
            22 => Kind::BooleanProcedureFormal,
            31 => Kind::OutInteger,
            32 => Kind::OutText,
            33 => Kind::OutCr,
            34 => Kind::OutChar,
            35 => Kind::InInteger,
            36 => Kind::InChar,
            37 => Kind::Abs,
            38 => Kind::Sign,
            _ => Kind::Undeclared,
        }
    }

    /// The kind's number.
    pub(crate) fn number(self) -> u64
        ensures { result ≡ number_of self }
    {
        self as u64
    }
}

/// A declared procedure.
pub(crate) fn is_procedure(kind: Kind) -> bool
    ensures { result ≡ is_procedure kind }
{
    match kind {
        Kind::Procedure | Kind::IntegerProcedure | Kind::BooleanProcedure => true,
        _ => false,
    }
}

/// A procedure that is a formal.
pub(crate) fn is_procedure_formal(kind: Kind) -> bool
    ensures { result ≡ is_procedure_formal kind }
{
    match kind {
        Kind::ProcedureFormal | Kind::IntegerProcedureFormal | Kind::BooleanProcedureFormal => true,
        _ => false,
    }
}

/// A label, a switch or a declared procedure: these are numbered.
pub(crate) fn is_numbered(kind: Kind) -> bool
    ensures { result ≡ has_number kind }
{
    match kind {
        Kind::Label | Kind::Switch => true,
        _ => is_procedure(kind),
    }
}

/// A formal by value.
pub(crate) fn is_value(kind: Kind) -> bool
    ensures { result ≡ is_value kind }
{
    match kind {
        Kind::IntegerValue | Kind::BooleanValue => true,
        _ => false,
    }
}
