// A fault of a program: where it stands, what it is and what it is called.
ghost use Rattle.std.specs.Prelude.{◌≡◌};
ghost use Rattle.gier_text.specs.Faults.{text_of_fault};

/// What is wrong, one variant for each text that is printed.
#[derive(Debug, Clone, Copy, PartialEq, Eq)]
pub enum FaultKind {
    /// `program too long`
    TooLong,
    /// `character`
    Character,
    /// `word`
    Word,
    /// `string`
    Unclosed,
    /// `number`
    Number,
    /// `structure`
    Structure,
    /// `declared twice`
    DeclaredTwice,
    /// `not declared`
    NotDeclared,
    /// `local in bound`
    LocalInBound,
    /// `not formal`
    NotFormal,
    /// `specified twice`
    SpecifiedTwice,
    /// `not specified`
    NotSpecified,
    /// `level`
    Level,
    /// `list too long`
    ListTooLong,
    /// `value`
    Value,
    /// `kind`
    Kind,
    /// `subscripts`
    Subscripts,
    /// `parameter count`
    ParameterCount,
    /// `parameter`
    Parameter,
    /// `bound`
    Bound,
    /// `for`
    ForElement,
    /// `condition`
    Condition,
    /// `branches`
    Branches,
    /// `designational`
    Designational,
    /// `assignment`
    Assignment,
    /// `operand`
    Operand,
}

impl FaultKind {
    /// The text that is printed for it.
    pub fn text(self) -> &'static str
        ensures { result.now ≡ text_of_fault self }
    {
        match self {
            FaultKind::TooLong => "program too long",
            FaultKind::Character => "character",
            FaultKind::Word => "word",
            FaultKind::Unclosed => "string",
            FaultKind::Number => "number",
            FaultKind::Structure => "structure",
            FaultKind::DeclaredTwice => "declared twice",
            FaultKind::NotDeclared => "not declared",
            FaultKind::LocalInBound => "local in bound",
            FaultKind::NotFormal => "not formal",
            FaultKind::SpecifiedTwice => "specified twice",
            FaultKind::NotSpecified => "not specified",
            FaultKind::Level => "level",
            FaultKind::ListTooLong => "list too long",
            FaultKind::Value => "value",
            FaultKind::Kind => "kind",
            FaultKind::Subscripts => "subscripts",
            FaultKind::ParameterCount => "parameter count",
            FaultKind::Parameter => "parameter",
            FaultKind::Bound => "bound",
            FaultKind::ForElement => "for",
            FaultKind::Condition => "condition",
            FaultKind::Branches => "branches",
            FaultKind::Designational => "designational",
            FaultKind::Assignment => "assignment",
            FaultKind::Operand => "operand",
        }
    }
}

/// A fault of the program.
#[derive(Debug, Clone, Copy, PartialEq, Eq)]
pub struct Fault {
    /// Where it stands among the faults of its list.
    pub position: u32,
    /// The line that is printed with it.
    pub line: u32,
    pub kind: FaultKind,
}
