// The constructs of a program that have marks around them in texts. What stands within them isn't told here.
ghost use Rattle.std.specs.Prelude.{◌≡◌, ◌≢◌, ◌≤◌, IfSome, IfNone, Some};
ghost use Rattle.gier_tree.specs.Constructs.{construct_number};

/// A construct that has marks. The number of a variant is the value of its marks.
#[derive(Debug, Clone, Copy, PartialEq, Eq)]
pub enum Construct {
    Program = 1,
    Block = 2,
    Compound = 3,
    TypeDeclaration = 4,
    ArraySegment = 5,
    SwitchDeclaration = 6,
    ProcedureDeclaration = 7,
    ProcedureBody = 8,
    ForStatement = 9,
    ControlledStatement = 10,
    ConditionalStatement = 11,
    Actual = 12,
    Subscript = 13,
    Bound = 14,
    SwitchElement = 15,
    ForElement = 16,
    GoTo = 17,
    ConditionalExpression = 18,
}

impl Construct {
    ghost use Rattle.gier_tree.specs.declared.construct.Construct.{Construct};

    /// The value of the construct's marks.
    pub fn number(self) -> u64
        ensures value { result ≡ construct_number self }
        ensures small { result ≤ 18 }
    {
        self as u64
    }

    /// The construct whose marks have this value, or None where there is none.
    pub fn of(number: u64) -> Option<Construct>
        ensures some { IfSome result (λ construct. construct_number construct ≡ number) }
        ensures every { (construct : Construct) → construct_number construct ≡ number → result ≡ Some construct }
        ensures none { IfNone result ((construct : Construct) → construct_number construct ≢ number) }
    {
        match number {
            1 => Some(Construct::Program),
            2 => Some(Construct::Block),
            3 => Some(Construct::Compound),
            4 => Some(Construct::TypeDeclaration),
            5 => Some(Construct::ArraySegment),
            6 => Some(Construct::SwitchDeclaration),
            7 => Some(Construct::ProcedureDeclaration),
            8 => Some(Construct::ProcedureBody),
            9 => Some(Construct::ForStatement),
            10 => Some(Construct::ControlledStatement),
            11 => Some(Construct::ConditionalStatement),
            12 => Some(Construct::Actual),
            13 => Some(Construct::Subscript),
            14 => Some(Construct::Bound),
            15 => Some(Construct::SwitchElement),
            16 => Some(Construct::ForElement),
            17 => Some(Construct::GoTo),
            18 => Some(Construct::ConditionalExpression),
            _ => None,
        }
    }
}
