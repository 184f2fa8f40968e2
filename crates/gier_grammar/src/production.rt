// The productions: what is done with the symbol that a grammar symbol takes, and what is wanted then.
ghost use Rattle.std.specs.Prelude.{◌≡◌};

use gier_symbol::Tag;
use gier_tree::Construct;

/// What a symbol is written as, where its place gives it a tag of its own.
#[derive(Debug, Clone, Copy, PartialEq, Eq)]
pub enum Role {
    Declaring,
    Formal,
    ValueListed,
    Specified,
    LabelColon,
    LeadingPlus,
    LeadingMinus,
}

impl Role {
    ghost use Rattle.gier_grammar.specs.Productions.{tag_of};

    /// The tag of the role.
    pub fn tag(self) -> Tag
        ensures { result ≡ tag_of self }
    {
        match self {
            Role::Declaring => Tag::Declaring,
            Role::Formal => Tag::Formal,
            Role::ValueListed => Tag::ValueListed,
            Role::Specified => Tag::Specified,
            Role::LabelColon => Tag::LabelColon,
            Role::LeadingPlus => Tag::LeadingPlus,
            Role::LeadingMinus => Tag::LeadingMinus,
        }
    }
}

/// What a production does with the symbol.
#[derive(Debug, Clone, Copy, PartialEq, Eq)]
pub enum Action {
    /// Opens a construct before the lookahead.
    Open(Construct),
    /// Writes the lookahead.
    WriteLookahead,
    /// Writes the symbol.
    Write,
    /// Writes the symbol in a role.
    WriteAs(Role),
    /// Writes the number of the own quantity that was declared.
    WriteOwn,
    /// Writes the end with the number of own quantities.
    WriteEnd,
    /// Puts the symbol into the lookahead.
    Lookahead,
    /// Puts an identifier there that may be a label.
    LookaheadName,
    /// Makes this identifier a label, with the symbol as its colon.
    LookaheadLabel,
}

/// What a grammar symbol takes a symbol for.
#[derive(Debug, Clone, Copy, PartialEq, Eq)]
pub enum Production {
    /// The symbol alone.
    Plain,
    /// A label of the program.
    ProgramLabel,
    /// The `:` behind it.
    ProgramColon,
    /// The end of the text.
    End,
    /// `_begin`; what follows tells what it begins.
    Begin,
    /// The first declaration of a block begins with `_own`.
    FirstOwn,
    /// It begins with a type.
    FirstType,
    /// It is that of a switch.
    FirstSwitch,
    /// It is that of a procedure without a type.
    FirstProcedure,
    /// The `;` behind it.
    FirstEnded,
    /// A further declaration begins with `_own`.
    NextOwn,
    /// It begins with a type.
    NextType,
    /// It is that of a switch.
    NextSwitch,
    /// It is that of a procedure without a type.
    NextProcedure,
    /// The `;` behind it.
    NextEnded,
    /// The `;` between statements of a block.
    BlockNext,
    /// The `_end` of a block.
    BlockEnd,
    /// The first statement of a compound begins with an identifier.
    CompoundName,
    /// It begins with `_begin`.
    CompoundBegin,
    /// It is conditional.
    CompoundIf,
    /// It is a for statement.
    CompoundFor,
    /// It is a go to.
    CompoundGoTo,
    /// It is nothing, and another one follows.
    CompoundNothing,
    /// It is nothing, and no other one follows.
    CompoundEmpty,
    /// The `;` between statements of a compound.
    CompoundNext,
    /// The `_end` of a compound.
    CompoundEnd,
    /// The type of an own declaration.
    OwnType,
    /// The first own variable.
    OwnNames,
    /// A further own quantity.
    OwnName,
    /// The `,` before it.
    OwnComma,
    /// The `_array` of own arrays.
    OwnArray,
    /// The `,` between segments of own arrays.
    FixedSegment,
    /// The `[` before the first pair of constants.
    FirstPair,
    /// The `,` before a further pair.
    NextPair,
    /// The `:` between constants.
    FixedUpper,
    /// The first variable of a type declaration.
    TypeNames,
    /// A further identifier that is declared.
    Name,
    /// The `,` before it.
    Comma,
    /// The `_array` behind a type.
    Array,
    /// The `,` between segments of arrays.
    Segment,
    /// The `[` or `,` before a pair of bounds.
    Bound,
    /// The `:` between bounds.
    UpperBound,
    /// The `:=` or `,` before an element of a switch.
    SwitchElement,
    /// The `_procedure` behind a type.
    TypedProcedure,
    /// The `(` or `,` before a formal.
    Formals,
    /// A formal.
    Formal,
    /// The `;` of a procedure heading.
    Headed,
    /// `_value`.
    Values,
    /// The `,` in a value list.
    ValueComma,
    /// An identifier in a value list.
    ValueName,
    /// The type of a specification.
    TypeSpecification,
    /// The word of a specification without a type.
    Specification,
    /// The `,` in a specification.
    SpecifiedComma,
    /// An identifier in a specification.
    SpecifiedName,
    /// An identifier that begins a statement.
    StatementName,
    /// The `:` that makes it a label.
    Label,
    /// A conditional statement.
    If,
    /// A for statement.
    For,
    /// A go to.
    GoTo,
    /// The `:=` behind a variable that begins a statement.
    Assignment,
    /// The `(` behind an identifier that begins a statement.
    Call,
    /// The `[` behind an identifier that begins a statement.
    Element,
    /// An identifier that begins a statement behind `_then`.
    BranchName,
    /// The `:` that makes it a label.
    BranchLabel,
    /// `_begin` behind `_then`.
    BranchBegin,
    /// A go to behind `_then`.
    BranchGoTo,
    /// The `:=` behind a variable that begins a statement behind `_then`.
    BranchAssignment,
    /// The `(` behind an identifier that begins a statement behind `_then`.
    BranchCall,
    /// The `[` behind such an identifier.
    BranchElement,
    /// The `_else` where nothing more follows `_then`.
    BranchElse,
    /// The `_else` of a conditional statement.
    Else,
    /// The `:=` or `,` before a for element.
    ForElement,
    /// `_do`.
    Do,
    /// `_step`.
    Step,
    /// `_while`.
    While,
    /// The `:=` behind a further left part.
    Right,
    /// An identifier behind `:=`.
    RightName,
    /// The `[` behind it.
    RightElement,
    /// The `(` behind it.
    RightCall,
    /// An arithmetic operator behind a variable.
    RightArithmetic,
    /// A relation behind a variable.
    RightRelation,
    /// A logical operator behind a variable.
    RightLogic,
    /// The `_if` of a conditional expression.
    Condition,
    /// `_not` that begins an expression.
    FirstNot,
    /// `+` that begins an expression.
    FirstPlus,
    /// `-` that begins an expression.
    FirstMinus,
    /// A number or logical value that begins an expression.
    FirstConstant,
    /// An identifier that begins an expression.
    FirstName,
    /// `(` that begins an expression.
    FirstGroup,
    /// A leading `+`.
    LeadingPlus,
    /// A leading `-`.
    LeadingMinus,
    /// An identifier.
    PrimaryName,
    /// `(` before an expression.
    Group,
    /// `^`.
    Power,
    /// `*` or `_div`.
    Times,
    /// `+` or `-` behind a term.
    Sum,
    /// A relation.
    Relation,
    /// `_and`.
    And,
    /// `_or`.
    Or,
    /// `_impl`.
    Implication,
    /// `_equiv`.
    Equivalence,
    /// The `[` or `,` before a subscript.
    Subscript,
    /// The `(` or `,` before an actual.
    Actual,
    /// The beginning or a byte of a string.
    StringMore,
}

impl Production {
    ghost use Rattle.gier_grammar.specs.Productions.{actions_of};

    /// What is done with the symbol, in order.
    pub fn actions(self) -> &'static [Action]
        ensures { result.now ≡ actions_of self }
    {
        match self {
            Production::ProgramLabel | Production::Name => &[Action::WriteAs(Role::Declaring)],
            Production::ProgramColon => &[Action::WriteAs(Role::LabelColon)],
            Production::End => &[Action::WriteEnd],
            Production::Begin | Production::BranchBegin => &[
                Action::WriteLookahead,
                Action::Lookahead,
            ],
            Production::FirstOwn | Production::FirstType => &[
                Action::Open(Construct::Block),
                Action::WriteLookahead,
                Action::Lookahead,
            ],
            Production::FirstSwitch => &[
                Action::Open(Construct::Block),
                Action::WriteLookahead,
                Action::Open(Construct::SwitchDeclaration),
                Action::Write,
            ],
            Production::FirstProcedure => &[
                Action::Open(Construct::Block),
                Action::WriteLookahead,
                Action::Open(Construct::ProcedureDeclaration),
                Action::Write,
            ],
            Production::NextOwn | Production::NextType | Production::OwnType => &[
                Action::Lookahead,
            ],
            Production::NextSwitch => &[Action::Open(Construct::SwitchDeclaration), Action::Write],
            Production::NextProcedure => &[
                Action::Open(Construct::ProcedureDeclaration),
                Action::Write,
            ],
            Production::CompoundName => &[
                Action::Open(Construct::Compound),
                Action::WriteLookahead,
                Action::LookaheadName,
            ],
            Production::CompoundBegin => &[
                Action::Open(Construct::Compound),
                Action::WriteLookahead,
                Action::Lookahead,
            ],
            Production::CompoundIf => &[
                Action::Open(Construct::Compound),
                Action::WriteLookahead,
                Action::Open(Construct::ConditionalStatement),
                Action::Write,
            ],
            Production::CompoundFor => &[
                Action::Open(Construct::Compound),
                Action::WriteLookahead,
                Action::Open(Construct::ForStatement),
                Action::Write,
            ],
            Production::CompoundGoTo => &[
                Action::Open(Construct::Compound),
                Action::WriteLookahead,
                Action::Open(Construct::GoTo),
                Action::Write,
            ],
            Production::CompoundNothing | Production::CompoundEmpty => &[
                Action::Open(Construct::Compound),
                Action::WriteLookahead,
                Action::Write,
            ],
            Production::OwnNames => &[
                Action::Open(Construct::TypeDeclaration),
                Action::WriteLookahead,
                Action::WriteAs(Role::Declaring),
                Action::WriteOwn,
            ],
            Production::OwnName => &[Action::WriteAs(Role::Declaring), Action::WriteOwn],
            Production::OwnArray
            | Production::Array
            | Production::Assignment
            | Production::Call
            | Production::Element
            | Production::BranchAssignment
            | Production::BranchCall
            | Production::BranchElement
            | Production::BranchElse => &[Action::WriteLookahead, Action::Write],
            Production::TypeNames => &[
                Action::Open(Construct::TypeDeclaration),
                Action::WriteLookahead,
                Action::WriteAs(Role::Declaring),
            ],
            Production::TypedProcedure => &[
                Action::Open(Construct::ProcedureDeclaration),
                Action::WriteLookahead,
                Action::Write,
            ],
            Production::Formal => &[Action::WriteAs(Role::Formal)],
            Production::ValueName => &[Action::WriteAs(Role::ValueListed)],
            Production::SpecifiedName => &[Action::WriteAs(Role::Specified)],
            Production::StatementName | Production::BranchName => &[Action::LookaheadName],
            Production::Label | Production::BranchLabel => &[Action::LookaheadLabel],
            Production::If => &[
                Action::Open(Construct::ConditionalStatement),
                Action::WriteLookahead,
                Action::Write,
            ],
            Production::For => &[
                Action::Open(Construct::ForStatement),
                Action::WriteLookahead,
                Action::Write,
            ],
            Production::GoTo | Production::BranchGoTo => &[
                Action::WriteLookahead,
                Action::Open(Construct::GoTo),
                Action::Write,
            ],
            Production::Condition => &[
                Action::Open(Construct::ConditionalExpression),
                Action::Write,
            ],
            Production::FirstPlus | Production::LeadingPlus => &[Action::WriteAs(
                Role::LeadingPlus,
            )],
            Production::FirstMinus | Production::LeadingMinus => &[Action::WriteAs(
                Role::LeadingMinus,
            )],
            _ => &[Action::Write],
        }
    }
}
