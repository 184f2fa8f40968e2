// The grammar symbols: what may be wanted next of a program. The stack of the pass holds these.
ghost use Rattle.std.specs.Prelude.{◌≡◌, ◌≢◌, IfSome, IfNone};

use gier_tree::Construct;

/// What is wanted next.
///
/// A symbol whose name begins with `May` or `More` may be nothing. Those that open and shut constructs want no symbol: they
/// write a mark. The number of a variant is its place here, from 0.
#[derive(Debug, Clone, Copy, PartialEq, Eq)]
pub enum GrammarSymbol {
    OpenProgram,
    OpenArraySegment,
    OpenProcedureBody,
    OpenControlledStatement,
    OpenActual,
    OpenSubscript,
    OpenBound,
    OpenSwitchElement,
    OpenForElement,
    ShutProgram,
    ShutBlock,
    ShutCompound,
    ShutTypeDeclaration,
    ShutArraySegment,
    ShutSwitchDeclaration,
    ShutProcedureDeclaration,
    ShutProcedureBody,
    ShutForStatement,
    ShutControlledStatement,
    ShutConditionalStatement,
    ShutActual,
    ShutSubscript,
    ShutBound,
    ShutSwitchElement,
    ShutForElement,
    ShutGoTo,
    ShutConditionalExpression,
    /// What follows `_own` and a type; both are in the lookahead.
    AfterOwnType,
    /// Labels, and a block or compound.
    Program,
    /// The `:` of a label of the program.
    ProgramColon,
    /// The end of the text.
    TextEnd,
    /// A declaration or statement behind `_begin`, which is in the lookahead.
    AfterBegin,
    /// `;` and a statement, or `_end`, of a block.
    BlockTail,
    /// `;` and a statement, or `_end`, of a compound.
    CompoundTail,
    /// The `;` behind the first declaration of a block, and all that follows it.
    FirstDeclared,
    /// The `;` behind a further declaration, and more declarations.
    Declared,
    MoreDeclarations,
    /// The type behind `_own`, which is in the lookahead.
    OwnType,
    /// An identifier that declares an own quantity.
    OwnName,
    MoreOwnNames,
    /// The `[` of an own array.
    FixedBounds,
    /// The `:` between constants.
    FixedColon,
    /// `]`, or `,` and one pair more of constants. How many more are allowed stands beside it.
    MorePairs,
    MoreFixedSegments,
    /// What follows a type, which is in the lookahead.
    AfterType,
    /// An identifier that is declared.
    Name,
    MoreNames,
    /// The `[` of an array.
    Bounds,
    /// The `:` between bounds.
    BoundColon,
    /// `]`, or `,` and one pair more of bounds.
    BoundTail,
    MoreSegments,
    /// The `:=` of a switch.
    SwitchBecomes,
    MoreSwitchElements,
    MayFormals,
    Formal,
    /// `)`, or `,` and one formal more.
    FormalTail,
    /// The `;` of a procedure heading, and all that follows it.
    Heading,
    MayValues,
    ValueName,
    MoreValueNames,
    Semicolon,
    MoreSpecifications,
    /// `_array` or `_procedure` behind a type.
    MaySpecifier,
    SpecifiedName,
    MoreSpecifiedNames,
    /// A statement. Its labels are in the lookahead.
    Statement,
    /// What follows an identifier that begins a statement; it is in the lookahead.
    AfterName,
    /// A statement behind `_then`.
    Branch,
    /// What follows an identifier that begins a statement behind `_then`; it is in the lookahead.
    AfterBranchName,
    MayElse,
    ForVariable,
    /// The `:=` of a for statement.
    ForBecomes,
    /// `_step` or `_while`.
    MayStep,
    /// `_do`, or `,` and one element more.
    ForTail,
    Until,
    /// The `:=` behind a left part with subscripts.
    Becomes,
    /// What stands behind `:=`: a left part or an expression.
    Right,
    /// What follows an identifier behind `:=`.
    AfterRightName,
    /// What follows an identifier with subscripts behind `:=`.
    AfterRightElement,
    Expression,
    /// An expression that isn't conditional.
    Simple,
    Then,
    Else,
    MayNot,
    MaySign,
    Number,
    Primary,
    MayPower,
    MayTimes,
    MaySum,
    MayRelation,
    MayAnd,
    MayOr,
    MayImplication,
    MayEquivalence,
    /// Subscripts or actuals behind an identifier.
    MayPart,
    /// `]`, or `,` and one subscript more.
    SubscriptTail,
    /// An expression or a string.
    Actual,
    /// Bytes of a string, and its end.
    StringRest,
    /// `)`, or `,` and one actual more.
    ActualTail,
    RightParenthesis,
}

/// What a grammar symbol that wants no symbol of the text writes.
#[derive(Debug, Clone, Copy, PartialEq, Eq)]
pub enum Mark {
    Open(Construct),
    Shut(Construct),
}

impl GrammarSymbol {
    ghost use Rattle.gier_grammar.specs.GrammarSymbols.{number_of, mark_of, credit_of};
    ghost use Rattle.gier_grammar.specs.declared.grammar_symbol.GrammarSymbol.{GrammarSymbol};

    /// The number of the grammar symbol.
    pub fn number(self) -> u64
        ensures { result ≡ number_of self }
    {
        self as u64
    }

    /// The grammar symbol with this number, if there is one.
    pub fn of(number: u64) -> Option<GrammarSymbol>
        ensures some { IfSome result (λ item. number_of item ≡ number) }
        ensures none { IfNone result ((item : GrammarSymbol) → number_of item ≢ number) }
    {
        match number {
            0 => Some(GrammarSymbol::OpenProgram),
            1 => Some(GrammarSymbol::OpenArraySegment),
            2 => Some(GrammarSymbol::OpenProcedureBody),
            3 => Some(GrammarSymbol::OpenControlledStatement),
            4 => Some(GrammarSymbol::OpenActual),
            5 => Some(GrammarSymbol::OpenSubscript),
            6 => Some(GrammarSymbol::OpenBound),
            7 => Some(GrammarSymbol::OpenSwitchElement),
            8 => Some(GrammarSymbol::OpenForElement),
            9 => Some(GrammarSymbol::ShutProgram),
            10 => Some(GrammarSymbol::ShutBlock),
            11 => Some(GrammarSymbol::ShutCompound),
            12 => Some(GrammarSymbol::ShutTypeDeclaration),
            13 => Some(GrammarSymbol::ShutArraySegment),
            14 => Some(GrammarSymbol::ShutSwitchDeclaration),
            15 => Some(GrammarSymbol::ShutProcedureDeclaration),
            16 => Some(GrammarSymbol::ShutProcedureBody),
            17 => Some(GrammarSymbol::ShutForStatement),
            18 => Some(GrammarSymbol::ShutControlledStatement),
            19 => Some(GrammarSymbol::ShutConditionalStatement),
            20 => Some(GrammarSymbol::ShutActual),
            21 => Some(GrammarSymbol::ShutSubscript),
            22 => Some(GrammarSymbol::ShutBound),
            23 => Some(GrammarSymbol::ShutSwitchElement),
            24 => Some(GrammarSymbol::ShutForElement),
            25 => Some(GrammarSymbol::ShutGoTo),
            26 => Some(GrammarSymbol::ShutConditionalExpression),
            27 => Some(GrammarSymbol::AfterOwnType),
            28 => Some(GrammarSymbol::Program),
            29 => Some(GrammarSymbol::ProgramColon),
            30 => Some(GrammarSymbol::TextEnd),
            31 => Some(GrammarSymbol::AfterBegin),
            32 => Some(GrammarSymbol::BlockTail),
            33 => Some(GrammarSymbol::CompoundTail),
            34 => Some(GrammarSymbol::FirstDeclared),
            35 => Some(GrammarSymbol::Declared),
            36 => Some(GrammarSymbol::MoreDeclarations),
            37 => Some(GrammarSymbol::OwnType),
            38 => Some(GrammarSymbol::OwnName),
            39 => Some(GrammarSymbol::MoreOwnNames),
            40 => Some(GrammarSymbol::FixedBounds),
            41 => Some(GrammarSymbol::FixedColon),
            42 => Some(GrammarSymbol::MorePairs),
            43 => Some(GrammarSymbol::MoreFixedSegments),
            44 => Some(GrammarSymbol::AfterType),
            45 => Some(GrammarSymbol::Name),
            46 => Some(GrammarSymbol::MoreNames),
            47 => Some(GrammarSymbol::Bounds),
            48 => Some(GrammarSymbol::BoundColon),
            49 => Some(GrammarSymbol::BoundTail),
            50 => Some(GrammarSymbol::MoreSegments),
            51 => Some(GrammarSymbol::SwitchBecomes),
            52 => Some(GrammarSymbol::MoreSwitchElements),
            53 => Some(GrammarSymbol::MayFormals),
            54 => Some(GrammarSymbol::Formal),
            55 => Some(GrammarSymbol::FormalTail),
            56 => Some(GrammarSymbol::Heading),
            57 => Some(GrammarSymbol::MayValues),
            58 => Some(GrammarSymbol::ValueName),
            59 => Some(GrammarSymbol::MoreValueNames),
            60 => Some(GrammarSymbol::Semicolon),
            61 => Some(GrammarSymbol::MoreSpecifications),
            62 => Some(GrammarSymbol::MaySpecifier),
            63 => Some(GrammarSymbol::SpecifiedName),
            64 => Some(GrammarSymbol::MoreSpecifiedNames),
            65 => Some(GrammarSymbol::Statement),
            66 => Some(GrammarSymbol::AfterName),
            67 => Some(GrammarSymbol::Branch),
            68 => Some(GrammarSymbol::AfterBranchName),
            69 => Some(GrammarSymbol::MayElse),
            70 => Some(GrammarSymbol::ForVariable),
            71 => Some(GrammarSymbol::ForBecomes),
            72 => Some(GrammarSymbol::MayStep),
            73 => Some(GrammarSymbol::ForTail),
            74 => Some(GrammarSymbol::Until),
            75 => Some(GrammarSymbol::Becomes),
            76 => Some(GrammarSymbol::Right),
            77 => Some(GrammarSymbol::AfterRightName),
            78 => Some(GrammarSymbol::AfterRightElement),
            79 => Some(GrammarSymbol::Expression),
            80 => Some(GrammarSymbol::Simple),
            81 => Some(GrammarSymbol::Then),
            82 => Some(GrammarSymbol::Else),
            83 => Some(GrammarSymbol::MayNot),
            84 => Some(GrammarSymbol::MaySign),
            85 => Some(GrammarSymbol::Number),
            86 => Some(GrammarSymbol::Primary),
            87 => Some(GrammarSymbol::MayPower),
            88 => Some(GrammarSymbol::MayTimes),
            89 => Some(GrammarSymbol::MaySum),
            90 => Some(GrammarSymbol::MayRelation),
            91 => Some(GrammarSymbol::MayAnd),
            92 => Some(GrammarSymbol::MayOr),
            93 => Some(GrammarSymbol::MayImplication),
            94 => Some(GrammarSymbol::MayEquivalence),
            95 => Some(GrammarSymbol::MayPart),
            96 => Some(GrammarSymbol::SubscriptTail),
            97 => Some(GrammarSymbol::Actual),
            98 => Some(GrammarSymbol::StringRest),
            99 => Some(GrammarSymbol::ActualTail),
            100 => Some(GrammarSymbol::RightParenthesis),
            _ => None,
        }
    }

    /// The mark that the grammar symbol writes, if it wants no symbol of the text.
    pub fn mark(self) -> Option<Mark>
        ensures value { result ≡ mark_of self }
        ensures paid { IfSome result (λ mark. credit_of self ≡ 1) }
    {
        match self {
            GrammarSymbol::OpenProgram => Some(Mark::Open(Construct::Program)),
            GrammarSymbol::OpenArraySegment => Some(Mark::Open(Construct::ArraySegment)),
            GrammarSymbol::OpenProcedureBody => Some(Mark::Open(Construct::ProcedureBody)),
            GrammarSymbol::OpenControlledStatement => Some(Mark::Open(
                Construct::ControlledStatement,
            )),
            GrammarSymbol::OpenActual => Some(Mark::Open(Construct::Actual)),
            GrammarSymbol::OpenSubscript => Some(Mark::Open(Construct::Subscript)),
            GrammarSymbol::OpenBound => Some(Mark::Open(Construct::Bound)),
            GrammarSymbol::OpenSwitchElement => Some(Mark::Open(Construct::SwitchElement)),
            GrammarSymbol::OpenForElement => Some(Mark::Open(Construct::ForElement)),
            GrammarSymbol::ShutProgram => Some(Mark::Shut(Construct::Program)),
            GrammarSymbol::ShutBlock => Some(Mark::Shut(Construct::Block)),
            GrammarSymbol::ShutCompound => Some(Mark::Shut(Construct::Compound)),
            GrammarSymbol::ShutTypeDeclaration => Some(Mark::Shut(Construct::TypeDeclaration)),
            GrammarSymbol::ShutArraySegment => Some(Mark::Shut(Construct::ArraySegment)),
            GrammarSymbol::ShutSwitchDeclaration => Some(Mark::Shut(Construct::SwitchDeclaration)),
            GrammarSymbol::ShutProcedureDeclaration => Some(Mark::Shut(
                Construct::ProcedureDeclaration,
            )),
            GrammarSymbol::ShutProcedureBody => Some(Mark::Shut(Construct::ProcedureBody)),
            GrammarSymbol::ShutForStatement => Some(Mark::Shut(Construct::ForStatement)),
            GrammarSymbol::ShutControlledStatement => Some(Mark::Shut(
                Construct::ControlledStatement,
            )),
            GrammarSymbol::ShutConditionalStatement => Some(Mark::Shut(
                Construct::ConditionalStatement,
            )),
            GrammarSymbol::ShutActual => Some(Mark::Shut(Construct::Actual)),
            GrammarSymbol::ShutSubscript => Some(Mark::Shut(Construct::Subscript)),
            GrammarSymbol::ShutBound => Some(Mark::Shut(Construct::Bound)),
            GrammarSymbol::ShutSwitchElement => Some(Mark::Shut(Construct::SwitchElement)),
            GrammarSymbol::ShutForElement => Some(Mark::Shut(Construct::ForElement)),
            GrammarSymbol::ShutGoTo => Some(Mark::Shut(Construct::GoTo)),
            GrammarSymbol::ShutConditionalExpression => Some(Mark::Shut(
                Construct::ConditionalExpression,
            )),
            _ => None,
        }
    }
}
