// The kinds of symbols: one row for each tag, with its number, how it is spelled and what its value is.
// The tags of orders, which lie behind all others, have no rows of their own: they are `ORDER_TAG` and the order's number.
ghost use Rattle.std.specs.Prelude.{◌≡◌, ◌≢◌, IfSome, IfNone};
ghost use Rattle.gier_symbol.specs.Tags.{number_of, name_of};

/// The kind of a symbol that isn't an order. The number of a variant is the tag.
///
/// Where no value is named here, the value of a symbol is 0.
#[derive(Debug, Clone, Copy, PartialEq, Eq)]
pub enum Tag {
    /// A letter of text 1; the value is its byte.
    Letter = 1,
    /// A digit of text 1; the value is from 0 to 9.
    Digit = 2,
    /// An identifier; the value is its number in order of first occurrence, from 0.
    Identifier = 3,
    /// A number; the value is its own.
    Number = 4,
    /// A string begins.
    StringBegin = 5,
    /// A byte of a string; the value is the byte.
    StringByte = 6,
    /// A string ends.
    StringEnd = 7,
    /// The end of the text, with the line of the end; in text 3 the value is the number of own quantities.
    TextEnd = 8,
    /// `+`.
    Plus = 10,
    /// `-`.
    Minus = 11,
    /// `*`.
    Times = 12,
    /// `_div`, quoted `'DIV'`.
    Div = 13,
    /// `^`.
    Power = 14,
    /// `<`.
    Less = 15,
    /// `<=`.
    NotGreater = 16,
    /// `=`.
    Equal = 17,
    /// `>=`.
    NotLess = 18,
    /// `>`.
    Greater = 19,
    /// `<>`.
    NotEqual = 20,
    /// `_not`, quoted `'NOT'`.
    Not = 21,
    /// `_and`, quoted `'AND'`.
    And = 22,
    /// `_or`, quoted `'OR'`.
    Or = 23,
    /// `_impl`, quoted `'IMPL'`.
    Impl = 24,
    /// `_equiv`, quoted `'EQUIV'`.
    Equiv = 25,
    /// `_true`, quoted `'TRUE'`.
    True = 26,
    /// `_false`, quoted `'FALSE'`.
    False = 27,
    /// `,`.
    Comma = 28,
    /// `:`.
    Colon = 29,
    /// `;`.
    Semicolon = 30,
    /// `:=`.
    Becomes = 31,
    /// `(`.
    LeftParenthesis = 32,
    /// `)`.
    RightParenthesis = 33,
    /// `[`.
    LeftBracket = 34,
    /// `]`.
    RightBracket = 35,
    /// `_begin`, quoted `'BEGIN'`.
    Begin = 36,
    /// `_end`, quoted `'END'`.
    End = 37,
    /// `_if`, quoted `'IF'`.
    If = 38,
    /// `_then`, quoted `'THEN'`.
    Then = 39,
    /// `_else`, quoted `'ELSE'`.
    Else = 40,
    /// `_for`, quoted `'FOR'`.
    For = 41,
    /// `_step`, quoted `'STEP'`.
    Step = 42,
    /// `_until`, quoted `'UNTIL'`.
    Until = 43,
    /// `_while`, quoted `'WHILE'`.
    While = 44,
    /// `_do`, quoted `'DO'`.
    Do = 45,
    /// `_goto`, quoted `'GOTO'`.
    Goto = 46,
    /// `_integer`, quoted `'INTEGER'`.
    Integer = 47,
    /// `_boolean`, quoted `'BOOLEAN'`.
    Boolean = 48,
    /// `_array`, quoted `'ARRAY'`.
    Array = 49,
    /// `_switch`, quoted `'SWITCH'`.
    Switch = 50,
    /// `_procedure`, quoted `'PROCEDURE'`.
    Procedure = 51,
    /// `_string`, quoted `'STRING'`.
    String = 52,
    /// `_label`, quoted `'LABEL'`.
    Label = 53,
    /// `_value`, quoted `'VALUE'`.
    Value = 54,
    /// `_own`, quoted `'OWN'`.
    Own = 55,
    /// A `+` that leads a simple arithmetic expression.
    LeadingPlus = 60,
    /// A `-` that leads one.
    LeadingMinus = 61,
    /// The `:` behind a label.
    LabelColon = 62,
    /// An identifier in a declaring place; the value is its number.
    Declaring = 63,
    /// An identifier in a formal list; the value is its number.
    Formal = 64,
    /// An identifier in a value list; the value is its number.
    ValueListed = 65,
    /// An identifier in a specification; the value is its number.
    Specified = 66,
    /// A construct begins; the value is the number of its kind.
    OpenMark = 67,
    /// A construct ends; the value is the number of its kind.
    ShutMark = 68,
    /// An entry of a scope; the value is the number of the declared identifier.
    Entry = 69,
    /// The description of an entry or a formal; the value is its kind.
    Description = 70,
    /// The description of a used identifier; the value is its kind.
    Used = 71,
    /// The place of a used identifier; the value is level * 2^24 + address.
    Place = 72,
    /// The number of dimensions of an array, or of formals of a procedure.
    Count = 73,
    /// An operator behind its operands; the value is the operator's tag.
    Operation = 74,
    /// Stands behind the subscripts; the value is their number.
    Subscripted = 75,
    /// Stands behind the actuals; the value is their number.
    Called = 76,
    /// Stands behind the declaring place of an own quantity; the value is the quantity's number, from 0.
    OwnNumber = 77,
    /// An own quantity's fresh identifier, in its entry in place of description and count.
    OwnEntry = 78,
    /// A word of the object; the value is the word.
    Word = 120,
    /// The place at which a label is defined; the value is the label's number.
    LabelPlace = 121,
    /// An order whose address is a label number; the value is op * 2^32 + level * 2^24 + number.
    LabelOrder = 122,
    /// A word of the object that is a label number.
    LabelWord = 123,
    /// An order whose room is still open; its address is the room without what the activation needs.
    OpenRoom = 124,
    /// What an activation needs, behind its last order.
    Need = 125,
    /// The number of words of the object, the last symbol.
    ObjectWords = 126,
}

impl Tag {
    ghost use Rattle.gier_symbol.specs.declared.tag.Tag.{Tag};

    /// The tag's number.
    pub fn number(self) -> u16
        ensures { result ≡ number_of self }
    {
        self as u16
    }

    /// The tag with this number, or None where no row has it.
    pub fn of(number: u16) -> Option<Tag>
        ensures some { IfSome result (λ tag. number_of tag ≡ number) }
        ensures none { IfNone result ((tag : Tag) → number_of tag ≢ number) }
    {
        match number {
            1 => Some(Tag::Letter),
            2 => Some(Tag::Digit),
            3 => Some(Tag::Identifier),
            4 => Some(Tag::Number),
            5 => Some(Tag::StringBegin),
            6 => Some(Tag::StringByte),
            7 => Some(Tag::StringEnd),
            8 => Some(Tag::TextEnd),
            10 => Some(Tag::Plus),
            11 => Some(Tag::Minus),
            12 => Some(Tag::Times),
            13 => Some(Tag::Div),
            14 => Some(Tag::Power),
            15 => Some(Tag::Less),
            16 => Some(Tag::NotGreater),
            17 => Some(Tag::Equal),
            18 => Some(Tag::NotLess),
            19 => Some(Tag::Greater),
            20 => Some(Tag::NotEqual),
            21 => Some(Tag::Not),
            22 => Some(Tag::And),
            23 => Some(Tag::Or),
            24 => Some(Tag::Impl),
            25 => Some(Tag::Equiv),
            26 => Some(Tag::True),
            27 => Some(Tag::False),
            28 => Some(Tag::Comma),
            29 => Some(Tag::Colon),
            30 => Some(Tag::Semicolon),
            31 => Some(Tag::Becomes),
            32 => Some(Tag::LeftParenthesis),
            33 => Some(Tag::RightParenthesis),
            34 => Some(Tag::LeftBracket),
            35 => Some(Tag::RightBracket),
            36 => Some(Tag::Begin),
            37 => Some(Tag::End),
            38 => Some(Tag::If),
            39 => Some(Tag::Then),
            40 => Some(Tag::Else),
            41 => Some(Tag::For),
            42 => Some(Tag::Step),
            43 => Some(Tag::Until),
            44 => Some(Tag::While),
            45 => Some(Tag::Do),
            46 => Some(Tag::Goto),
            47 => Some(Tag::Integer),
            48 => Some(Tag::Boolean),
            49 => Some(Tag::Array),
            50 => Some(Tag::Switch),
            51 => Some(Tag::Procedure),
            52 => Some(Tag::String),
            53 => Some(Tag::Label),
            54 => Some(Tag::Value),
            55 => Some(Tag::Own),
            60 => Some(Tag::LeadingPlus),
            61 => Some(Tag::LeadingMinus),
            62 => Some(Tag::LabelColon),
            63 => Some(Tag::Declaring),
            64 => Some(Tag::Formal),
            65 => Some(Tag::ValueListed),
            66 => Some(Tag::Specified),
            67 => Some(Tag::OpenMark),
            68 => Some(Tag::ShutMark),
            69 => Some(Tag::Entry),
            70 => Some(Tag::Description),
            71 => Some(Tag::Used),
            72 => Some(Tag::Place),
            73 => Some(Tag::Count),
            74 => Some(Tag::Operation),
            75 => Some(Tag::Subscripted),
            76 => Some(Tag::Called),
            77 => Some(Tag::OwnNumber),
            78 => Some(Tag::OwnEntry),
            120 => Some(Tag::Word),
            121 => Some(Tag::LabelPlace),
            122 => Some(Tag::LabelOrder),
            123 => Some(Tag::LabelWord),
            124 => Some(Tag::OpenRoom),
            125 => Some(Tag::Need),
            126 => Some(Tag::ObjectWords),
            _ => None,
        }
    }

    /// The bytes of a sign, or the letters of a word in lower case; nothing for a tag without a spelling of its own.
    pub fn name(self) -> &'static [u8]
        ensures { result.now ≡ name_of self }
    {
        match self {
            Tag::Plus => b"+",
            Tag::Minus => b"-",
            Tag::Times => b"*",
            Tag::Div => b"div",
            Tag::Power => b"^",
            Tag::Less => b"<",
            Tag::NotGreater => b"<=",
            Tag::Equal => b"=",
            Tag::NotLess => b">=",
            Tag::Greater => b">",
            Tag::NotEqual => b"<>",
            Tag::Not => b"not",
            Tag::And => b"and",
            Tag::Or => b"or",
            Tag::Impl => b"impl",
            Tag::Equiv => b"equiv",
            Tag::True => b"true",
            Tag::False => b"false",
            Tag::Comma => b",",
            Tag::Colon => b":",
            Tag::Semicolon => b";",
            Tag::Becomes => b":=",
            Tag::LeftParenthesis => b"(",
            Tag::RightParenthesis => b")",
            Tag::LeftBracket => b"[",
            Tag::RightBracket => b"]",
            Tag::Begin => b"begin",
            Tag::End => b"end",
            Tag::If => b"if",
            Tag::Then => b"then",
            Tag::Else => b"else",
            Tag::For => b"for",
            Tag::Step => b"step",
            Tag::Until => b"until",
            Tag::While => b"while",
            Tag::Do => b"do",
            Tag::Goto => b"goto",
            Tag::Integer => b"integer",
            Tag::Boolean => b"boolean",
            Tag::Array => b"array",
            Tag::Switch => b"switch",
            Tag::Procedure => b"procedure",
            Tag::String => b"string",
            Tag::Label => b"label",
            Tag::Value => b"value",
            Tag::Own => b"own",
            _ => b"",
        }
    }
}
