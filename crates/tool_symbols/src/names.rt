// The words by which tests name symbols, constructs and kinds: the names of the variants in small letters. How words make a text
// isn't told here.
use gier_order::Operation;
use gier_symbol::Tag;
use gier_tree::{Construct, Kind};

// Symbols.
const TAGS: [(&str, Tag); 80] = [
    ("letter", Tag::Letter),
    ("digit", Tag::Digit),
    ("identifier", Tag::Identifier),
    ("number", Tag::Number),
    ("string_begin", Tag::StringBegin),
    ("string_byte", Tag::StringByte),
    ("string_end", Tag::StringEnd),
    ("text_end", Tag::TextEnd),
    ("plus", Tag::Plus),
    ("minus", Tag::Minus),
    ("times", Tag::Times),
    ("div", Tag::Div),
    ("power", Tag::Power),
    ("less", Tag::Less),
    ("not_greater", Tag::NotGreater),
    ("equal", Tag::Equal),
    ("not_less", Tag::NotLess),
    ("greater", Tag::Greater),
    ("not_equal", Tag::NotEqual),
    ("not", Tag::Not),
    ("and", Tag::And),
    ("or", Tag::Or),
    ("impl", Tag::Impl),
    ("equiv", Tag::Equiv),
    ("true", Tag::True),
    ("false", Tag::False),
    ("comma", Tag::Comma),
    ("colon", Tag::Colon),
    ("semicolon", Tag::Semicolon),
    ("becomes", Tag::Becomes),
    ("left_parenthesis", Tag::LeftParenthesis),
    ("right_parenthesis", Tag::RightParenthesis),
    ("left_bracket", Tag::LeftBracket),
    ("right_bracket", Tag::RightBracket),
    ("begin", Tag::Begin),
    ("end", Tag::End),
    ("if", Tag::If),
    ("then", Tag::Then),
    ("else", Tag::Else),
    ("for", Tag::For),
    ("step", Tag::Step),
    ("until", Tag::Until),
    ("while", Tag::While),
    ("do", Tag::Do),
    ("goto", Tag::Goto),
    ("integer", Tag::Integer),
    ("boolean", Tag::Boolean),
    ("array", Tag::Array),
    ("switch", Tag::Switch),
    ("procedure", Tag::Procedure),
    ("string", Tag::String),
    ("label", Tag::Label),
    ("value", Tag::Value),
    ("own", Tag::Own),
    ("leading_plus", Tag::LeadingPlus),
    ("leading_minus", Tag::LeadingMinus),
    ("label_colon", Tag::LabelColon),
    ("declaring", Tag::Declaring),
    ("formal", Tag::Formal),
    ("value_listed", Tag::ValueListed),
    ("specified", Tag::Specified),
    ("open_mark", Tag::OpenMark),
    ("shut_mark", Tag::ShutMark),
    ("entry", Tag::Entry),
    ("description", Tag::Description),
    ("used", Tag::Used),
    ("place", Tag::Place),
    ("count", Tag::Count),
    ("operation", Tag::Operation),
    ("subscripted", Tag::Subscripted),
    ("called", Tag::Called),
    ("own_number", Tag::OwnNumber),
    ("own_entry", Tag::OwnEntry),
    ("word", Tag::Word),
    ("label_place", Tag::LabelPlace),
    ("label_order", Tag::LabelOrder),
    ("label_word", Tag::LabelWord),
    ("open_room", Tag::OpenRoom),
    ("need", Tag::Need),
    ("object_words", Tag::ObjectWords),
];

// Constructs, which marks tell.
const CONSTRUCTS: [(&str, Construct); 18] = [
    ("program", Construct::Program),
    ("block", Construct::Block),
    ("compound", Construct::Compound),
    ("type_declaration", Construct::TypeDeclaration),
    ("array_segment", Construct::ArraySegment),
    ("switch_declaration", Construct::SwitchDeclaration),
    ("procedure_declaration", Construct::ProcedureDeclaration),
    ("procedure_body", Construct::ProcedureBody),
    ("for_statement", Construct::ForStatement),
    ("controlled_statement", Construct::ControlledStatement),
    ("conditional_statement", Construct::ConditionalStatement),
    ("actual", Construct::Actual),
    ("subscript", Construct::Subscript),
    ("bound", Construct::Bound),
    ("switch_element", Construct::SwitchElement),
    ("for_element", Construct::ForElement),
    ("go_to", Construct::GoTo),
    ("conditional_expression", Construct::ConditionalExpression),
];

// Kinds, which descriptions and uses tell.
const KINDS: [(&str, Kind); 30] = [
    ("undeclared", Kind::Undeclared),
    ("integer_variable", Kind::IntegerVariable),
    ("boolean_variable", Kind::BooleanVariable),
    ("integer_array", Kind::IntegerArray),
    ("boolean_array", Kind::BooleanArray),
    ("label", Kind::Label),
    ("switch", Kind::Switch),
    ("procedure", Kind::Procedure),
    ("integer_procedure", Kind::IntegerProcedure),
    ("boolean_procedure", Kind::BooleanProcedure),
    ("integer_value", Kind::IntegerValue),
    ("boolean_value", Kind::BooleanValue),
    ("integer_formal", Kind::IntegerFormal),
    ("boolean_formal", Kind::BooleanFormal),
    ("integer_array_formal", Kind::IntegerArrayFormal),
    ("boolean_array_formal", Kind::BooleanArrayFormal),
    ("label_formal", Kind::LabelFormal),
    ("switch_formal", Kind::SwitchFormal),
    ("string_formal", Kind::StringFormal),
    ("procedure_formal", Kind::ProcedureFormal),
    ("integer_procedure_formal", Kind::IntegerProcedureFormal),
    ("boolean_procedure_formal", Kind::BooleanProcedureFormal),
    ("out_integer", Kind::OutInteger),
    ("out_text", Kind::OutText),
    ("out_cr", Kind::OutCr),
    ("out_char", Kind::OutChar),
    ("in_integer", Kind::InInteger),
    ("in_char", Kind::InChar),
    ("abs", Kind::Abs),
    ("sign", Kind::Sign),
];

// The greatest number of an order's operation.
const OPERATIONS: u8 = 63;

// The tag of an order is its operation's number and this one.
const FIRST_ORDER: u16 = 128;

/// The symbol with this name.
pub fn tag_named(name: &str) -> Option<Tag> {
    TAGS.iter().find(|row| row.0 == name).map(|row| row.1)
}

/// The construct with this name.
pub fn construct_named(name: &str) -> Option<Construct> {
    CONSTRUCTS.iter().find(|row| row.0 == name).map(|row| row.1)
}

/// The kind with this name.
pub fn kind_named(name: &str) -> Option<Kind> {
    KINDS.iter().find(|row| row.0 == name).map(|row| row.1)
}

/// The number of the operation with this name, as `JUMP`.
pub fn operation_named(name: &str) -> Option<u8> {
    for number in 0..=OPERATIONS {
        if let Some(operation) = Operation::of(number) {
            if operation.name() == name {
                return Some(number);
            }
        }
    }
    None
}

/// The number of the tag of a symbol or an order with this name.
pub fn number_named(name: &str) -> Option<u16> {
    match tag_named(name) {
        Some(tag) => Some(tag.number()),
        None => operation_named(name).map(|number| FIRST_ORDER + u16::from(number)),
    }
}
