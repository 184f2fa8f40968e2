// Where an identifier stands, and what is held of it until the symbol behind it tells how it is used.
use crate::kind::Kind;
use crate::open::{EntryKind, Location, StackEntry};
use crate::types::ValueType;
use gier_symbol::Tag;

/// What the next symbol begins.
#[derive(Debug, Clone, Copy, PartialEq, Eq)]
pub(crate) enum Context {
    /// A statement may begin.
    Statement,
    /// Another left part or the right side may begin.
    LeftPart,
    /// The controlled variable.
    Variable,
    /// An actual.
    Actual,
    /// Anything else; where an identifier is used here, it is an operand.
    Operand,
}

/// A used identifier.
#[derive(Debug, Clone, Copy, PartialEq, Eq)]
pub(crate) struct Name {
    pub(crate) kind: Kind,
    /// Its number, where it is a procedure.
    pub(crate) number: u64,
    /// How many dimensions or formals it has.
    pub(crate) count: u64,
    pub(crate) spot: Location,
    pub(crate) at: Context,
}

/// What is held until the next symbol.
#[derive(Debug, Clone, Copy, PartialEq, Eq)]
pub(crate) enum PendingName {
    Nothing,
    Name(Name),
    /// An identifier with its subscripts, where a left part may stand: the type and the place of the identifier.
    Element(ValueType, Location),
}

/// The kinds of constructs, by the numbers of their marks.
pub(crate) fn construct(number: u64) -> EntryKind {
    match number {
        2 => EntryKind::Block,
        5 => EntryKind::Segment,
        7 => EntryKind::Procedure,
        11 => EntryKind::IfStatement,
        12 => EntryKind::Actual,
        13 => EntryKind::Subscript,
        14 => EntryKind::Bound,
        15 => EntryKind::SwitchElement,
        16 => EntryKind::ForElement,
        17 => EntryKind::Goto,
        18 => EntryKind::Conditional,
        _ => EntryKind::Plain,
    }
}

/// The number of the mark of a switch declaration.
pub(crate) const SWITCH_MARK: u64 = 6;

/// What begins behind an open mark.
fn behind_mark(number: u64) -> Context {
    match construct(number) {
        EntryKind::Plain | EntryKind::Block | EntryKind::IfStatement => Context::Statement,
        EntryKind::Actual => Context::Actual,
        _ => Context::Operand,
    }
}

fn behind_keyword(tag: Tag, top: StackEntry) -> Context {
    match tag {
        Tag::Begin | Tag::Semicolon | Tag::Do | Tag::LabelColon => Context::Statement,
        Tag::For => Context::Variable,
        Tag::Then | Tag::Else if top.what != EntryKind::Conditional => Context::Statement,
        Tag::Becomes if top.what == EntryKind::LeftPart => Context::LeftPart,
        _ => Context::Operand,
    }
}

/// What begins behind a symbol, upon this entry of the stack. Entries and descriptions change nothing.
pub(crate) fn behind(at: Context, tag: Tag, value: u64, top: StackEntry) -> Context {
    match tag {
        Tag::Entry | Tag::Description | Tag::Count | Tag::Used | Tag::Place => at,
        Tag::OpenMark => behind_mark(value),
        _ => behind_keyword(tag, top),
    }
}
