// In which part of a declaration a symbol stands, and what is known there. What the pass does there isn't told here.
ghost use Rattle.std.specs.Prelude.{◌≡◌};
ghost use Rattle.gier_pass4.specs.Kinds.{procedure_of};

use gier_tree::Kind;

/// How many entries and entries of own quantities there were before those of a declaration whose type wasn't read: those have no
/// kind yet.
#[derive(Debug, Clone, Copy, PartialEq, Eq)]
pub(crate) struct Untyped {
    pub(crate) entries: u32,
    pub(crate) own_entries: u32,
}

/// Where the next symbol stands, as far as it tells what an identifier in a declaring place is.
#[derive(Debug, Clone, Copy, PartialEq, Eq)]
pub(crate) enum ParseState {
    /// Among statements, or between declarations: such an identifier is a label.
    Statements,
    TypeDeclaration(Untyped),
    /// In a segment of which so many bounds were read.
    Segment(Untyped, u32),
    /// Before a segment: the type is still to be read.
    Segments(Untyped),
    SwitchDeclaration,
    /// Before the body of a procedure: such an identifier is the procedure's. The kind is that of the specification that is being
    /// read, as far as its words were read.
    Heading(Kind, Option<u64>),
}

impl ParseState {
    /// The procedure whose heading is being read, where its identifier was read.
    pub(crate) fn procedure(self) -> Option<u64>
        ensures { result ≡ procedure_of self }
    {
        match self {
            ParseState::Heading(_, procedure) => procedure,
            _ => None,
        }
    }
}
