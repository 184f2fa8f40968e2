// What is open while symbols are taken: a stack of operators, brackets and constructs, each with the symbol at which a fault would
// stand.
ghost use Rattle.std.specs.Prelude.{◌≡◌, ◌<◌, ◌≤◌, ◌*◌, ◌+◌, ◌^◌};
ghost use Rattle.gier_text.specs.TablesModel.{tables_model};
ghost use Rattle.gier_pass6.specs.EntryKinds.{number_of};

use crate::state::{State, room};
use gier_text::Tables;
use std::cmp;

/// The list of what is open, the innermost last.
pub(crate) const STACK: u8 = 1;

/// The words of an entry.
pub(crate) const STACK_WIDTH: u8 = 4;

const WHAT: u8 = 0;

const DATA: u8 = 1;

const PLACE: u8 = 2;

const LINE: u8 = 3;

/// The greatest word of a list.
pub(crate) const LAST_WORD: u64 = (1 << 40) - 1;

const LAST_U32: u64 = (1 << 32) - 1;

/// What an entry stands for. The number of a variant is how it is kept.
#[derive(Debug, Clone, Copy, PartialEq, Eq)]
pub(crate) enum EntryKind {
    Nothing = 0,
    /// An operator whose right operand is still to come; its data is its tag.
    Operator = 1,
    /// One whose left operand was a fault.
    FaultyOperator = 2,
    Parenthesis = 3,
    /// A left part and its `:=`; its data is the type.
    LeftPart = 4,
    /// The identifier of an array or switch, below its `Wanted` and `Bracket`; its data is the element's type.
    Element = 5,
    /// The same where a left part may stand.
    LeftElement = 6,
    /// The identifier of a procedure, below its `Wanted` and `Call`; its data is its kind, its place its number.
    Callee = 7,
    /// How many subscripts or actuals there must be.
    Wanted = 8,
    /// The same where the first of them doesn't fit.
    FaultyWanted = 9,
    /// A `[`; its data is the number of subscripts so far.
    Bracket = 10,
    /// The `(` of a call; its data is the number of actuals so far.
    Call = 11,
    /// A construct of which only the marks matter.
    Plain = 12,
    /// A block; its data is the number of its next switch or procedure.
    Block = 13,
    /// An array segment; its data is the number of bounds so far.
    Segment = 14,
    /// A procedure; its data is its number.
    Procedure = 15,
    IfStatement = 16,
    /// An actual; its data is what it is compared with.
    Actual = 17,
    Subscript = 18,
    Bound = 19,
    SwitchElement = 20,
    ForElement = 21,
    /// A for element behind its `_while`.
    WhileElement = 22,
    Goto = 23,
    /// A conditional expression; its data is the type of its first branch.
    Conditional = 24,
}

impl EntryKind {
    ghost use Rattle.gier_pass6.specs.declared.open.EntryKind.{EntryKind};

    fn number(self) -> u64
        ensures number { result ≡ number_of self }
        ensures small { result < 2 ^ 40 }
    {
        self as u64
    }

    fn of(number: u64) -> EntryKind
        ensures { (what : EntryKind) → number_of what ≡ number → result ≡ what }
    {
        match number {
            1 => EntryKind::Operator,
            2 => EntryKind::FaultyOperator,
            3 => EntryKind::Parenthesis,
            4 => EntryKind::LeftPart,
            5 => EntryKind::Element,
            6 => EntryKind::LeftElement,
            7 => EntryKind::Callee,
            8 => EntryKind::Wanted,
            9 => EntryKind::FaultyWanted,
            10 => EntryKind::Bracket,
            11 => EntryKind::Call,
            12 => EntryKind::Plain,
            13 => EntryKind::Block,
            14 => EntryKind::Segment,
            15 => EntryKind::Procedure,
            16 => EntryKind::IfStatement,
            17 => EntryKind::Actual,
            18 => EntryKind::Subscript,
            19 => EntryKind::Bound,
            20 => EntryKind::SwitchElement,
            21 => EntryKind::ForElement,
            22 => EntryKind::WhileElement,
            23 => EntryKind::Goto,
            24 => EntryKind::Conditional,
            _ => EntryKind::Nothing,
        }
    }
}

/// A place of the text: how many symbols come before it, and its line.
#[derive(Debug, Clone, Copy, PartialEq, Eq)]
pub(crate) struct Location {
    pub(crate) position: u32,
    pub(crate) line: u32,
}

/// An entry of the stack.
#[derive(Debug, Clone, Copy, PartialEq, Eq)]
pub(crate) struct StackEntry {
    pub(crate) what: EntryKind,
    pub(crate) data: u64,
    /// The symbol at which a fault would stand.
    pub(crate) spot: Location,
}

// What stands below the whole stack.
const NOTHING: StackEntry = StackEntry {
    what: EntryKind::Nothing,
    data: 0,
    spot: Location {
        position: 0,
        line: 0,
    },
};

/// The number, or the greatest one where it is greater.
pub(crate) fn short(word: u64) -> u32 {
    cmp::min(word, LAST_U32) as u32
}

impl State {
    ghost use Rattle.gier_pass6.specs.StateInvariants.{StateInvariant, PreservesState};

    // The entry that so many others stand upon.
    pub(crate) fn open_at(&self, tables: &Tables, depth: u32) -> StackEntry
        requires ready { StateInvariant self.now (tables_model tables.now) }
    {
        let count = tables.len(STACK);
        if count <= depth {
            return NOTHING;
        }
        let at = count - depth - 1;
        StackEntry {
            what: EntryKind::of(tables.word(STACK, at, WHAT)),
            data: tables.word(STACK, at, DATA),
            spot: Location {
                position: short(tables.word(STACK, at, PLACE)),
                line: short(tables.word(STACK, at, LINE)),
            },
        }
    }

    // Puts an entry upon the others.
    pub(crate) fn open_one(&self, tables: &mut Tables, what: EntryKind, data: u64, spot: Location)
        requires ready { StateInvariant self.now (tables_model tables.old) }
        ensures { PreservesState self.now (tables_model tables.old) self.now (tables_model tables.new) }
    {
        if tables.len(STACK) < room(self.bytes) {
            tables.push(
                STACK,
                &[
                    what.number(),
                    cmp::min(data, LAST_WORD),
                    u64::from(spot.position),
                    u64::from(spot.line),
                ],
            );
        }
    }

    // Takes so many entries away.
    pub(crate) fn pop(&self, tables: &mut Tables, count: u32)
        requires ready { StateInvariant self.now (tables_model tables.old) }
        ensures { PreservesState self.now (tables_model tables.old) self.now (tables_model tables.new) }
    {
        let len = tables.len(STACK);
        if count <= len {
            tables.cut(STACK, len - count);
        }
    }

    // Changes the entry that so many others stand upon.
    pub(crate) fn change(&self, tables: &mut Tables, depth: u32, open: StackEntry)
        requires ready { StateInvariant self.now (tables_model tables.old) }
        ensures { PreservesState self.now (tables_model tables.old) self.now (tables_model tables.new) }
    {
        let count = tables.len(STACK);
        if count <= depth {
            return;
        }
        let at = count - depth - 1;
        tables.set_word(STACK, at, WHAT, open.what.number());
        tables.set_word(STACK, at, DATA, cmp::min(open.data, LAST_WORD));
        tables.set_word(STACK, at, PLACE, u64::from(open.spot.position));
        tables.set_word(STACK, at, LINE, u64::from(open.spot.line));
    }
}
