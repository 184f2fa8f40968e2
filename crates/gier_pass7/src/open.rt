// What is open while symbols are taken: an entry for each construct that was begun and not ended.
ghost use Rattle.std.specs.Prelude.{◌≡◌};
ghost use Rattle.gier_text.specs.TablesModel.{tables_model};

use crate::kinds::kind_of;
use crate::lists::{STACK, drop_last, push_stack, stack_word};
use crate::state::State;
use gier_text::Tables;
use gier_tree::Kind;
use std::cmp;

/// What an entry stands for. The number of a variant is how it is kept.
#[derive(Debug, Clone, Copy, PartialEq, Eq)]
pub(crate) enum EntryKind {
    Nothing = 0,
    /// The program; its count is that of the labels before its first statement.
    Program = 1,
    /// A block whose `_begin` is still to come.
    BlockHead = 2,
    Block = 3,
    Compound = 4,
    TypeDeclaration = 5,
    /// An array segment; its count is that of its identifiers, its other count that of its bounds.
    Segment = 6,
    /// A switch; its label stands behind it, its count is that of its elements, and they have labels from `other` on.
    Switch = 7,
    /// A procedure; its place is its number, its count that of its formals, and its label stands behind it.
    Procedure = 8,
    Body = 9,
    /// A for statement; kind and place are those of its variable, and its count is the line of that. Its label is that of the
    /// controlled statement, once there is one, and `other` stands behind all.
    For = 10,
    Controlled = 11,
    /// A conditional statement or expression; its label is the one that was last jumped to.
    Conditional = 12,
    /// An assignment; its count is that of its left parts.
    Assignment = 13,
    Goto = 14,
    /// A call; its count is that of its actuals so far. Where a formal procedure is called, `at` is the place of the number of
    /// actuals.
    Call = 15,
    /// An actual; its kind is that of the formal, where it is known.
    Actual = 16,
    /// The actual of a standard procedure.
    Argument = 17,
    /// An evaluation as an actual; `other` is its label, and its label the one behind it. It begins at `at`.
    Evaluation = 18,
    ArrayElement = 19,
    SwitchDesignator = 20,
    /// An evaluation as an element of a switch.
    SwitchElement = 21,
    /// A for element of which one expression was begun; `other` is the next label, the code begins at `at`, behind line `count`.
    Element = 22,
    /// A step element at its second expression; its turns begin at its label, its tests at the other one.
    Step = 23,
    /// The same at its third expression.
    Until = 24,
    /// The same where the second expression is to be coded again.
    Again = 25,
    /// A while element at its second expression; its turns begin at its label.
    While = 26,
}

impl EntryKind {
    fn number(self) -> u64 {
        self as u64
    }

    fn of(number: u64) -> EntryKind {
        match number {
            1 => EntryKind::Program,
            2 => EntryKind::BlockHead,
            3 => EntryKind::Block,
            4 => EntryKind::Compound,
            5 => EntryKind::TypeDeclaration,
            6 => EntryKind::Segment,
            7 => EntryKind::Switch,
            8 => EntryKind::Procedure,
            9 => EntryKind::Body,
            10 => EntryKind::For,
            11 => EntryKind::Controlled,
            12 => EntryKind::Conditional,
            13 => EntryKind::Assignment,
            14 => EntryKind::Goto,
            15 => EntryKind::Call,
            16 => EntryKind::Actual,
            17 => EntryKind::Argument,
            18 => EntryKind::Evaluation,
            19 => EntryKind::ArrayElement,
            20 => EntryKind::SwitchDesignator,
            21 => EntryKind::SwitchElement,
            22 => EntryKind::Element,
            23 => EntryKind::Step,
            24 => EntryKind::Until,
            25 => EntryKind::Again,
            26 => EntryKind::While,
            _ => EntryKind::Nothing,
        }
    }
}

/// An entry. What isn't told for its variant of `EntryKind` is 0.
#[derive(Debug, Clone, Copy, PartialEq, Eq)]
pub(crate) struct StackEntry {
    pub(crate) what: EntryKind,
    /// The line of its orders.
    pub(crate) line: u32,
    /// Kind and place of its identifier.
    pub(crate) kind: Kind,
    pub(crate) place: u64,
    /// What the state had of these where it began.
    pub(crate) free: u64,
    pub(crate) high_water: u64,
    pub(crate) level: u64,
    pub(crate) number: u64,
    /// Its labels.
    pub(crate) label: u64,
    pub(crate) other: u64,
    /// A place in the outbox.
    pub(crate) at: u64,
    pub(crate) count: u64,
}

// The words of an entry, in the order in which they are pushed.
const WHAT: u8 = 0;

const LINE: u8 = 1;

const KIND: u8 = 2;

const PLACE: u8 = 3;

const FREE: u8 = 4;

const HIGH: u8 = 5;

const LEVEL: u8 = 6;

const NUMBER: u8 = 7;

const LABEL: u8 = 8;

const OTHER: u8 = 9;

const AT: u8 = 10;

const COUNT: u8 = 11;

/// What stands below the whole stack.
pub(crate) const NOTHING: StackEntry = StackEntry {
    what: EntryKind::Nothing,
    line: 0,
    kind: Kind::Undeclared,
    place: 0,
    free: 0,
    high_water: 0,
    level: 0,
    number: 0,
    label: 0,
    other: 0,
    at: 0,
    count: 0,
};

const LAST_U32: u64 = (1 << 32) - 1;

/// The number as a line.
pub(crate) fn line_of(word: u64) -> u32 {
    cmp::min(word, LAST_U32) as u32
}

impl State {
    ghost use Rattle.gier_pass7.specs.StateInvariants.{StateInvariant, PreservesState};

    // The entry that so many others stand upon.
    fn open_at(&self, tables: &Tables, depth: u32) -> StackEntry
        requires ready { StateInvariant self.now (tables_model tables.now) }
    {
        StackEntry {
            what: EntryKind::of(stack_word(self.bytes, tables, depth, WHAT)),
            line: line_of(stack_word(self.bytes, tables, depth, LINE)),
            kind: kind_of(stack_word(self.bytes, tables, depth, KIND)),
            place: stack_word(self.bytes, tables, depth, PLACE),
            free: stack_word(self.bytes, tables, depth, FREE),
            high_water: stack_word(self.bytes, tables, depth, HIGH),
            level: stack_word(self.bytes, tables, depth, LEVEL),
            number: stack_word(self.bytes, tables, depth, NUMBER),
            label: stack_word(self.bytes, tables, depth, LABEL),
            other: stack_word(self.bytes, tables, depth, OTHER),
            at: stack_word(self.bytes, tables, depth, AT),
            count: stack_word(self.bytes, tables, depth, COUNT),
        }
    }

    // The innermost entry.
    pub(crate) fn top(&self, tables: &Tables) -> StackEntry
        requires ready { StateInvariant self.now (tables_model tables.now) }
    {
        self.open_at(tables, 0)
    }

    // The entry below the innermost one.
    pub(crate) fn below(&self, tables: &Tables) -> StackEntry
        requires ready { StateInvariant self.now (tables_model tables.now) }
    {
        self.open_at(tables, 1)
    }

    // Puts an entry upon the others.
    pub(crate) fn push(&self, tables: &mut Tables, open: StackEntry)
        requires ready { StateInvariant self.now (tables_model tables.old) }
        ensures { PreservesState self.now (tables_model tables.old) self.now (tables_model tables.new) }
    {
        let words = [
            open.what.number(),
            u64::from(open.line),
            open.kind.number(),
            open.place,
            open.free,
            open.high_water,
            open.level,
            open.number,
            open.label,
            open.other,
            open.at,
            open.count,
        ];
        push_stack(self.bytes, tables, words);
    }

    // Takes the innermost entry away.
    pub(crate) fn pop(&self, tables: &mut Tables)
        requires ready { StateInvariant self.now (tables_model tables.old) }
        ensures { PreservesState self.now (tables_model tables.old) self.now (tables_model tables.new) }
    {
        drop_last(self.bytes, tables, STACK);
    }

    // Changes the innermost entry.
    pub(crate) fn change(&self, tables: &mut Tables, open: StackEntry)
        requires ready { StateInvariant self.now (tables_model tables.old) }
        ensures { PreservesState self.now (tables_model tables.old) self.now (tables_model tables.new) }
    {
        self.pop(tables);
        self.push(tables, open);
    }
}
