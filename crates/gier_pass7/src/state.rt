// What the pass keeps beside its lists.
use crate::kinds::ValueType;
use crate::names::PendingName;

/// What the pass keeps beside its lists.
#[derive(Debug, Drop)]
pub(crate) struct State {
    // How many bytes the program has.
    pub(crate) bytes: u32,
    // The first free working place of the current activation, and the end of those that were used.
    pub(crate) free: u64,
    pub(crate) high_water: u64,
    // The level of the current activation, and 0 in an evaluation.
    pub(crate) level: u64,
    // The number of the next label that the program doesn't declare.
    pub(crate) label: u64,
    // The number of the next label, switch or procedure that is declared in the innermost scope.
    pub(crate) number: u64,
    // The address of the next variable or array that is declared in the innermost block.
    pub(crate) address: u64,
    // The room of the block whose entries were read last, without what it needs.
    pub(crate) room: u64,
    // How many words of the object there are.
    pub(crate) words: u64,
    // The line of the symbol that was written last.
    pub(crate) line: u32,
    // How many places of the outbox may still change.
    pub(crate) open_patches: u64,
    // Whether an operand of the innermost expression was evaluated, and the type of what was evaluated last.
    pub(crate) full: bool,
    pub(crate) value: ValueType,
    pub(crate) held: PendingName,
    // Whether the next description is that of an entry, and not of a formal.
    pub(crate) entry: bool,
    // Whether symbols are those of a step expression.
    pub(crate) recording: bool,
    // The string that is being read: the place of its length in the outbox, its label behind it, its bytes so far, and those of
    // them that aren't written.
    pub(crate) text_at: u64,
    pub(crate) text_label: u64,
    pub(crate) text_length: u64,
    pub(crate) text_word: u64,
}
