// A used identifier, and what is held of it until the symbol behind it tells how it is used.
use gier_limits::ADDRESSES;
use gier_symbol::Symbol;
use gier_tree::Kind;

/// A used identifier.
#[derive(Debug, Clone, Copy, PartialEq, Eq)]
pub(crate) struct Name {
    pub(crate) kind: Kind,
    /// Its level times 2^24, plus its address or number.
    pub(crate) place: u64,
    /// How many dimensions or formals it has.
    pub(crate) count: u64,
    pub(crate) line: u32,
}

/// What is held until the next symbol.
#[derive(Debug, Clone, Copy, PartialEq, Eq)]
pub(crate) enum PendingName {
    Nothing,
    Name(Name),
    /// The place of an array element, which is a left part, a variable as an actual, or an operand; its line.
    Element(u32),
}

pub(crate) fn level_in(place: u64) -> u64 {
    place / ADDRESSES
}

pub(crate) fn address_in(place: u64) -> u64 {
    place % ADDRESSES
}

/// What is held when the place of an identifier was read.
pub(crate) fn with_place(held: PendingName, s: Symbol) -> PendingName {
    match held {
        PendingName::Name(name) => PendingName::Name(Name {
            place: s.value,
            ..name
        }),
        other => other,
    }
}

/// What is held when a count was read.
pub(crate) fn with_count(held: PendingName, s: Symbol) -> PendingName {
    match held {
        PendingName::Name(name) => PendingName::Name(Name {
            count: s.value,
            ..name
        }),
        other => other,
    }
}
