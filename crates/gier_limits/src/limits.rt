// The limits of programs, texts, words and the drum, each once. What follows from them for the drum stands in `areas`.
/// The most bytes that a program text may have.
pub const LIMIT: u32 = 524_288;

/// The most bytes that the data behind a program may have.
pub const MOST_DATA: u64 = 16_777_216;

/// Identifiers have numbers below the bytes of the program and so many more, since the standard procedures have numbers too.
pub const STANDARD_NAMES: u32 = 64;

/// The number of the first own quantity as an identifier, from text 4 on.
pub const FIRST_OWN_NAME: u64 = 1 << 32;

/// Addresses, and numbers of labels, switches and procedures, are below this.
pub const ADDRESSES: u64 = 1 << 24;

/// Lines are below this.
pub const LINES: u64 = 1 << 24;

/// What an order has below its number, as level and address, is below this.
pub const ORDER_FIELDS: u64 = 1 << 32;

/// Labels that the program doesn't declare have numbers from here on.
pub const FIRST_NEW_LABEL: u64 = 1 << 23;

/// How many symbols a track holds.
pub const SYMBOLS_ON_TRACK: u32 = 20;

/// How many words a track holds.
pub const WORDS_ON_TRACK: u32 = 40;
