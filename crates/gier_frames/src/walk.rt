// How a word of a header is divided.

// How many bases there are in one word, above which the level stands.
pub(crate) const BASES: u64 = 1 << 24;
