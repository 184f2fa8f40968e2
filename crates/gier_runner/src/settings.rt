// What a run is given beside the program, and what is told of it.

/// How a program is run.
#[derive(Debug, Clone, Copy, PartialEq, Eq)]
pub struct Settings {
    /// How many tracks of the program are held at once, from 1 to 64.
    pub places: u8,
    /// How many steps may be charged.
    pub steps: u64,
    /// How many words the stack has, fewer than 2^24.
    pub stack: u32,
}

/// What a run took.
#[derive(Debug, Clone, Copy, PartialEq, Eq)]
pub struct Report {
    /// The steps that were charged.
    pub steps: u64,
    /// The tracks of the program that were read.
    pub transfers: u128,
    /// The greatest number of words in use.
    pub words: u32,
}
