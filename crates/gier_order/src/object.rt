// What a compiled program is on the drum.

/// The words of a compiled program. Word `a` stands in track `first_track + a / 40` at place `a % 40`.
#[derive(Debug, Clone, Copy, PartialEq, Eq)]
pub struct Object {
    /// The track of word 0.
    pub first_track: u32,
    /// How many words there are.
    pub words: u32,
    /// The address of the first order.
    pub start: u32,
    /// The numbers of symbols of texts 1 to 8.
    pub lengths: [u32; 8],
}
