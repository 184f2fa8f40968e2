// What the front of the compiler hands on to its back. Neither of them stands here.

/// Where text 6 lies, and how long the texts are.
#[derive(Debug, Clone, Copy, PartialEq, Eq)]
pub struct Fronted {
    /// The area of the drum in which text 6 lies.
    pub area: u8,
    /// How many symbols text 6 has.
    pub symbols: u32,
    /// How many bytes the program has.
    pub bytes: u32,
    /// How many symbols texts 1 to 5 have.
    pub lengths: [u32; 5],
}
