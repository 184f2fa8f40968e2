// The three programs that are timed, as the words of an object. Each goes on until its steps are used up.

use gier_order::Operation;
use std::alloc::{AllocError, Global};

/// Which of the programs.
#[derive(Debug, Clone, Copy, PartialEq, Eq)]
pub enum Program {
    Counting,
    Straight,
    Deep,
}

/// All of them.
pub const ALL: [Program; 3] = [Program::Counting, Program::Straight, Program::Deep];

impl Program {
    /// What it does.
    pub fn title(self) -> &'static str {
        match self {
            Program::Counting => "a counting loop",
            Program::Straight => "straight code over three tracks",
            Program::Deep => "a recursion 100000 deep",
        }
    }

    /// Its words, the first of which is its first order.
    pub fn words(self, alloc: Global) -> Result<Vec<u64>, AllocError> {
        match self {
            Program::Counting => counting(alloc),
            Program::Straight => straight(alloc),
            Program::Deep => deep(alloc),
        }
    }
}

// How many times the straight code adds before it turns back, so that it fills three tracks.
const ADDITIONS: u32 = 38;

// How far the number and the level of an order stand above its address.
const NUMBER: u64 = 1 << 32;

const LEVEL: u64 = 1 << 24;

fn push(
    words: &mut Vec<u64>,
    operation: Operation,
    level: u8,
    address: u32,
) -> Result<(), AllocError> {
    let number = u64::from(operation.number());
    words.push(number * NUMBER + u64::from(level) * LEVEL + u64::from(address))?;
    Ok(())
}

// Keeps the address of order 3, to which the program turns back by word 3 of its activation.
fn begin(words: &mut Vec<u64>) -> Result<(), AllocError> {
    push(words, Operation::Start, 1, 10)?;
    push(words, Operation::Short, 0, 3)?;
    push(words, Operation::Keep, 0, 3)
}

// Word 4 counts, with word 5 taken by its level and kept as a loop takes its limit.
fn counting(alloc: Global) -> Result<Vec<u64>, AllocError> {
    let mut words = Vec::new(alloc);
    begin(&mut words)?;
    push(&mut words, Operation::Take, 1, 5)?;
    push(&mut words, Operation::Keep, 0, 6)?;
    push(&mut words, Operation::Short, 0, 1)?;
    push(&mut words, Operation::Add, 0, 4)?;
    push(&mut words, Operation::Keep, 0, 4)?;
    push(&mut words, Operation::Turn, 0, 3)?;
    push(&mut words, Operation::Stop, 0, 0)?;
    Ok(words)
}

fn straight(alloc: Global) -> Result<Vec<u64>, AllocError> {
    let mut words = Vec::new(alloc);
    begin(&mut words)?;
    for _ in 0..ADDITIONS {
        push(&mut words, Operation::Short, 0, 1)?;
        push(&mut words, Operation::Add, 0, 4)?;
        push(&mut words, Operation::Keep, 0, 4)?;
    }
    push(&mut words, Operation::Turn, 0, 3)?;
    push(&mut words, Operation::Stop, 0, 0)?;
    Ok(words)
}

// The procedure at order 9 lowers word 4 of the program's activation and calls itself until that is 0.
fn deep(alloc: Global) -> Result<Vec<u64>, AllocError> {
    let mut words = Vec::new(alloc);
    begin(&mut words)?;
    push(&mut words, Operation::Long, 0, 0)?;
    words.push(100_000)?;
    push(&mut words, Operation::Keep, 0, 4)?;
    push(&mut words, Operation::Short, 0, 0)?;
    push(&mut words, Operation::Call, 1, 9)?;
    push(&mut words, Operation::Turn, 0, 3)?;
    push(&mut words, Operation::Proc, 2, 7)?;
    words.push(0)?;
    lower(&mut words)?;
    push(&mut words, Operation::Short, 0, 0)?;
    push(&mut words, Operation::Call, 1, 9)?;
    push(&mut words, Operation::Return, 0, 0)?;
    push(&mut words, Operation::Stop, 0, 0)?;
    Ok(words)
}

// Returns where the word is 0, and else makes it 1 less.
fn lower(words: &mut Vec<u64>) -> Result<(), AllocError> {
    push(words, Operation::Take, 1, 4)?;
    push(words, Operation::False, 0, 21)?;
    push(words, Operation::Keep, 0, 6)?;
    push(words, Operation::Addr, 1, 4)?;
    push(words, Operation::Keep, 0, 5)?;
    push(words, Operation::Short, 0, 1)?;
    push(words, Operation::Sub, 0, 6)?;
    push(words, Operation::Put, 0, 5)
}
