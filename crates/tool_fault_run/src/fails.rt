// Which call of which device fails.

use std::alloc::{AllocError, Global};
use std::{env, io};

/// A device of which one call, counted from 0, fails.
#[derive(Debug, Clone, Copy, PartialEq, Eq)]
pub enum Fails {
    Drum(u64),
    Read(u64),
    Put(u64),
    Nothing,
}

impl Fails {
    /// The calls of the drum that fail.
    pub fn drum(self, alloc: Global) -> Result<Vec<u64>, AllocError> {
        match self {
            Fails::Drum(call) => Vec::from_slice(alloc, &[call]),
            _ => Ok(Vec::new(alloc)),
        }
    }

    /// The reads of the tape that fail.
    pub fn reads(self, alloc: Global) -> Result<Vec<u64>, AllocError> {
        match self {
            Fails::Read(call) => Vec::from_slice(alloc, &[call]),
            _ => Ok(Vec::new(alloc)),
        }
    }

    /// The puts of the printer that fail.
    pub fn puts(self, alloc: Global) -> Result<Vec<u64>, AllocError> {
        match self {
            Fails::Put(call) => Vec::from_slice(alloc, &[call]),
            _ => Ok(Vec::new(alloc)),
        }
    }
}

/// The call that the first word behind the program's name tells; None where it tells none.
pub fn failing_call(rt: &HostRuntime) -> io::Result<Option<Fails>> {
    for (at, word) in env::args(rt)?.enumerate() {
        if at == 1 {
            return Ok(call_of(word.as_str()));
        }
    }
    Ok(None)
}

fn call_of(word: &str) -> Option<Fails> {
    if let Some(call) = word.strip_prefix("drum=") {
        return Some(Fails::Drum(call.parse::<u64>().ok()?));
    }
    if let Some(call) = word.strip_prefix("read=") {
        return Some(Fails::Read(call.parse::<u64>().ok()?));
    }
    let call = word.strip_prefix("put=")?;
    Some(Fails::Put(call.parse::<u64>().ok()?))
}
