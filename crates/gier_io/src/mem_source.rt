// A source in memory, which never fails.
ghost use Rattle.std.specs.Prelude.{◌≡◌, Ok, Some, drop, slice_get, OnErr, IfOk};
ghost use Rattle.gier_word.specs.Cause.{HasCause};
ghost use Rattle.gier_io.specs.Device.{Gives};

use crate::Source;
use gier_word::Failed;
use std::marker::Model;

/// Bytes in memory; clauses see those that are left.
#[derive(Drop)]
pub struct MemSource {
    bytes: Vec<u8>,
    at: usize,
}

impl Model for MemSource {
    ghost use Rattle.std.specs.Prelude.{◌≤◌, ℕ, List, length, drop};

    ghost Value = { List ℕ };

    ghost view = { λ s. drop s.at s.bytes.items };

    ghost invariant = { λ s. s.at ≤ length s.bytes.items };
}

impl MemSource {
    /// A source of these bytes.
    pub fn of(bytes: Vec<u8>) -> MemSource
        ensures { result ≡ bytes.items }
    {
        MemSource { bytes, at: 0 }
    }
}

impl Source for MemSource {
    ghost left = { λ s. Some s };

    ghost faults = { λ s. 0 };

    fn next(&mut self) -> Result<Option<u8>, Failed>
        ensures byte { result ≡ Ok (slice_get self.old 0) }
        ensures rest { self.new ≡ drop 1 self.old }
        ensures given { IfOk result (λ byte. Gives (Some self.old) byte (Some self.new)) }
        ensures kept { OnErr result (Some self.new ≡ Some self.old) }
        ensures cause { HasCause 0 0 result }
    {
        match self.bytes.get(self.at) {
            Some(&byte) => {
                self.at += 1;
                Ok(Some(byte))
            }
            None => Ok(None),
        }
    }
}
