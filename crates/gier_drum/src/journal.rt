// The reads and writes of a drum in memory, up to a limit.
ghost use Rattle.std.specs.Prelude.{◌≡◌, [], Some, IfOk};
ghost use Rattle.gier_drum.specs.Log.{Notes};

use crate::Entry;
use gier_word::{Failed, NoMemory};
use std::alloc::Global;
use std::marker::Model;

/// A list of entries, and a count of those that it had no place for, which stops at its last value.
#[derive(Drop)]
pub(crate) struct Journal {
    entries: Vec<Entry>,
    limit: usize,
    refused: u64,
}

impl Model for Journal {
    ghost use Rattle.std.specs.Prelude.{◌≤◌, length, vec_capacity};
    ghost use Rattle.gier_drum.specs.Log.{Log};

    ghost Value = { Log };

    ghost view = { λ a. record { limit = a.limit; entries = a.entries.items; refused = a.refused } };

    ghost invariant = { λ a. (length a.entries.items ≤ a.limit) × (a.limit ≤ vec_capacity a.entries) };
}

impl Journal {
    pub(crate) fn open(alloc: Global, limit: usize) -> Result<Journal, NoMemory>
        ensures { IfOk result (λ log. log ≡ record { limit = limit; entries = []; refused = 0 }) }
    {
        match Vec::with_capacity(alloc, limit) {
            Ok(entries) => Ok(Journal {
                entries,
                limit,
                refused: 0,
            }),
            Err(_) => Err(NoMemory),
        }
    }

    pub(crate) fn entries(&self) -> &[Entry]
        ensures { result.now ≡ self.now.entries }
    {
        self.entries.as_slice()
    }

    /// Appends the entry, or counts that there is no place for it.
    pub(crate) fn note(&mut self, entry: Entry) -> Result<(), Failed>
        ensures { Notes (Some self.old) entry result (Some self.new) }
    {
        if self.entries.len() == self.limit {
            self.refused = self.refused.saturating_add(1);
            return Err(Failed);
        }
        self.entries.push_reserved(entry);
        Ok(())
    }
}
