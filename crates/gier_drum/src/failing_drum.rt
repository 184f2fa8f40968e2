// A drum in memory that fails at calls that are named beforehand.
ghost use Rattle.std.specs.Prelude.{◌≡◌, ◌<◌, ◌≤◌, ◌^◌, [], Some, OnOk, IfOk, All, MatchBool, length};
ghost use Rattle.gier_drum.specs.Log.{journal_entries, refusals, new_log, saturating_next};
ghost use Rattle.gier_drum.specs.Memory.{Reads, Writes, MakesRoom};
ghost use Rattle.gier_drum.specs.declared.drum.RoomFault.TheVariants.{Failed as DrumFailed};

use crate::{Drum, MemDrum, RoomFault};
use gier_word::{Failed, NoMemory};
use std::alloc::Global;

/// A `MemDrum` that also fails, by a counted fault, at the listed calls of its three methods, numbered together from 0.
#[derive(Drop)]
pub struct FailingDrum {
    inner: MemDrum,
    fails: Vec<u64>,
    calls: u64,
    failed: u64,
}

impl FailingDrum {
    ghost use Rattle.gier_drum.specs.FailingDrum.{Plan, plan_of, is_listed, Counts};
    ghost use Rattle.gier_drum.specs.MemDrum.{memory_of};

    /// A drum with no track; `journal` as for `MemDrum::open`.
    pub fn open(alloc: Global, journal: usize, fails: Vec<u64>) -> Result<FailingDrum, NoMemory>
        ensures tracks { IfOk result (λ drum. (plan_of drum).memory.tracks ≡ []) }
        ensures log { IfOk result (λ drum. (plan_of drum).memory.log ≡ new_log journal) }
        ensures fails { IfOk result (λ drum. (plan_of drum).fails ≡ fails.items) }
        ensures none_made { IfOk result (λ drum. ((plan_of drum).calls ≡ 0) × ((plan_of drum).failed ≡ 0)) }
    {
        Ok(FailingDrum {
            inner: MemDrum::open(alloc, journal)?,
            fails,
            calls: 0,
            failed: 0,
        })
    }

    /// How many calls of its three methods were made; the count stops at its last value.
    pub fn calls(&self) -> u64
        ensures { result ≡ (plan_of self.now).calls }
    {
        self.calls
    }

    // Counts a call, which is refused where its number is listed.
    fn count(&mut self) -> Result<(), Failed>
        ensures count { Counts (plan_of self.old) result (plan_of self.new) }
        ensures inner { self.new.inner ≡ self.old.inner }
    {
        let call = self.calls;
        self.calls = self.calls.saturating_add(1);
        if self.fails.as_slice().contains(&call) {
            self.failed = self.failed.saturating_add(1);
            return Err(Failed);
        }
        Ok(())
    }
}

impl Drum for FailingDrum {
    ghost use Rattle.std.specs.Prelude.{◌+◌};
    ghost use Rattle.gier_drum.specs.FailingDrum.{plan_of, fault_count, FailsOrMakesRoom, FailsOrReads, FailsOrWrites};
    ghost use Rattle.gier_drum.specs.Laws.{few-bounded, length-told, shape-told};

    ghost room = { λ d. length (plan_of d).memory.tracks };

    ghost tracks = { λ d. Some (plan_of d).memory.tracks };

    ghost journal = { λ d. journal_entries (plan_of d).memory.log };

    ghost faults = { λ d. fault_count (plan_of d) };

    ghost bounded = { λ drum. few-bounded drum.inner.stored };

    ghost sized = { λ drum all journal_entries. length-told drum.inner.tracks all journal_entries };

    ghost shaped = { λ drum all journal_entries. shape-told drum.inner.tracks all journal_entries drum.inner.stored };

    fn make_room(&mut self, wanted: u32) -> Result<(), RoomFault>
        ensures { FailsOrMakesRoom (plan_of self.old) wanted result (plan_of self.new) }
    {
        self.count()?;
        self.inner.make_room(wanted)
    }

    fn read(&mut self, track: u32, into: &mut [u64; 40]) -> Result<(), Failed>
        requires { track < length (plan_of self.old).memory.tracks }
        ensures memory { FailsOrReads (plan_of self.old) track result into.new (plan_of self.new) }
        ensures words { OnOk result (All (λ word. word < 2 ^ 40) into.new) }
    {
        self.count()?;
        self.inner.read(track, into)
    }

    fn write(&mut self, track: u32, from: &[u64; 40]) -> Result<(), Failed>
        requires in_room { track < length (plan_of self.old).memory.tracks }
        requires words { All (λ word. word < 2 ^ 40) from.now }
        ensures { FailsOrWrites (plan_of self.old) track from.now result (plan_of self.new) }
    {
        self.count()?;
        self.inner.write(track, from)
    }
}
