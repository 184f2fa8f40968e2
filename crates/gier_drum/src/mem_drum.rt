// A drum in memory, which tells its tracks, and its journal where it keeps one.
ghost use Rattle.std.specs.Prelude.{◌≡◌, ◌<◌, ◌≤◌, ◌^◌, [], Some, OnOk, IfOk, All, length};
ghost use Rattle.gier_drum.specs.Log.{journal_entries, refusals, entries_of, new_log, Notes};
ghost use Rattle.gier_drum.specs.Memory.{AreTracks, Reads, Writes, MakesRoom};

use crate::journal::Journal;
use crate::tracks::Tracks;
use crate::{Drum, Entry, RoomFault};
use gier_word::{Failed, NoMemory};
use std::alloc::Global;

/// A drum in memory. A track takes memory once it is written.
#[derive(Drop)]
pub struct MemDrum {
    tracks: Tracks,
    journal: Option<Journal>,
    ghost stored: { AreTracks tracks },
}

impl MemDrum {
    ghost use Rattle.gier_drum.specs.MemDrum.{memory_of};

    /// A drum with no track.
    ///
    /// With `journal` 0 it tells no journal and never fails. With another number it tells its journal, and a read or
    /// a write that finds so many entries there is a counted fault.
    pub fn open(alloc: Global, journal: usize) -> Result<MemDrum, NoMemory>
        ensures tracks { IfOk result (λ drum. (memory_of drum).tracks ≡ []) }
        ensures log { IfOk result (λ drum. (memory_of drum).log ≡ new_log journal) }
    {
        let journal = match journal {
            0 => None,
            limit => Some(Journal::open(alloc, limit)?),
        };
        Ok(MemDrum {
            tracks: Tracks::new(alloc),
            journal,
        })
    }

    /// The entries so far, and none where no journal is told.
    pub fn journal(&self) -> &[Entry]
        ensures { result.now ≡ entries_of (memory_of self.now).log }
    {
        match &self.journal {
            Some(journal) => journal.entries(),
            None => &[],
        }
    }
}

// Notes the entry where a journal is kept.
fn note(journal: &mut Option<Journal>, entry: Entry) -> Result<(), Failed>
    ensures { Notes journal.old entry result journal.new }
{
    match journal {
        Some(journal) => journal.note(entry),
        None => Ok(()),
    }
}

impl Drum for MemDrum {
    ghost use Rattle.gier_drum.specs.MemDrum.{memory_of};
    ghost use Rattle.gier_drum.specs.Laws.{few-bounded, length-told, shape-told};

    ghost room = { λ d. length d.tracks };

    ghost tracks = { λ d. Some d.tracks };

    ghost journal = { λ d. journal_entries d.journal };

    ghost faults = { λ d. refusals d.journal };

    ghost bounded = { λ drum. few-bounded drum.stored };

    ghost sized = { λ drum all journal_entries. length-told drum.tracks all journal_entries };

    ghost shaped = { λ drum all journal_entries. shape-told drum.tracks all journal_entries drum.stored };

    fn make_room(&mut self, wanted: u32) -> Result<(), RoomFault>
        ensures { MakesRoom (memory_of self.old) wanted result (memory_of self.new) }
    {
        match self.tracks.make_room(wanted) {
            Ok(()) => Ok(()),
            Err(_) => Err(RoomFault::Memory),
        }
    }

    fn read(&mut self, track: u32, into: &mut [u64; 40]) -> Result<(), Failed>
        requires { track < length (memory_of self.old).tracks }
        ensures memory { Reads (memory_of self.old) track result into.new (memory_of self.new) }
        ensures words { OnOk result (All (λ word. word < 2 ^ 40) into.new) }
    {
        note(&mut self.journal, Entry::Read(track))?;
        self.tracks.read(track, into);
        Ok(())
    }

    fn write(&mut self, track: u32, from: &[u64; 40]) -> Result<(), Failed>
        requires in_room { track < length (memory_of self.old).tracks }
        requires words { All (λ word. word < 2 ^ 40) from.now }
        ensures { Writes (memory_of self.old) track from.now result (memory_of self.new) }
    {
        note(&mut self.journal, Entry::Write(track))?;
        self.tracks.write(track, from);
        Ok(())
    }
}
