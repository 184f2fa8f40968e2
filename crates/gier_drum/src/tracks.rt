// Tracks in memory. A track takes memory once it is written, all of it within what `make_room` reserved.
ghost use Rattle.std.specs.Prelude.{◌≡◌, ◌<◌, ◌^◌, [], Some, OnOk, OnErr, All, length, slice_get, slice_set};
ghost use Rattle.gier_drum.specs.Memory.{AreTracks, grown_to};

use crate::reserve::reserve;
use crate::sparse_index::SparseIndex;
use gier_word::NoMemory;
use std::alloc::Global;
use std::marker::Model;

/// A list of fewer than 2^32 tracks.
#[derive(Drop)]
pub(crate) struct Tracks {
    // For each track 0, or one more than the number of its slot.
    index: SparseIndex,
    slots: Vec<[u64; 40]>,
}

impl Model for Tracks {
    ghost use Rattle.std.specs.Prelude.{List, ℕ, vec_capacity};
    ghost use Rattle.gier_drum.specs.Drum.{zero_track};
    ghost use Rattle.gier_drum.specs.Pages.{pages, IsStored};

    ghost Value = { List (List ℕ) };

    ghost view = { λ a. pages zero_track a.index a.slots.items };

    ghost invariant = { λ a. IsStored a.index a.slots.items (vec_capacity a.slots) };
}

impl Tracks {
    pub(crate) fn new(alloc: Global) -> Tracks
        ensures { result ≡ [] }
    {
        Tracks {
            index: SparseIndex::new(alloc),
            slots: Vec::new(alloc),
        }
    }

    pub(crate) fn make_room(&mut self, wanted: u32) -> Result<(), NoMemory>
        ensures grown { OnOk result (self.new ≡ grown_to wanted self.old) }
        ensures kept { OnErr result (self.new ≡ self.old) }
        ensures tracks { AreTracks self.new }
    {
        let wanted = wanted as usize;
        if wanted <= self.index.len() {
            return Ok(());
        }
        reserve(&mut self.slots, wanted)?;
        self.index.grow(wanted)?;
        Ok(())
    }

    pub(crate) fn read(&self, track: u32, into: &mut [u64; 40])
        requires { track < length self.now }
        ensures given { slice_get self.now track ≡ Some into.new }
        ensures words { All (λ word. word < 2 ^ 40) into.new }
    {
        let slot = self.index.get(track as usize);
        if slot == 0 {
            *into = [0; 40];
        } else {
            *into = self.slots[slot as usize - 1];
        }
    }

    pub(crate) fn write(&mut self, track: u32, from: &[u64; 40])
        requires in_room { track < length self.old }
        requires words { All (λ word. word < 2 ^ 40) from.now }
        ensures set { self.new ≡ slice_set self.old track from.now }
        ensures tracks { AreTracks self.new }
    {
        let track = track as usize;
        let slot = self.index.get(track);
        if slot == 0 {
            self.slots.push_reserved(*from);
            self.index.set(track, self.slots.len() as u32);
        } else {
            self.slots[slot as usize - 1] = *from;
        }
    }
}
