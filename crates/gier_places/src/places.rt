// The places, and a reference to a track, which gives its words.
ghost use Rattle.std.specs.Prelude.{◌≡◌, ◌==◌, ◌+◌, ◌<◌, ◌≤◌, ◌^◌, ◌∷◌, ◌++◌, ℕ, List, [], Option, Some, OnOk, OnErr, IfOk};
ghost use Rattle.std.specs.Prelude.{IsOk, IsTrue, All, length, take, remove, position, slice_get, slice_index_or, vec_capacity};
ghost use Rattle.std.specs.Prelude.{false};
ghost use Rattle.gier_word.specs.Cause.{HasCause};
ghost use Rattle.gier_drum.specs.Drum.{GivesTrack, Logs};
ghost use Rattle.gier_drum.specs.declared.drum.Entry.{Entry};
ghost use Rattle.gier_drum.specs.declared.drum.Entry.TheVariants.{Read};
ghost use Rattle.gier_order.specs.Misses.{misses};
ghost use Rattle.gier_places.specs.HeldTracks.{moved_first};

use crate::slots::{Slot, move_first, place_in, put_first, replace_last};
use gier_drum::Drum;
use gier_word::{Failed, NoMemory};
use std::alloc::Global;
use std::marker::Model;

/// From 1 to 64 places, each of which holds a track and its words or is empty.
#[derive(Drop)]
pub struct Places {
    places: usize,
    // The track referred to last first. Words stay where they were read to; slots alone are moved.
    slots: Vec<Slot>,
    words: Vec<[u64; 40]>,
    transfers: u128,
}

impl Model for Places {
    ghost use Rattle.std.specs.Prelude.{vec_capacity};
    ghost use Rattle.gier_places.specs.Contents.{Contents};
    ghost use Rattle.gier_places.specs.HeldTracks.{held_in};
    ghost use Rattle.gier_places.specs.SlotInvariant.{IsKept};

    ghost Value = { Contents };

    ghost view = { λ a. record { places = a.places; held = held_in a.words.items a.slots.items; transfers = a.transfers } };

    ghost invariant = { λ a. IsKept a.places a.slots.items a.words.items (vec_capacity a.slots) (vec_capacity a.words) };
}

impl Places {
    ghost use Rattle.std.specs.Prelude.{⊤};
    ghost use Rattle.std.specs.Borrow.{sem};
    ghost use mathlib.Core.Option.{none};
    ghost use denote.Follow.{follows_so};
    ghost use Rattle.gier_places.specs.contracts.places.Places.{the_row};
    ghost use Rattle.gier_places.specs.Contents.{StandsFor, AfterRefer, Agrees, LogsReads, is_held};
    ghost use Rattle.gier_places.specs.HeldTracks.{latest_words};

    /// So many empty places, from 1 to 64.
    pub fn open(alloc: Global, places: u8) -> Result<Places, NoMemory>
        requires least { 1 ≤ places }
        requires most { places ≤ 64 }
        ensures places { IfOk result (λ opened. opened.places ≡ places) }
        ensures empty { IfOk result (λ opened. opened.held ≡ []) }
        ensures none_made { IfOk result (λ opened. opened.transfers ≡ 0) }
        ensures stands { IfOk result (λ opened. StandsFor opened []) }
    {
        let places = places as usize;
        match (
            Vec::with_capacity(alloc, places),
            Vec::with_capacity(alloc, places),
        ) {
            (Ok(slots), Ok(words)) => Ok(Places {
                places,
                slots,
                words,
                transfers: 0,
            }),
            _ => Err(NoMemory),
        }
    }

    /// The words of a track, which is read where no place holds it.
    ///
    /// It is read into an empty place, or else in place of the track that was referred to least recently. After a
    /// failure the places are as before. Fewer than 2^120 transfers were made.
    #[inline(always)]
    pub fn refer<D: Drum>(&mut self, track: u32, drum: &mut D) -> Result<&[u64; 40], Failed>
        requires in_room { track < D.room drum.old }
        requires few { self.old.transfers < 2 ^ 120 }
        ensures* after { sem 𝓛 (follows_so the_row the_row self.entry.ghost_name none (λ _ _. ⊤)
            (λ new. AfterRefer (D.tracks drum.old) self.old track result new)) }
        ensures words { IfOk result (λ words. All (λ word. word < 2 ^ 40) words.now) }
        ensures given { Agrees (D.tracks drum.old) self.old.held
            → IfOk result (λ words. GivesTrack (D.tracks drum.old) track words.now) }
        ensures hit { IsTrue (is_held self.old track) → IsOk result × (drum.new ≡ drum.old) }
        ensures room { D.room drum.new ≡ D.room drum.old }
        ensures tracks { D.tracks drum.new ≡ D.tracks drum.old }
        ensures read { is_held self.old track ≡ false → OnOk result (Logs (D.journal drum.old) (Read track) (D.journal drum.new)) }
        ensures unlogged { OnErr result (D.journal drum.new ≡ D.journal drum.old) }
        ensures reads { OnOk result ((refs : List ℕ) (before : Option (List Entry)) → StandsFor self.old refs
            → LogsReads before (misses refs self.old.places) (D.journal drum.old)
            → LogsReads before (misses (refs ++ track ∷ []) self.old.places) (D.journal drum.new)) }
        ensures cause { HasCause (D.faults drum.old) (D.faults drum.new) result }
    {
        self.fetch(track, drum)?;
        Ok(self.latest())
    }

    /// How many tracks were read since `open` or the last `clear`.
    pub fn transfers(&self) -> u128
        ensures { result ≡ self.now.transfers }
    {
        self.transfers
    }

    /// Makes all places empty, and the number of transfers 0.
    pub fn clear(&mut self)
        ensures places { self.new.places ≡ self.old.places }
        ensures empty { self.new.held ≡ [] }
        ensures none_made { self.new.transfers ≡ 0 }
        ensures stands { StandsFor self.new [] }
    {
        self.slots.clear();
        self.words.clear();
        self.transfers = 0;
    }

    // Makes the track the one referred to last.
    #[inline(always)]
    fn fetch<D: Drum>(&mut self, track: u32, drum: &mut D) -> Result<(), Failed>
        requires in_room { track < D.room drum.old }
        requires few { self.old.transfers < 2 ^ 120 }
        ensures after { AfterRefer (D.tracks drum.old) self.old track result self.new }
        ensures some { OnOk result (0 < length self.new.held) }
        ensures given { OnOk result (Agrees (D.tracks drum.old) self.old.held
            → GivesTrack (D.tracks drum.old) track (latest_words self.new.held)) }
        ensures hit { IsTrue (is_held self.old track) → IsOk result × (drum.new ≡ drum.old) }
        ensures room { D.room drum.new ≡ D.room drum.old }
        ensures tracks { D.tracks drum.new ≡ D.tracks drum.old }
        ensures read { is_held self.old track ≡ false → OnOk result (Logs (D.journal drum.old) (Read track) (D.journal drum.new)) }
        ensures unlogged { OnErr result (D.journal drum.new ≡ D.journal drum.old) }
        ensures reads { OnOk result ((refs : List ℕ) (before : Option (List Entry)) → StandsFor self.old refs
            → LogsReads before (misses refs self.old.places) (D.journal drum.old)
            → LogsReads before (misses (refs ++ track ∷ []) self.old.places) (D.journal drum.new)) }
        ensures cause { HasCause (D.faults drum.old) (D.faults drum.new) result }
    {
        if let Some(place) = self.place_of(track) {
            self.bring_forward(place);
            return Ok(());
        }
        let mut words = [0; 40];
        drum.read(track, &mut words)?;
        self.take_in(track, &words);
        Ok(())
    }

    #[inline(always)]
    fn place_of(&self, track: u32) -> Option<usize>
        ensures found { result ≡ position (λ h. h.track == track) self.now.held }
        ensures fits { length self.now.held ≤ self.now.places }
        ensures least { 1 ≤ self.now.places }
    {
        place_in(self.slots.as_slice(), track)
    }

    // Most references are to the track in front, and leave the list as it is.
    fn bring_forward(&mut self, place: usize)
        requires { place < length self.old.held }
        ensures places { self.new.places ≡ self.old.places }
        ensures transfers { self.new.transfers ≡ self.old.transfers }
        ensures held { self.new.held ≡ moved_first self.old.held place }
    {
        move_first(self.slots.as_mut_slice(), place);
    }

    // Takes in a track that was read, and gives up the last one where all places are taken.
    #[inline(never)]
    fn take_in(&mut self, track: u32, words: &[u64; 40])
        requires words { All (λ word. word < 2 ^ 40) words.now }
        requires few { self.old.transfers < 2 ^ 120 }
        ensures places { self.new.places ≡ self.old.places }
        ensures transfers { self.new.transfers ≡ self.old.transfers + 1 }
        ensures held { self.new.held ≡ take self.old.places (record { track = track; words = words.now } ∷ self.old.held) }
    {
        if self.slots.len() == self.places {
            replace_last(
                self.slots.as_mut_slice(),
                self.words.as_mut_slice(),
                track,
                words,
            );
        } else {
            put_first(&mut self.slots, &mut self.words, track, words);
        }
        self.transfers += 1;
    }

    #[inline(always)]
    fn latest(&self) -> &[u64; 40]
        requires { 0 < length self.now.held }
        ensures value { result.now ≡ latest_words self.now.held }
        ensures words { All (λ word. word < 2 ^ 40) result.now }
    {
        &self.words[self.slots[0].at as usize]
    }
}
