// What the places hold while a plan is made, and which place a track is read into. The plan itself is made elsewhere.
ghost use Rattle.std.specs.Prelude.{◌≡◌, ◌≢◌, ℕ, suc, ◌+◌, ◌<◌, ◌≤◌, ◌^◌, [], ◌∷◌, ◌++◌, length, slice_index, slice_set};
ghost use Rattle.std.specs.Prelude.{if◌then◌else◌, nat_lt, IfOk, IfSome, IsNone, vec_capacity};
ghost use Rattle.gier_best.specs.PlannerState.{IsIndex, put};
ghost use Rattle.gier_best.specs.Plan.{lowest_greatest};

use crate::uses::refill;
use gier_word::NoMemory;
use std::alloc::Global;

/// The places that hold a track, from the first; all others are empty. There are at most 64.
#[derive(Drop)]
pub(crate) struct Places {
    tracks: Vec<u32>,
    // For each of them, when it is wanted.
    due: Vec<u32>,
    // For each track 1 + its place, or 0.
    index: Vec<u32>,
    ghost even: { length due.items ≡ length tracks.items },
    ghost few: { length tracks.items ≤ 64 },
    ghost tracks_room: { 64 ≤ vec_capacity tracks },
    ghost due_room: { 64 ≤ vec_capacity due },
    ghost found: { IsIndex index.items tracks.items },
}

// The greatest number of places.
const MOST_PLACES: usize = 64;

impl Places {
    /// Takes room for the places and for the index of so many tracks.
    pub(crate) fn open(alloc: Global, tracks: u32) -> Result<Places, NoMemory>
        ensures { IfOk result (λ places. tracks ≤ vec_capacity places.index) }
    {
        Ok(Places {
            tracks: reserved(alloc, MOST_PLACES)?,
            due: reserved(alloc, MOST_PLACES)?,
            index: reserved(alloc, tracks as usize)?,
        })
    }

    /// Makes all places empty.
    pub(crate) fn empty(&mut self, tracks: u32)
        requires { tracks ≤ vec_capacity self.old.index }
        ensures empty { self.new.tracks.items ≡ [] }
        ensures index { length self.new.index.items ≡ tracks }
        ensures room { tracks ≤ vec_capacity self.new.index }
    {
        self.tracks.clear();
        self.due.clear();
        refill(&mut self.index, tracks as usize, 0);
    }

    /// The place that holds the track.
    pub(crate) fn find(&self, track: u32) -> Option<usize>
        requires { track < length self.now.index.items }
        ensures some { IfSome result (λ place. slice_index self.now.index.items track ≡ suc place) }
        ensures none { IsNone result → slice_index self.now.index.items track ≡ 0 }
        ensures index { IsIndex self.now.index.items self.now.tracks.items }
    {
        match self.index[track as usize] {
            0 => None,
            place => Some(place as usize - 1),
        }
    }

    /// The lowest empty one of `count` places, or else the lowest of those whose track is wanted latest.
    pub(crate) fn choose(&self, count: u8) -> usize
        requires { 1 ≤ count }
        ensures even { length self.now.due.items ≡ length self.now.tracks.items }
        ensures place { result ≡ (if nat_lt (length self.now.tracks.items) count then length self.now.tracks.items
            else lowest_greatest self.now.due.items) }
    {
        if self.tracks.len() < count as usize {
            return self.tracks.len();
        }
        latest(&self.due)
    }

    /// Notes when the track of a place is wanted from now on.
    pub(crate) fn set_due(&mut self, place: usize, due: u32)
        requires { place < length self.old.tracks.items }
        ensures due { self.new.due.items ≡ slice_set self.old.due.items place due }
        ensures tracks { self.new.tracks.items ≡ self.old.tracks.items }
        ensures index { self.new.index.items ≡ self.old.index.items }
        ensures room { vec_capacity self.old.index ≤ vec_capacity self.new.index }
    {
        self.due[place] = due;
    }

    /// Reads a track that no place holds into a place in use or into the lowest empty one.
    pub(crate) fn read(&mut self, place: usize, track: u32, due: u32)
        requires place { place ≤ length self.old.tracks.items }
        requires few { place < 64 }
        requires track { track < length self.old.index.items }
        requires absent { slice_index self.old.index.items track ≡ 0 }
        ensures tracks { self.new.tracks.items ≡ put self.old.tracks.items place track }
        ensures due { self.new.due.items ≡ put self.old.due.items place due }
        ensures index { length self.new.index.items ≡ length self.old.index.items }
        ensures room { vec_capacity self.old.index ≤ vec_capacity self.new.index }
    {
        if place < self.tracks.len() {
            self.replace(place, track, due);
        } else {
            self.fill(track, due);
        }
    }

    // Reads a track into the lowest empty place.
    fn fill(&mut self, track: u32, due: u32)
        requires few { length self.old.tracks.items < 64 }
        requires track { track < length self.old.index.items }
        requires absent { slice_index self.old.index.items track ≡ 0 }
        ensures tracks { self.new.tracks.items ≡ self.old.tracks.items ++ track ∷ [] }
        ensures due { self.new.due.items ≡ self.old.due.items ++ due ∷ [] }
        ensures index { length self.new.index.items ≡ length self.old.index.items }
        ensures room { vec_capacity self.old.index ≤ vec_capacity self.new.index }
    {
        self.index[track as usize] = self.tracks.len() as u32 + 1;
        self.tracks.push_reserved(track);
        self.due.push_reserved(due);
    }

    // Reads a track into a place in use, whose track is given up.
    fn replace(&mut self, place: usize, track: u32, due: u32)
        requires place { place < length self.old.tracks.items }
        requires track { track < length self.old.index.items }
        requires absent { slice_index self.old.index.items track ≡ 0 }
        ensures tracks { self.new.tracks.items ≡ slice_set self.old.tracks.items place track }
        ensures due { self.new.due.items ≡ slice_set self.old.due.items place due }
        ensures index { length self.new.index.items ≡ length self.old.index.items }
        ensures room { vec_capacity self.old.index ≤ vec_capacity self.new.index }
    {
        move_entry(&mut self.index, &self.tracks, place, track);
        self.tracks[place] = track;
        self.due[place] = due;
    }
}

// In the index, gives a place to another track than the one that it holds.
fn move_entry(index: &mut [u32], tracks: &[u32], place: usize, track: u32)
    requires found { IsIndex index.old tracks.now }
    requires few { length tracks.now ≤ 64 }
    requires place { place < length tracks.now }
    requires track { track < length index.old }
    requires absent { slice_index index.old track ≡ 0 }
    ensures { IsIndex index.new (slice_set tracks.now place track) }
{
    let old = tracks[place] as usize;
    index[old] = 0;
    index[track as usize] = place as u32 + 1;
}

// An empty list with room for so many numbers.
pub(crate) fn reserved<T>(alloc: Global, capacity: usize) -> Result<Vec<T>, NoMemory>
    ensures empty { IfOk result (λ v. v.items ≡ []) }
    ensures room { IfOk result (λ v. capacity ≤ vec_capacity v) }
{
    match Vec::with_capacity(alloc, capacity) {
        Ok(v) => Ok(v),
        Err(_) => Err(NoMemory),
    }
}

// Where the greatest number stands, the lowest such place.
fn latest(due: &[u32]) -> usize
    requires { 0 < length due.now }
    ensures { result ≡ lowest_greatest due.now }
{
    let mut most = due[0];
    let mut place = 0;
    for at in 0..due.len() {
        if due[at] > most {
            most = due[at];
            place = at;
        }
    }
    place
}
