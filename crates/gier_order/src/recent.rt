// How many references to tracks miss, for every number of places at once: a list of the tracks that were referred to
// last, and a count for each place of it. It reads no track and holds none.
ghost use Rattle.std.specs.Prelude.{◌≡◌, ◌+◌, ◌<◌, ◌≤◌, ◌^◌, ◌∷◌, ◌++◌, ◌==◌, ℕ, List, [], length, take, remove, position, sum};
ghost use Rattle.std.specs.Prelude.{drop};
ghost use Rattle.gier_order.specs.Counts.{references_taken, StandsFor};
ghost use Rattle.gier_order.specs.Misses.{misses};

use arrayvec::ArrayVec;
use std::marker::Model;

// The greatest number of places that is counted for.
const PLACES: usize = 64;

/// The numbers of misses of a list of references to tracks, for 1 to 64 places.
#[derive(Drop)]
pub struct Recent {
    // The latest first.
    tracks: ArrayVec<u32, 64>,
    // How many references found their track at each place of the list.
    hits: [u128; 64],
    // How many references found their track at none.
    far: u128,
}

impl Model for Recent {
    ghost use Rattle.std.specs.Prelude.{◌+◌, ◌^◌, ◌≤◌, sum};
    ghost use Rattle.gier_order.specs.Counts.{Counts};

    ghost Value = { Counts };

    ghost view = { λ a. record { recent = a.tracks.items; hits = a.hits; far = a.far } };

    ghost invariant = { λ a. a.far + sum a.hits ≤ 2 ^ 120 };
}

impl Recent {
    /// Stands for no references.
    pub fn new() -> Recent
        ensures none { references_taken result ≡ 0 }
        ensures stands { StandsFor result [] }
    {
        Recent {
            tracks: ArrayVec::new(),
            hits: [0; PLACES],
            far: 0,
        }
    }

    /// Takes one reference to a track. Fewer than 2^120 were taken before.
    #[inline]
    pub fn refer(&mut self, track: u32)
        requires { references_taken self.old < 2 ^ 120 }
        ensures one_more { references_taken self.new ≡ references_taken self.old + 1 }
        ensures stands { (refs : List ℕ) → StandsFor self.old refs → StandsFor self.new (refs ++ track ∷ []) }
    {
        match place_of(self.tracks.as_slice(), track) {
            // Most references are to the newest track, and leave the list as it is.
            Some(0) => self.hits[0] += 1,
            Some(place) => {
                self.hits[place] += 1;
                self.tracks.remove(place);
                self.tracks.insert(0, track);
            }
            None => {
                self.far += 1;
                put_first(&mut self.tracks, track);
            }
        }
    }

    /// The number of misses so far with 1 to 64 places.
    pub fn misses(&self, places: u8) -> u128
        requires least { 1 ≤ places }
        requires most { places ≤ 64 }
        ensures { (refs : List ℕ) → StandsFor self.now refs → result ≡ length (misses refs places) }
    {
        self.far + total_from(&self.hits, places as usize)
    }
}

fn total_from(hits: &[u128], place: usize) -> u128
    requires within { place ≤ length hits.now }
    requires fits { sum hits.now < 2 ^ 128 }
    ensures value { result ≡ sum (drop place hits.now) }
    ensures bound { result ≤ sum hits.now }
{
    total(&hits[place..])
}

fn total(counts: &[u128]) -> u128
    requires { sum counts.now < 2 ^ 128 }
    ensures { result ≡ sum counts.now }
{
    counts.iter().sum()
}

#[inline]
fn place_of(tracks: &[u32], track: u32) -> Option<usize>
    ensures { result ≡ position (λ t. t == track) tracks.now }
{
    match tracks {
        [newest, ..] if *newest == track => Some(0),
        _ => search(tracks, track),
    }
}

#[inline(never)]
fn search(tracks: &[u32], track: u32) -> Option<usize>
    ensures { result ≡ position (λ t. t == track) tracks.now }
{
    tracks.iter().position(|t| *t == track)
}

// The last one goes where the list is full.
#[inline(never)]
fn put_first(tracks: &mut ArrayVec<u32, 64>, track: u32)
    ensures { tracks.new.items ≡ take 64 (track ∷ tracks.old.items) }
{
    if tracks.is_full() {
        tracks.pop();
    }
    tracks.insert(0, track);
}

#[cfg(test)]
mod tests {
    use super::*;

    fn misses_of(tracks: &[u32], places: u8) -> u128
        requires few { length tracks.now ≤ 100 }
        requires least { 1 ≤ places }
        requires most { places ≤ 64 }
    {
        let mut recent = Recent::new();
        for track in tracks {
            recent.refer(*track);
        }
        recent.misses(places)
    }

    #[test]
    fn counts_misses(rt: HostRuntime) {
        // First in, first out would give 6.
        assert_eq!(rt; misses_of(&[1, 2, 3, 1, 2, 4, 1, 2], 3), 4);
        assert_eq!(rt; misses_of(&[1, 2, 3, 1, 2, 3], 2), 6);
    }
}
