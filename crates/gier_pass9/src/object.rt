// The tracks of the object: its words are collected in one track, which is written as soon as it is full.
ghost use Rattle.std.specs.Prelude.{◌≡◌, ◌<◌, ◌≤◌, ◌+◌, ◌/◌, ◌%◌, ◌^◌, ◌↔◌, ℕ, All, IsTrue, length, OnOk, OnErr, slice_index};
ghost use Rattle.gier_word.specs.Cause.{HasCause};
ghost use Rattle.gier_text.specs.Log.{LogsAll};
ghost use Rattle.gier_text.specs.View.{KeepsTracks};
ghost use Rattle.gier_pass9.specs.Object.{tracks_of, full_track, last_track};

use gier_drum::Drum;
use gier_word::Failed;

// How many words a track holds.
const ON_TRACK: u32 = 40;

/// The object so far.
#[derive(Drop)]
pub(crate) struct Object {
    // Its first track, and how many words it may have.
    first: u32,
    most: u32,
    // How many words it has.
    count: u32,
    // The words of the track that isn't full yet, and zeros behind them.
    track: [u64; 40],
    ghost within: { count ≤ most },
    ghost fits: { first + tracks_of most ≤ 2 ^ 32 },
    ghost sized: { length track ≡ 40 },
    ghost small: { All (λ word. word < 2 ^ 40) track },
    ghost blank: { (k : ℕ) → count % 40 ≤ k → slice_index track k ≡ 0 },
}

// A track of zeros.
fn zeros() -> [u64; 40]
    ensures sized { length result ≡ 40 }
    ensures zero { (k : ℕ) → slice_index result k ≡ 0 }
    ensures small { All (λ word. word < 2 ^ 40) result }
{
    [0; 40]
}

impl Object {
    ghost use Rattle.std.specs.Prelude.{◌++◌, ◌∷◌, List, [], Option};
    ghost use Rattle.gier_pass9.specs.ObjectOfText.{HasWords, HoldsWords};

    /// An object without words, from this track on.
    pub(crate) fn at(first: u32, most: u32) -> Object
        requires { first + tracks_of most ≤ 2 ^ 32 }
        ensures place { (result.first ≡ first) × (result.most ≡ most) }
        ensures empty { result.count ≡ 0 }
        ensures made { (tracks : Option (List (List ℕ))) → HasWords result tracks [] }
    {
        Object {
            first,
            most,
            count: 0,
            track: zeros(),
        }
    }

    /// How many words it has.
    pub(crate) fn words(&self) -> u32
        ensures { result ≡ self.now.count }
    {
        self.count
    }

    /// Whether it has as many words as it may have.
    pub(crate) fn is_full(&self) -> bool
        ensures { IsTrue result ↔ (self.now.count ≡ self.now.most) }
    {
        self.count == self.most
    }

    /// Appends a word, and writes the track that it fills.
    pub(crate) fn put<D: Drum>(&mut self, drum: &mut D, word: u64) -> Result<(), Failed>
        requires room { self.old.count < self.old.most }
        requires word { word < 2 ^ 40 }
        requires in_room { self.old.first + tracks_of self.old.most ≤ D.room drum.old }
        ensures place { (self.new.first ≡ self.old.first) × (self.new.most ≡ self.old.most) }
        ensures count { OnOk result (self.new.count ≡ self.old.count + 1) }
        ensures refused { OnErr result (self.new.count ≡ self.old.count) }
        ensures made { OnOk result
            ((words : List ℕ) → HasWords self.old (D.tracks drum.old) words
            → HasWords self.new (D.tracks drum.new) (words ++ word ∷ [])) }
        ensures tracks { KeepsTracks self.old.first (self.old.first + tracks_of self.old.most) (D.tracks drum.old)
            (D.tracks drum.new) }
        ensures room { D.room drum.new ≡ D.room drum.old }
        ensures logged { OnOk result
            (LogsAll (D.journal drum.old) (full_track self.old.first self.old.count) (D.journal drum.new)) }
        ensures unlogged { OnErr result (D.journal drum.new ≡ D.journal drum.old) }
        ensures cause { HasCause (D.faults drum.old) (D.faults drum.new) result }
    {
        let place = self.count % ON_TRACK;
        self.track[place as usize] = word;
        if place < ON_TRACK - 1 {
            self.count += 1;
            return Ok(());
        }
        let written = drum.write(self.first + self.count / ON_TRACK, &self.track);
        self.track = zeros();
        match written {
            Ok(()) => {
                self.count += 1;
                Ok(())
            }
            Err(failed) => Err(failed),
        }
    }

    /// Writes the last track, filled up with 0, where it isn't full.
    pub(crate) fn close<D: Drum>(&self, drum: &mut D) -> Result<(), Failed>
        requires in_room { self.now.first + tracks_of self.now.most ≤ D.room drum.old }
        ensures made { OnOk result
            ((words : List ℕ) → HasWords self.now (D.tracks drum.old) words → HoldsWords (D.tracks drum.new) self.now.first words) }
        ensures tracks { KeepsTracks self.now.first (self.now.first + tracks_of self.now.most) (D.tracks drum.old)
            (D.tracks drum.new) }
        ensures room { D.room drum.new ≡ D.room drum.old }
        ensures logged { OnOk result
            (LogsAll (D.journal drum.old) (last_track self.now.first self.now.count) (D.journal drum.new)) }
        ensures unlogged { OnErr result (D.journal drum.new ≡ D.journal drum.old) }
        ensures cause { HasCause (D.faults drum.old) (D.faults drum.new) result }
    {
        if self.count % ON_TRACK == 0 {
            return Ok(());
        }
        drum.write(self.first + self.count / ON_TRACK, &self.track)
    }
}
