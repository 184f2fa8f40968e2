// What a drum means, where it tells that, and how often it has failed. No drum is made here.
ghost use Rattle.std.specs.Prelude.{◌≡◌, ◌<◌, ◌≤◌, ◌^◌, List, ℕ, Option, length, Some, OnOk, OnErr, All};
ghost use Rattle.gier_word.specs.Cause.{HasCause};
ghost use Rattle.gier_drum.specs.declared.drum.Entry.{Entry};
ghost use Rattle.gier_drum.specs.declared.drum.Entry.TheVariants.{Read, Write};
ghost use Rattle.gier_drum.specs.Drum.{HasRoomCause, GivesTrack, SetsTrack, Grows, Logs, IsTrack};

use gier_word::Failed;

/// Why there is not the room that was asked for.
#[derive(Debug, Clone, Copy, PartialEq, Eq)]
pub enum RoomFault {
    /// There is not enough memory.
    Memory,
    /// The drum failed, and its count of faults rose.
    Failed,
}

impl From<Failed> for RoomFault {
    ghost use Rattle.gier_drum.specs.declared.drum.RoomFault.TheVariants.{Failed as DrumFailed};

    ghost from_gives = { λ _ fault. fault ≡ DrumFailed };

    fn from(_failed: Failed) -> RoomFault {
        RoomFault::Failed
    }
}

/// A read or a write of the track with this number, which succeeded.
#[derive(Debug, Clone, Copy, PartialEq, Eq)]
pub enum Entry {
    Read(u32),
    Write(u32),
}

/// A device that keeps tracks of 40 words, each below 2^40.
///
/// No call changes whether the tracks or the journal are told.
pub trait Drum {
    /// How many tracks there are.
    ghost room: { Self → ℕ };

    /// The words of each track, where they are told.
    ghost tracks: { Self → Option (List (List ℕ)) };

    /// The reads and writes so far, where they are told.
    ghost journal: { Self → Option (List Entry) };

    /// How often it has failed.
    ghost faults: { Self → ℕ };

    /// Makes room for at least so many tracks. The old tracks stay, and new ones are filled with 0.
    fn make_room(&mut self, wanted: u32) -> Result<(), RoomFault>
        ensures enough { OnOk result (wanted ≤ room self.new) }
        ensures larger { room self.old ≤ room self.new }
        ensures tracks { OnOk result (Grows (tracks self.old) (room self.new) (tracks self.new)) }
        ensures refused { OnErr result (room self.new ≡ room self.old) }
        ensures kept { OnErr result (tracks self.new ≡ tracks self.old) }
        ensures journal { journal self.new ≡ journal self.old }
        ensures cause { HasRoomCause (faults self.old) (faults self.new) result };

    /// Reads a track. After a failure nothing is said of `into`.
    fn read(&mut self, track: u32, into: &mut [u64; 40]) -> Result<(), Failed>
        requires { track < room self.old }
        ensures words { OnOk result (All (λ word. word < 2 ^ 40) into.new) }
        ensures given { OnOk result (GivesTrack (tracks self.old) track into.new) }
        ensures room { room self.new ≡ room self.old }
        ensures tracks { tracks self.new ≡ tracks self.old }
        ensures journal { OnOk result (Logs (journal self.old) (Read track) (journal self.new)) }
        ensures unlogged { OnErr result (journal self.new ≡ journal self.old) }
        ensures cause { HasCause (faults self.old) (faults self.new) result };

    /// Writes a track.
    fn write(&mut self, track: u32, from: &[u64; 40]) -> Result<(), Failed>
        requires in_room { track < room self.old }
        requires words { All (λ word. word < 2 ^ 40) from.now }
        ensures set { OnOk result (SetsTrack (tracks self.old) track from.now (tracks self.new)) }
        ensures kept { OnErr result (tracks self.new ≡ tracks self.old) }
        ensures room { room self.new ≡ room self.old }
        ensures journal { OnOk result (Logs (journal self.old) (Write track) (journal self.new)) }
        ensures unlogged { OnErr result (journal self.new ≡ journal self.old) }
        ensures cause { HasCause (faults self.old) (faults self.new) result };

    /// The room is at most 2^32 tracks.
    ghost bounded: { (drum : Self) → room drum ≤ 2 ^ 32 };

    /// Where the tracks are told there are as many as the room.
    ghost sized: { (drum : Self) (all : List (List ℕ)) → tracks drum ≡ Some all → length all ≡ room drum };

    /// Where the tracks are told each has 40 words below 2^40.
    ghost shaped: { (drum : Self) (all : List (List ℕ)) → tracks drum ≡ Some all → All IsTrack all };
}
