// A drum in memory that forgets: from some read on it gives zeros. So it doesn't tell its tracks.
ghost use Rattle.std.specs.Prelude.{◌≡◌, ◌<◌, ◌≤◌, ◌^◌, [], None, OnOk, OnErr, IfOk, IfErr, IsOk, All, length, slice_set};
ghost use Rattle.gier_drum.specs.Memory.{AreTracks, grown_to};
ghost use Rattle.gier_drum.specs.declared.drum.RoomFault.TheVariants.{Memory as WantOfMemory};

use crate::tracks::Tracks;
use crate::{Drum, RoomFault};
use gier_word::{Failed, NoMemory};
use std::alloc::Global;

/// A drum in memory that never fails and gives 40 zeros from the read with a given number on.
#[derive(Drop)]
pub struct ForgetfulDrum {
    tracks: Tracks,
    // How many reads it still answers by the track's words.
    left: u64,
    ghost stored: { AreTracks tracks },
}

impl ForgetfulDrum {
    ghost use Rattle.gier_drum.specs.ForgetfulDrum.{held_of, left_of};

    /// A drum with no track, which gives zeros from the read with the number `from` on, counted from 0.
    pub fn open(alloc: Global, from: u64) -> Result<ForgetfulDrum, NoMemory>
        ensures tracks { IfOk result (λ drum. held_of drum ≡ []) }
        ensures left { IfOk result (λ drum. left_of drum ≡ from) }
    {
        Ok(ForgetfulDrum {
            tracks: Tracks::new(alloc),
            left: from,
        })
    }
}

impl Drum for ForgetfulDrum {
    ghost use Rattle.gier_drum.specs.ForgetfulDrum.{held_of, left_of, RemembersOrForgets};
    ghost use Rattle.gier_drum.specs.Laws.{few-bounded, untold};

    ghost room = { λ d. length d.tracks };

    ghost tracks = { λ _. None };

    ghost journal = { λ _. None };

    ghost faults = { λ _. 0 };

    ghost bounded = { λ drum. few-bounded drum.stored };

    ghost sized = { λ drum all told. untold told };

    ghost shaped = { λ drum all told. untold told };

    fn make_room(&mut self, wanted: u32) -> Result<(), RoomFault>
        ensures grown { OnOk result (held_of self.new ≡ grown_to wanted (held_of self.old)) }
        ensures kept { OnErr result (held_of self.new ≡ held_of self.old) }
        ensures left { left_of self.new ≡ left_of self.old }
        ensures want { IfErr result (λ fault. fault ≡ WantOfMemory) }
    {
        match self.tracks.make_room(wanted) {
            Ok(()) => Ok(()),
            Err(_) => Err(RoomFault::Memory),
        }
    }

    fn read(&mut self, track: u32, into: &mut [u64; 40]) -> Result<(), Failed>
        requires { track < length (held_of self.old) }
        ensures done { IsOk result }
        ensures given { RemembersOrForgets (left_of self.old) (held_of self.old) track into.new (left_of self.new) }
        ensures words { All (λ word. word < 2 ^ 40) into.new }
        ensures held { held_of self.new ≡ held_of self.old }
    {
        if self.left == 0 {
            *into = [0; 40];
        } else {
            self.left -= 1;
            self.tracks.read(track, into);
        }
        Ok(())
    }

    fn write(&mut self, track: u32, from: &[u64; 40]) -> Result<(), Failed>
        requires in_room { track < length (held_of self.old) }
        requires words { All (λ word. word < 2 ^ 40) from.now }
        ensures done { IsOk result }
        ensures set { held_of self.new ≡ slice_set (held_of self.old) track from.now }
        ensures left { left_of self.new ≡ left_of self.old }
    {
        self.tracks.write(track, from);
        Ok(())
    }
}
