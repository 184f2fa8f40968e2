// The opening of a drum in memory.
ghost use Rattle.std.specs.Prelude.{◌≤◌, length, IfOk};
ghost use Rattle.gier_drum.specs.MemDrum.{memory_of};

use gier_drum::{Drum, MemDrum};
use std::alloc::{AllocError, Global};

/// A drum of so many tracks.
pub fn open(alloc: Global, tracks: u32) -> Result<MemDrum, AllocError>
    ensures { IfOk result (λ drum. tracks ≤ length (memory_of drum).tracks) }
{
    let Ok(mut drum) = MemDrum::open(alloc, 0) else {
        return Err(AllocError);
    };
    match drum.make_room(tracks) {
        Ok(()) => Ok(drum),
        Err(_) => Err(AllocError),
    }
}
