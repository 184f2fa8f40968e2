// What no clause says: that opening succeeds, and a count of transfers that was found by hand.
ghost use Rattle.std.specs.Prelude.{◌<◌, ◌^◌};

use crate::Places;
use gier_drum::{Drum, MemDrum, RoomFault};
use gier_word::Failed;
use std::test::Fail;

const TRACKS: u32 = 5;

const MANY: u128 = 1000;

// The transfers after these references, up to the first one outside the drum.
fn transfers_of<D: Drum>(
    places: &mut Places,
    drum: &mut D,
    tracks: &[u32],
) -> Result<u128, RoomFault> {
    drum.make_room(TRACKS)?;
    for track in tracks {
        if *track >= TRACKS || places.transfers() >= MANY {
            return Ok(MANY);
        }
        places.refer(*track, drum)?;
    }
    Ok(places.transfers())
}

#[test]
fn the_track_used_least_recently_is_given_up(rt: HostRuntime) -> Result<(), Fail> {
    let mut places = Places::open(rt.alloc(), 3)?;
    let mut drum = MemDrum::open(rt.alloc(), 0)?;
    assert_eq!(rt;
        transfers_of(&mut places, &mut drum, &[1, 2, 3, 1, 2, 4, 1, 2])?,
        4
    );
    Ok(())
}

// The first words of the track at two references, which are one transfer at most.
fn first_words<D: Drum>(places: &mut Places, track: u32, drum: &mut D) -> Result<(u64, u64), Failed>
    requires in_room { track < D.room drum.old }
    requires few { places.old.transfers < 2 ^ 64 }
{
    let first = places.refer(track, drum)?[0];
    let second = places.refer(track, drum)?[0];
    Ok((first, second))
}

#[test]
fn places_are_emptied(rt: HostRuntime) -> Result<(), Fail> {
    let mut places = Places::open(rt.alloc(), 1)?;
    let mut drum = MemDrum::open(rt.alloc(), 0)?;
    transfers_of(&mut places, &mut drum, &[4])?;
    places.clear();
    assert_eq!(rt; places.transfers(), 0);
    Ok(())
}
