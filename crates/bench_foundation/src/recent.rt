// References to the track that was referred to last, behind few or many others.
ghost use Rattle.std.specs.Prelude.{◌+◌, ◌<◌, ◌≤◌, ◌^◌};
ghost use Rattle.gier_order.specs.Counts.{references_taken};

use gier_order::Recent;

/// The misses of `turns` references to one track, over one place.
pub fn misses_of_one(turns: u32) -> u128 {
    let mut recent = Recent::new();
    refer_to(&mut recent, 0, turns);
    recent.misses(1)
}

/// The misses of as many behind a reference to each of 64 other tracks.
pub fn misses_behind_many(turns: u32) -> u128 {
    let mut recent = Recent::new();
    for track in 1..65u32 {
        recent.refer(track);
    }
    refer_to(&mut recent, 0, turns);
    recent.misses(1)
}

fn refer_to(recent: &mut Recent, track: u32, turns: u32)
    requires { references_taken recent.old < 2 ^ 64 }
{
    for _ in 0..turns {
        recent.refer(track);
    }
}
