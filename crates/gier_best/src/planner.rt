// The plan that gives up the track wanted farthest ahead, made change by change.
ghost use Rattle.std.specs.Prelude.{◌≡◌, ℕ, suc, ◌+◌, ◌<◌, ◌≤◌, All, List, [], ◌∷◌, length, slice_index, vec_capacity};
ghost use Rattle.gier_best.specs.Plan.{next_use, farthest};
ghost use Rattle.gier_best.specs.PlannerState.{AreNextUses, IsIndex, IsPlanned};

use crate::places::Places;

/// Makes the plan for these changes, where `next` says when each one's track is wanted next, and all places are empty.
pub(crate) fn plan_reads(
    changes: &[u32],
    next: &[u32],
    count: u8,
    places: &mut Places,
    plan: &mut Vec<(u32, u8)>,
)
    requires next { AreNextUses changes.now next.now }
    requires some { 1 ≤ count }
    requires most { count ≤ 64 }
    requires tracks { All (λ track. track < length places.old.index.items) changes.now }
    requires empty { places.old.tracks.items ≡ [] }
    requires no_reads { plan.old.items ≡ [] }
    requires room { length changes.now ≤ vec_capacity plan.old }
    ensures plan { plan.new.items ≡ farthest changes.now count }
    ensures few { length plan.new.items ≤ length changes.now }
    ensures plan_room { vec_capacity plan.old ≤ vec_capacity plan.new }
    ensures index_room { vec_capacity places.old.index ≤ vec_capacity places.new.index }
{
    for at in 0..changes.len() {
        refer(changes[at], next[at], count, places, plan);
    }
}

// One reference: nothing is read where a place holds the track.
fn refer(track: u32, due: u32, count: u8, places: &mut Places, plan: &mut Vec<(u32, u8)>)
    requires some { 1 ≤ count }
    requires most { count ≤ 64 }
    requires few { length places.old.tracks.items ≤ count }
    requires track { track < length places.old.index.items }
    requires room { length plan.old.items < vec_capacity plan.old }
    ensures planned { (rest : List ℕ) (at : ℕ) (whole : List (ℕ × ℕ)) → due ≡ suc at + next_use rest track
        → IsPlanned count at (track ∷ rest) places.old.tracks.items places.old.due.items plan.old.items whole
        → IsPlanned count (suc at) rest places.new.tracks.items places.new.due.items plan.new.items whole }
    ensures few { length places.new.tracks.items ≤ count }
    ensures index { length places.new.index.items ≡ length places.old.index.items }
    ensures reads { length plan.new.items ≤ length plan.old.items + 1 }
    ensures plan_room { vec_capacity plan.old ≤ vec_capacity plan.new }
    ensures index_room { vec_capacity places.old.index ≤ vec_capacity places.new.index }
{
    match places.find(track) {
        Some(place) => places.set_due(place, due),
        None => read(track, due, count, places, plan),
    }
}

// Reads a track that no place holds into the place that is chosen.
fn read(track: u32, due: u32, count: u8, places: &mut Places, plan: &mut Vec<(u32, u8)>)
    requires some { 1 ≤ count }
    requires most { count ≤ 64 }
    requires few { length places.old.tracks.items ≤ count }
    requires track { track < length places.old.index.items }
    requires absent { slice_index places.old.index.items track ≡ 0 }
    requires found { IsIndex places.old.index.items places.old.tracks.items }
    requires room { length plan.old.items < vec_capacity plan.old }
    ensures planned { (rest : List ℕ) (at : ℕ) (whole : List (ℕ × ℕ)) → due ≡ suc at + next_use rest track
        → IsPlanned count at (track ∷ rest) places.old.tracks.items places.old.due.items plan.old.items whole
        → IsPlanned count (suc at) rest places.new.tracks.items places.new.due.items plan.new.items whole }
    ensures few { length places.new.tracks.items ≤ count }
    ensures index { length places.new.index.items ≡ length places.old.index.items }
    ensures reads { length plan.new.items ≡ length plan.old.items + 1 }
    ensures plan_room { vec_capacity plan.old ≤ vec_capacity plan.new }
    ensures index_room { vec_capacity places.old.index ≤ vec_capacity places.new.index }
{
    let place = places.choose(count);
    places.read(place, track, due);
    plan.push_reserved((track, place as u8 + 1));
}
