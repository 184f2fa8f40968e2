// When the track of each change is referred to next, by one sweep from the last change to the first.
ghost use Rattle.std.specs.Prelude.{◌≡◌, ℕ, ◌<◌, ◌≤◌, ◌^◌, All, length, replicate, vec_capacity};
ghost use Rattle.gier_best.specs.PlannerState.{AreNextUses};

/// Fills `next` with the position of the next change to each one's track, or the number of changes where there is none.
/// `seen` is working room with a word for each of the `tracks`.
pub(crate) fn find_next(changes: &[u32], tracks: u32, seen: &mut Vec<u32>, next: &mut Vec<u32>)
    requires tracks { All (λ track. track < tracks) changes.now }
    requires count { length changes.now < 2 ^ 32 }
    requires seen_room { tracks ≤ vec_capacity seen.old }
    requires next_room { length changes.now ≤ vec_capacity next.old }
    ensures next { AreNextUses changes.now next.new.items }
    ensures seen_capacity { vec_capacity seen.old ≤ vec_capacity seen.new }
    ensures next_capacity { vec_capacity next.old ≤ vec_capacity next.new }
{
    refill(seen, tracks as usize, changes.len() as u32);
    refill(next, changes.len(), 0);
    sweep(changes, seen, next);
}

// The positions of the next changes, where `seen` has the number of changes for each track.
fn sweep(changes: &[u32], seen: &mut [u32], next: &mut [u32])
    requires tracks { All (λ track. track < length seen.old) changes.now }
    requires count { length changes.now < 2 ^ 32 }
    requires unseen { seen.old ≡ replicate (length seen.old) (length changes.now) }
    requires even { length next.old ≡ length changes.now }
    ensures { AreNextUses changes.now next.new }
{
    let mut at = changes.len();
    while at > 0 {
        at -= 1;
        let track = changes[at] as usize;
        next[at] = seen[track];
        seen[track] = at as u32;
    }
}

/// Makes `v` a list of `n` equal numbers, within room that was reserved.
pub(crate) fn refill(v: &mut Vec<u32>, n: usize, value: u32)
    requires { n ≤ vec_capacity v.old }
    ensures items { v.new.items ≡ replicate n value }
    ensures capacity { vec_capacity v.old ≤ vec_capacity v.new }
{
    v.clear();
    match v.resize(n, value) {
        Ok(()) => {}
        Err(_) => unreachable!(),
    }
}
