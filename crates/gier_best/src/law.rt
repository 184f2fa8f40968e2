// The law that no plan reads fewer tracks than the one that gives up the track wanted farthest ahead.
ghost use Rattle.std.specs.Prelude.{ℕ, ◌≤◌, List, length};
ghost use Rattle.gier_best.specs.Plan.{IsPlanFor, farthest};

/// For every list of tracks and every number of places, at least 1: `farthest` is a plan, and no plan costs less.
pub fn law_best()
    ensures plan { (refs : List ℕ) (places : ℕ) → 1 ≤ places → IsPlanFor refs places (farthest refs places) }
    ensures least { (refs : List ℕ) (places : ℕ) (moves : List (ℕ × ℕ)) → 1 ≤ places → IsPlanFor refs places moves
        → length (farthest refs places) ≤ length moves }
{}
