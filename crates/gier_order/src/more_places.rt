// More places never cost more misses.
ghost use Rattle.std.specs.Prelude.{◌≤◌, ℕ, List, length};
ghost use Rattle.gier_order.specs.Misses.{misses};

/// Over one list of references the number of misses doesn't rise with the number of places.
pub fn law_more_places()
    ensures { (refs : List ℕ) (fewer more : ℕ) → fewer ≤ more → length (misses refs more) ≤ length (misses refs fewer) }
{}
