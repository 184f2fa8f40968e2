// The law that both definitions of the meaning are equal.
ghost use Rattle.std.specs.Prelude.{◌≡◌, ℕ};
ghost use Rattle.gier_copy.specs.Same.{AreSame};

/// Of each program, with all data, permitted steps and words, both tell the same printed bytes, ending, steps charged, greatest
/// live words, data left and stop.
pub fn law_copy()
    ensures { AreSame }
{}
