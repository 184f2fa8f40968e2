// The flat run of an object, in samples: what it makes of small objects, and that it always comes to an end.
ghost use Rattle.std.specs.Prelude.{◌≡◌, ◌≤◌, ℕ, List};
ghost use Rattle.gier_order.specs.Flat.Run.{State, Final, Over, exec, one, enough, machine_at_start, flat, report_of};
ghost use Rattle.gier_order.specs.Flat.Sample.{AreAnswered};
ghost use Rattle.gier_order.specs.Flat.Samples.Values.{samples as values};
ghost use Rattle.gier_order.specs.Flat.Samples.Calls.{samples as calls};
ghost use Rattle.gier_order.specs.Flat.Samples.Stops.{samples as stops};
ghost use Rattle.gier_order.specs.Flat.Samples.Spoilt.{samples as spoilt};

/// What the flat run makes of small objects, whose answers another model computed.
pub fn law_flat_run()
    ensures values { AreAnswered values }
    ensures calls { AreAnswered calls }
    ensures stops { AreAnswered stops }
    ensures spoilt { AreAnswered spoilt }
{}

/// With enough moves the flat run is over, with more it is over alike, and what it is over with is what it gives.
pub fn law_flat_ends()
    ensures ends { (code : List ℕ) (size : ℕ) (s : State) → (final : Final)
        × (exec (one code size) (enough code s) s ≡ Over final) }
    ensures longer { (code : List ℕ) (size k n : ℕ) → k ≤ n → (s : State) (final : Final) → exec (one code size) k s ≡ Over final
        → exec (one code size) n s ≡ Over final }
    ensures gives { (code : List ℕ) (start : ℕ) (input : List ℕ) (steps size moves : ℕ) (final : Final)
        → exec (one code size) moves (machine_at_start start input steps) ≡ Over final → flat code start input steps size
        ≡ report_of steps final }
{}
