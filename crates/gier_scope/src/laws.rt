// The laws of scopes. They have no code: each says what its contract says.
ghost use Rattle.gier_scope.specs.LevelExamples.{AreLevelled};
ghost use Rattle.gier_scope.specs.ScopeExamples.{AreScoped};

/// The faults of scopes of programs, by example: each with its line, in the order of the symbols.
pub fn law_scopes()
    ensures { AreScoped }
{}

/// Blocks and procedures that are too deep, by example.
pub fn law_levels()
    ensures { AreLevelled }
{}
