// The law of structure. It has no code: it says what its contract says.
ghost use Rattle.gier_pass3.specs.Completion.{IsCompletion};

/// Where the fault of structure stands, and of which symbols a program is built.
pub fn law_completion()
    ensures { IsCompletion }
{}
