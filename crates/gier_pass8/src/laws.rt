// The law of texts. It has no code: it says what its contract says.
ghost use Rattle.gier_pass8.specs.Examples.{AreComplete};

/// All is known of the texts 7 of programs, by example; so the pass writes text 8 of them.
pub fn law_complete()
    ensures { AreComplete }
{}
