// The law of the pure pass.
ghost use Rattle.gier_text3.specs.Text3.{WritesText3};

/// Over the spelling of a program the pure pass writes text 3 of the program.
pub fn law_text3()
    ensures { WritesText3 }
{}
