// The laws of the pure pass.
ghost use Rattle.gier_text4.specs.Text4.{AreWritten, WritesText4};

/// Over text 3 of a program the pure pass writes text 4 of the program, if the numbers of its identifiers are below the fresh ones.
pub fn law_text4()
    ensures { WritesText4 }
{}

/// Over text 3 of some programs it writes their text 4, by example.
pub fn law_text4_examples()
    ensures { AreWritten }
{}
