// The laws of objects. They have no code: each says what its contract says.
ghost use Rattle.gier_pass9.specs.ObjectExamples.{AreMade};
ghost use Rattle.gier_pass9.specs.Objects.{AreObjects};

/// The words that are made of a text 8, by example.
pub fn law_made()
    ensures { AreMade }
{}

/// A text 8 makes the object of the text 7 that it comes from, and so the code of each program.
pub fn law_objects()
    ensures { AreObjects }
{}
