// The laws of symbols. They have no code: each says what its contract says.
ghost use Rattle.gier_symbol.specs.ReadExamples.{AreRead, AreAssembled};

/// What is read of bytes, by example: one for each rule.
pub fn law_read()
    ensures { AreRead }
{}

/// What is assembled of symbols, by example.
pub fn law_assembled()
    ensures { AreAssembled }
{}
