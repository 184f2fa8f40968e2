// The laws of what is assembled. They have no code: each says what its contract says.
ghost use Rattle.gier_pass2.specs.Characters.{AreCharacters};
ghost use Rattle.gier_pass2.specs.Spelled.{ReadsSpelled};

/// Identifiers have the same number just where they have the same letters and digits, and a standard one has its own.
#[tactic(auto, using(crate::proofs::NamesApart::told_apart))]
pub fn law_characters()
    ensures { AreCharacters }
{}

/// The letters and digits of each program text are spelled, as the pass needs them.
#[tactic(auto, using(crate::proofs::SpelledText::text_spelled))]
pub fn law_spelled()
    ensures { ReadsSpelled }
{}
