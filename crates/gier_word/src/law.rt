// The law of powers: it has no code, and says what its contract says.
ghost use Rattle.gier_word.specs.Powers.{ArePowers, AreWhole};

/// A power with a small exponent in place of its own is the one that is formed whole, and then asked whether it is in the range.
pub fn law_power()
    ensures whole { AreWhole }
    ensures examples { ArePowers }
{}
