// The law that the text 7 of each program is whole.
ghost use Rattle.gier_complete.specs.Whole.{AreWhole};

/// The text 7 of each program has one STOP; behind each room stands its need, and behind the program's the need of the program;
/// and the number of its words stands at its end.
pub fn law_whole()
    ensures { AreWhole }
{}
