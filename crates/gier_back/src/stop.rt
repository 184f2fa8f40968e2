// Why the back stopped.
ghost use Rattle.std.specs.Prelude.{◌≡◌};
ghost use Rattle.gier_back.specs.Stops.{stop_of};

use gier_text::PassStop;
use gier_word::Odd;

/// Why the back stopped. The texts and the object on the drum mean nothing then.
#[derive(Debug, Clone, Copy, PartialEq, Eq)]
pub enum BackStop {
    /// The drum failed, and its count of faults rose.
    Drum,
    /// Words read from the drum aren't what may stand there, or text 6 was none of a program.
    Spoilt(Odd),
}

// What a pass can't answer here is told as Spoilt: texts on a drum take no memory, and a full one is told by `drive` as Spoilt.
pub(crate) fn of_pass(stop: PassStop) -> BackStop
    ensures { result ≡ stop_of stop }
{
    match stop {
        PassStop::Drum => BackStop::Drum,
        PassStop::Spoilt(odd) => BackStop::Spoilt(odd),
        PassStop::Memory | PassStop::Full => BackStop::Spoilt(Odd { place: 0, word: 0 }),
    }
}
