// Why the front stopped.
ghost use Rattle.std.specs.Prelude.{◌≡◌};
ghost use Rattle.gier_front.specs.Stops.{stop_of, text_stop_of};

use gier_text::{PassStop, TextStop};
use gier_word::Odd;

/// Why the front stopped. The texts on the drum mean nothing then.
#[derive(Debug, Clone, Copy, PartialEq, Eq)]
pub enum FrontStop {
    /// The program has errors; the tables hold their list.
    Errors,
    /// The tape failed, and its count of faults rose.
    Read,
    /// The drum failed, and its count of faults rose.
    Drum,
    /// Words read from the drum aren't what may stand there. This comes only over a drum that doesn't tell its tracks.
    Spoilt(Odd),
}

// What a pass or a text can't answer here stands for the drum's failure nowhere: texts on a drum take no memory, and a
// full one is told by `drive` as Spoilt.
pub(crate) fn of_pass(stop: PassStop) -> FrontStop
    ensures { result ≡ stop_of stop }
{
    match stop {
        PassStop::Drum => FrontStop::Drum,
        PassStop::Spoilt(odd) => FrontStop::Spoilt(odd),
        PassStop::Memory | PassStop::Full => FrontStop::Spoilt(Odd { place: 0, word: 0 }),
    }
}

pub(crate) fn of_text(stop: TextStop) -> FrontStop
    ensures { result ≡ text_stop_of stop }
{
    match stop {
        TextStop::Failed => FrontStop::Drum,
        TextStop::Spoilt(odd) => FrontStop::Spoilt(odd),
        TextStop::Memory | TextStop::Full => FrontStop::Spoilt(Odd { place: 0, word: 0 }),
    }
}
