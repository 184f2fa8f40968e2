// Why lines were not found.
ghost use Rattle.std.specs.Prelude.{◌≡◌};
ghost use Rattle.gier_mortem.specs.Stops.{stop_of};

use gier_text::TextStop;
use gier_word::Odd;

/// Why lines were not found.
#[derive(Debug, Clone, Copy, PartialEq, Eq)]
pub enum LineStop {
    /// The drum failed, and its count of faults rose.
    Drum,
    /// Two words are no symbol's code, or the text ends before a word that was asked for; then the place is the number of its
    /// symbols and the word 0.
    Spoilt(Odd),
}

// A text on a drum takes no memory and is only read, so the two other stops don't come.
pub(crate) fn stop_of(stop: TextStop) -> LineStop
    ensures { result ≡ stop_of stop }
{
    match stop {
        TextStop::Failed => LineStop::Drum,
        TextStop::Spoilt(odd) => LineStop::Spoilt(odd),
        TextStop::Memory | TextStop::Full => LineStop::Spoilt(Odd { place: 0, word: 0 }),
    }
}
