// Why a run ends.
ghost use Rattle.std.specs.Prelude.{◌≡◌, Option, Some, None};
ghost use Rattle.gier_runner.specs.Endings.{ending_of};

use gier_exec::Turn;
use gier_word::{Alarm, Odd};

/// Why a run ended.
#[derive(Debug, Clone, Copy, PartialEq, Eq)]
pub enum Ending {
    /// The program came to its end.
    Ended,
    /// An alarm of the program.
    Alarm(Alarm),
    /// A step was due, and none was left.
    Steps,
    /// The source of the data failed.
    Read,
    /// The printer failed.
    Write,
    /// The drum failed.
    Drum,
    /// A word, with this address, was no order that is allowed there.
    Spoilt(Odd),
}

/// The ending that an order brings, and None where the run goes on.
#[inline]
pub(crate) fn ending_of(turn: Turn) -> Option<Ending>
    ensures { result ≡ ending_of turn }
{
    match turn {
        Turn::On => None,
        Turn::Ended => Some(Ending::Ended),
        Turn::Alarm(alarm) => Some(Ending::Alarm(alarm)),
        Turn::Steps => Some(Ending::Steps),
        Turn::Read => Some(Ending::Read),
        Turn::Write => Some(Ending::Write),
        Turn::Drum => Some(Ending::Drum),
        Turn::Spoilt(odd) => Some(Ending::Spoilt(odd)),
    }
}
