// Why an order doesn't let the run go on, by what the order has to do with.
ghost use Rattle.std.specs.Prelude.{◌≡◌};
ghost use Rattle.gier_exec.specs.Following.{stop_of};

use gier_frames::Halt;
use gier_word::Alarm;

/// What the registers and the frames know of it.
#[derive(Clone, Copy)]
pub(crate) enum Stop {
    /// The order was STOP.
    Ended,
    /// The run ends with this alarm.
    Alarm(Alarm),
    /// A step was due, and none was left.
    Steps,
    /// The order isn't allowed in its place.
    Odd,
}

/// The same of an order that reads words of the object.
#[derive(Clone, Copy)]
pub(crate) enum Miss {
    Stop(Stop),
    /// The drum failed.
    Drum,
}

/// The same of an order that also prints or takes data.
#[derive(Clone, Copy)]
pub(crate) enum Quit {
    Miss(Miss),
    /// The source of the data failed.
    Read,
    /// The printer failed.
    Write,
}

impl From<Halt> for Stop {
    fn from(halt: Halt) -> Stop
        ensures { result ≡ stop_of halt }
    {
        match halt {
            Halt::Alarm(alarm) => Stop::Alarm(alarm),
            Halt::Odd => Stop::Odd,
        }
    }
}

/// An order that isn't allowed, where words of the object are read.
pub(crate) const ODD: Miss = Miss::Stop(Stop::Odd);
