// What one order answers.

use gier_word::{Alarm, Odd};

/// What comes of an order.
#[derive(Debug, Clone, Copy, PartialEq, Eq)]
pub enum Turn {
    /// The run goes on.
    On,
    /// The order was STOP.
    Ended,
    /// The run ends with this alarm.
    Alarm(Alarm),
    /// A step was due, and none was left.
    Steps,
    /// The source of the data failed.
    Read,
    /// The printer failed.
    Write,
    /// The drum failed.
    Drum,
    /// The order, with this address and this word, isn't allowed in its place.
    Spoilt(Odd),
}
