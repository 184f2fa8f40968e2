// Why a call of the frames isn't carried out.

use gier_word::Alarm;

/// Why a call isn't carried out.
#[derive(Debug, Clone, Copy, PartialEq, Eq)]
pub enum Halt {
    /// The run ends with this alarm.
    Alarm(Alarm),
    /// The call has no meaning for these frames.
    Odd,
}
