// How the top call ended.
ghost use Rattle.std.specs.Prelude.{◌≡◌};
ghost use Rattle.gier_job.specs.Status.{status_number, text_of_status, of_printer, of_ending};

use gier_runner::Ending;
use gier_word::{Failed, Odd};

/// How the top call ended. The number of a status is its place in this list, from 0.
#[derive(Debug, Clone, Copy, PartialEq, Eq)]
pub enum Status {
    /// The run ended, or the program was checked and has no errors.
    Done,
    /// The program has errors, which were printed.
    Errors,
    /// A word of the command line is wrong; its number was printed.
    Words,
    /// The run ended with an alarm, whose name was printed.
    Alarm,
    /// The permitted steps are used up.
    Steps,
    /// A read of the tape failed.
    Tape,
    /// The printer failed; what is out is a prefix of the answer.
    Printer,
    /// A call of the drum failed.
    Drum,
    /// There isn't enough memory; nothing was printed and nothing taken from the tape.
    Memory,
    /// A word read from the drum isn't what may stand there.
    Spoilt(Odd),
}

impl Status {
    /// The exit status of a program that ends so, 0 to 9.
    pub fn number(self) -> u8
        ensures { result ≡ status_number self }
    {
        match self {
            Status::Done => 0,
            Status::Errors => 1,
            Status::Words => 2,
            Status::Alarm => 3,
            Status::Steps => 4,
            Status::Tape => 5,
            Status::Printer => 6,
            Status::Drum => 7,
            Status::Memory => 8,
            Status::Spoilt(_) => 9,
        }
    }
}

/// What a status is called on standard error.
pub fn status_text(status: Status) -> &'static str
    ensures { result.now ≡ text_of_status status }
{
    match status {
        Status::Done => "done",
        Status::Errors => "errors",
        Status::Words => "words",
        Status::Alarm => "alarm",
        Status::Steps => "steps",
        Status::Tape => "tape fault",
        Status::Printer => "printer fault",
        Status::Drum => "drum fault",
        Status::Memory => "want of memory",
        Status::Spoilt(_) => "spoilt drum",
    }
}

/// The status where the printer failed.
pub(crate) fn of_printer(put: Result<(), Failed>) -> Result<(), Status>
    ensures { result ≡ of_printer put }
{
    match put {
        Ok(()) => Ok(()),
        Err(_) => Err(Status::Printer),
    }
}

/// The status of a run that ended so.
pub(crate) fn of_ending(ending: Ending) -> Status
    ensures { result ≡ of_ending ending }
{
    match ending {
        Ending::Ended => Status::Done,
        Ending::Alarm(_) => Status::Alarm,
        Ending::Steps => Status::Steps,
        Ending::Read => Status::Tape,
        Ending::Write => Status::Printer,
        Ending::Drum => Status::Drum,
        Ending::Spoilt(odd) => Status::Spoilt(odd),
    }
}
