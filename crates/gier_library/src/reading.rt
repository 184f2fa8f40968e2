// The standard procedures that read: an integer and a byte of the data.
ghost use Rattle.std.specs.Prelude.{◌≡◌, true, [], Ok};
ghost use Rattle.gier_word.specs.Cause.{HasCause};
ghost use Rattle.gier_word.specs.Standard.{integer_read, character_read};
ghost use Rattle.gier_library.specs.Data.{Reads};
ghost use Rattle.gier_library.specs.DataView.{source_of, has_ended, stand_of};
ghost use Rattle.gier_library.specs.Answers.{integer_answer, character_answer};

use crate::Data;
use crate::number::{Place, Step, number, outcome_at_end, step_at};
use gier_io::Source;
use gier_word::{Alarm, Failed, Int40};

// What `inchar` gives at the end of the data.
const END: i64 = -1;

/// Why no integer was read.
#[derive(Debug, Clone, Copy, PartialEq, Eq)]
pub enum InStop {
    /// `data`: no digit stands where one has to, or a digit brings the number outside the range.
    /// The byte that shows this was taken.
    Alarm(Alarm),
    /// The source failed.
    Read,
}

/// `ininteger`: skips layout and commas, and takes one sign, where there is one, and all digits.
///
/// The first other byte behind them is taken and dropped. `Read` comes only where the source's count of faults rose.
pub fn in_integer<S: Source>(input: &mut Data<S>) -> Result<Int40, InStop>
    ensures same_reference { input.new.source.ghost_name ≡ input.old.source.ghost_name }
    ensures read { Reads integer_read (stand_of S.left input.old) (integer_answer result) (stand_of S.left input.new) }
    ensures over { has_ended input.old ≡ true → integer_answer result ≡ Ok (integer_read []).outcome }
    ensures stays { has_ended input.old ≡ true → source_of input.new ≡ source_of input.old }
    ensures cause { HasCause (S.faults (source_of input.old)) (S.faults (source_of input.new)) (integer_answer result) }
{
    let mut place = Place::Blank;
    loop {
        match input.next() {
            Ok(Some(byte)) => match step_at(place, byte) {
                Step::Goes(next) => place = next,
                Step::Stops(outcome) => return answer(outcome),
            },
            Ok(None) => return answer(outcome_at_end(place)),
            Err(_) => return Err(InStop::Read),
        }
    }
}

/// `inchar`: the next byte of the data, or -1 at their end.
///
/// `Failed` comes only where the source's count of faults rose.
pub fn in_char<S: Source>(input: &mut Data<S>) -> Result<Int40, Failed>
    ensures same_reference { input.new.source.ghost_name ≡ input.old.source.ghost_name }
    ensures read { Reads character_read (stand_of S.left input.old) (character_answer result) (stand_of S.left input.new) }
    ensures over { has_ended input.old ≡ true → character_answer result ≡ Ok (character_read []).outcome }
    ensures stays { has_ended input.old ≡ true → source_of input.new ≡ source_of input.old }
    ensures cause { HasCause (S.faults (source_of input.old)) (S.faults (source_of input.new)) result }
{
    match input.next() {
        Ok(Some(byte)) => Ok(number(i64::from(byte))),
        Ok(None) => Ok(number(END)),
        Err(failed) => Err(failed),
    }
}

fn answer(outcome: Result<Int40, Alarm>) -> Result<Int40, InStop>
    ensures { integer_answer result ≡ Ok outcome }
{
    match outcome {
        Ok(n) => Ok(n),
        Err(alarm) => Err(InStop::Alarm(alarm)),
    }
}
