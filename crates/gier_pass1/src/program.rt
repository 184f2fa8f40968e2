// The bytes of a program text from a tape: up to the first `#`, and no more than the longest text has.
ghost use Rattle.std.specs.Prelude.{◌≡◌, ◌≤◌, IfOk, IsErrOf};
ghost use Rattle.gier_word.specs.Cause.{HasRisen};
ghost use Rattle.gier_pass1.specs.declared.read.ReadStop.TheVariants.{Read};
ghost use Rattle.gier_pass1.specs.Program.{longest, GivesNext};

use crate::ReadStop;
use gier_io::Source;
use gier_limits::LIMIT;

// The byte that ends the program text.
const MARK: u8 = b'#';

/// The next byte of the program text, of which so many were taken, or None behind its mark or at the end of the tape.
///
/// Too long is a text of which one byte more than `LIMIT` was taken.
pub(crate) fn next_byte<S: Source>(tape: &mut S, taken: u32) -> Result<Option<u8>, ReadStop>
    requires { taken ≤ longest }
    ensures given { GivesNext (S.left tape.old) taken result (S.left tape.new) }
    ensures later { S.faults tape.old ≤ S.faults tape.new }
    ensures failed { IsErrOf result Read → HasRisen (S.faults tape.old) (S.faults tape.new) }
{
    match tape.next() {
        Err(_) => Err(ReadStop::Read),
        Ok(None) => Ok(None),
        Ok(Some(byte)) => {
            if byte == MARK {
                return Ok(None);
            }
            if taken == LIMIT {
                return Err(ReadStop::TooLong);
            }
            Ok(Some(byte))
        }
    }
}
