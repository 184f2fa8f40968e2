// The data part of the input: the bytes of a source up to a limit.
ghost use Rattle.std.specs.Prelude.{◌≡◌, ◌<◌, ◌≤◌, false};
ghost use Rattle.gier_library.specs.Data.{limit};

use gier_io::Source;
use gier_word::Failed;

// The most bytes that the data may have.
const LIMIT: u64 = 16_777_216;

/// The bytes that a program reads: those of a source, and at most 16,777,216.
///
/// `given` is the number of bytes that the source gave. `ended` holds from the source's first None or from the limit
/// on; from then on it gives the end of the data for good and doesn't call the source.
#[derive(Drop)]
pub struct Data<'a, S> {
    source: &'a mut S,
    given: u64,
    ended: bool,
    ghost limited: { given ≤ limit },
    ghost below: { ended ≡ false → given < limit },
}

impl<'a, S: Source> Data<'a, S> {
    ghost use Rattle.std.specs.Prelude.{◌≡◌, true, Ok, None};
    ghost use Rattle.gier_word.specs.Cause.{HasCause};
    ghost use Rattle.gier_library.specs.Data.{Takes, bytes_of};
    ghost use Rattle.gier_library.specs.DataView.{source_of, bytes_given, has_ended, stand_of};

    /// Data of which nothing was read.
    pub fn of(source: &'a mut S) -> Data<'a, S>
        ensures same_reference { result.source.ghost_name ≡ source.entry.ghost_name }
        ensures source { source_of result ≡ source.old }
        ensures given { bytes_given result ≡ 0 }
        ensures ended { has_ended result ≡ false }
    {
        Data {
            source,
            given: 0,
            ended: false,
        }
    }

    /// The next byte, or None from the end of the data on.
    pub(crate) fn next(&mut self) -> Result<Option<u8>, Failed>
        ensures same_reference { self.new.source.ghost_name ≡ self.old.source.ghost_name }
        ensures taken { Takes (stand_of S.left self.old) (bytes_of result) (stand_of S.left self.new) }
        ensures end { result ≡ Ok None → has_ended self.new ≡ true }
        ensures stays { has_ended self.old ≡ true → (result ≡ Ok None) × (source_of self.new ≡ source_of self.old) }
        ensures cause { HasCause (S.faults (source_of self.old)) (S.faults (source_of self.new)) result }
    {
        if self.ended {
            return Ok(None);
        }
        match self.source.next() {
            Ok(Some(byte)) => {
                self.given += 1;
                self.ended = self.given == LIMIT;
                Ok(Some(byte))
            }
            Ok(None) => {
                self.ended = true;
                Ok(None)
            }
            Err(failed) => Err(failed),
        }
    }
}
