// A source over any reader of std. It tells nothing of bytes as a source.
ghost use Rattle.std.specs.Prelude.{◌≡◌, None, is_ok, if◌then◌else◌, OnErr, IfOk};
ghost use Rattle.std.specs.Io.KnownBytes.{Keeps};
ghost use Rattle.gier_word.specs.Cause.{HasCause};
ghost use Rattle.gier_io.specs.Adapter.{reader_of, source_faults, ReadsByte};
ghost use Rattle.gier_io.specs.Device.{Gives};
ghost use Rattle.gier_io.specs.Memory.{count_after};

use crate::Source;
use gier_word::Failed;
use std::io::Read;

/// A reader as a source. Its count rises at each error of the reader, or stands at its last value.
#[derive(Drop)]
pub struct StdSource<R> {
    inner: R,
    failed: u64,
}

impl<R: Read> StdSource<R> {
    /// A source over this reader.
    pub fn of(inner: R) -> StdSource<R>
        ensures reader { reader_of result ≡ inner }
        ensures faults { source_faults result ≡ 0 }
    {
        StdSource { inner, failed: 0 }
    }

    /// The reader, which still has what wasn't taken.
    pub fn into_inner(self) -> R
        ensures { result ≡ reader_of self }
    {
        self.inner
    }
}

impl<R: Read> Source for StdSource<R> {
    ghost left = { λ s. None };

    ghost faults = { λ s. source_faults s };

    fn next(&mut self) -> Result<Option<u8>, Failed>
        ensures read { IfOk result (λ byte.
            ReadsByte (R.remaining (reader_of self.old)) byte (R.remaining (reader_of self.new))) }
        ensures unread { OnErr result
            (Keeps (R.remaining (reader_of self.old)) (R.remaining (reader_of self.new))) }
        ensures count { source_faults self.new ≡
            (if is_ok result then source_faults self.old else count_after (source_faults self.old)) }
        ensures given { IfOk result (λ byte. Gives None byte None) }
        ensures cause { HasCause (source_faults self.old) (source_faults self.new) result }
    {
        let mut byte = [0];
        match self.inner.read(&mut byte) {
            Ok(0) => Ok(None),
            Ok(_) => Ok(Some(byte[0])),
            Err(_) => {
                self.failed = self.failed.saturating_add(1);
                Err(Failed)
            }
        }
    }
}
