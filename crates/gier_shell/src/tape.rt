// The tape up to its end.
ghost use Rattle.std.specs.Prelude.{◌≡◌, None};

use gier_io::Source;
use gier_word::Failed;

/// A source that is not asked again once it has ended. At a terminal the end of the input is told only once, and a second
/// question would wait for more. It tells nothing of its bytes.
#[derive(Drop)]
pub(crate) struct Tape<S> {
    inner: S,
    ended: bool,
}

impl<S: Source> Tape<S> {
    /// The bytes of a source up to its first end.
    pub(crate) fn of(inner: S) -> Tape<S> {
        Tape {
            inner,
            ended: false,
        }
    }

    /// The source.
    pub(crate) fn into_inner(self) -> S {
        self.inner
    }
}

impl<S: Source> Source for Tape<S> {
    ghost left = { λ t. None };

    ghost faults = { λ t. S.faults t.inner };

    fn next(&mut self) -> Result<Option<u8>, Failed> {
        if self.ended {
            return Ok(None);
        }
        let byte = self.inner.next()?;
        self.ended = byte.is_none();
        Ok(byte)
    }
}
