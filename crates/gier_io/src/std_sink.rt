// A sink over any writer of std. It tells nothing of bytes as a sink.
ghost use Rattle.std.specs.Prelude.{◌≡◌, ◌<◌, ◌≤◌, None, is_ok, IsOk, if◌then◌else◌, length, take, IfOk, OnOk, OnErr};
ghost use Rattle.std.specs.Io.KnownBytes.{Appends, Keeps};
ghost use Rattle.gier_word.specs.Cause.{HasCause, HasRisen};
ghost use Rattle.gier_io.specs.Adapter.{writer_of, sink_faults, WritesFront, WritesPart};
ghost use Rattle.gier_io.specs.Device.{Puts, PutsPart};
ghost use Rattle.gier_io.specs.Memory.{count_after};

use crate::Sink;
use gier_word::Failed;
use std::io::Write;

/// A writer as a sink. Its count rises at each error of the writer and at each write of 0 bytes, or stands at its
/// last value.
#[derive(Drop)]
pub struct StdSink<W> {
    inner: W,
    failed: u64,
}

impl<W: Write> StdSink<W> {
    /// A sink over this writer.
    pub fn of(inner: W) -> StdSink<W>
        ensures writer { writer_of result ≡ inner }
        ensures faults { sink_faults result ≡ 0 }
    {
        StdSink { inner, failed: 0 }
    }

    /// The writer. One that keeps bytes back is still to be flushed.
    pub fn into_inner(self) -> W
        ensures { result ≡ writer_of self }
    {
        self.inner
    }

    // Counts a fault.
    fn fault(&mut self) -> Failed
        ensures writer { writer_of self.new ≡ writer_of self.old }
        ensures count { sink_faults self.new ≡ count_after (sink_faults self.old) }
        ensures later { sink_faults self.old ≤ sink_faults self.new }
        ensures risen { HasRisen (sink_faults self.old) (sink_faults self.new) }
    {
        self.failed = self.failed.saturating_add(1);
        Failed
    }

    // Writes the first of these bytes, at least one, and gives the rest.
    fn write_some<'a>(&mut self, bytes: &'a [u8]) -> Result<&'a [u8], Failed>
        ensures shorter { IfOk result (λ rest. length rest.now < length bytes.now) }
        ensures written { IfOk result (λ rest.
            WritesFront (W.contents (writer_of self.old)) bytes.now rest.now (W.contents (writer_of self.new))) }
        ensures kept { OnErr result
            (Keeps (W.contents (writer_of self.old)) (W.contents (writer_of self.new))) }
        ensures count { sink_faults self.new ≡
            (if is_ok result then sink_faults self.old else count_after (sink_faults self.old)) }
        ensures cause { HasCause (sink_faults self.old) (sink_faults self.new) result }
    {
        match self.inner.write(bytes) {
            Ok(0) | Err(_) => Err(self.fault()),
            Ok(n) => Ok(&bytes[n..]),
        }
    }
}

impl<W: Write> Sink for StdSink<W> {
    ghost holds = { λ s. None };

    ghost faults = { λ s. sink_faults s };

    fn put(&mut self, bytes: &[u8]) -> Result<(), Failed>
        ensures written { OnOk result
            (Appends (W.contents (writer_of self.old)) (W.contents (writer_of self.new)) bytes.now) }
        ensures begun { OnErr result
            (WritesPart (W.contents (writer_of self.old)) bytes.now (W.contents (writer_of self.new))) }
        ensures empty { length bytes.now ≡ 0 → IsOk result }
        ensures count { sink_faults self.new ≡
            (if is_ok result then sink_faults self.old else count_after (sink_faults self.old)) }
        ensures put { OnOk result (Puts None bytes.now None) }
        ensures part { OnErr result (PutsPart None bytes.now None) }
        ensures cause { HasCause (sink_faults self.old) (sink_faults self.new) result }
    {
        let mut rest = bytes;
        while !rest.is_empty() {
            rest = self.write_some(rest)?;
        }
        Ok(())
    }
}
