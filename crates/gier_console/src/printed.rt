// What was printed, kept so that it can be explained.
use std::alloc::Global;
use std::io;
use std::io::Write;

// A list of errors is explained as far as it stands in so many bytes.
const MOST: usize = 1 << 14;

/// A writer that keeps a copy of the first bytes that were written.
#[derive(Drop)]
pub struct Printed<W> {
    inner: W,
    beginning: Vec<u8>,
}

impl<W: Write> Printed<W> {
    /// A writer over this one, with nothing written.
    pub fn new(alloc: Global, inner: W) -> Printed<W> {
        Printed {
            inner,
            beginning: Vec::new(alloc),
        }
    }

    /// The first bytes that were written.
    pub fn beginning(&self) -> &[u8] {
        self.beginning.as_slice()
    }

    // Keeps what there is room and memory for.
    fn note(&mut self, bytes: &[u8]) {
        let room = MOST.saturating_sub(self.beginning.len());
        let _ = self
            .beginning
            .extend_from_slice(&bytes[..bytes.len().min(room)]);
    }
}

impl<W: Write> Write for Printed<W> {
    fn write(&mut self, buf: &[u8]) -> io::Result<usize> {
        let count = self.inner.write(buf)?;
        self.note(&buf[..count]);
        Ok(count)
    }

    fn flush(&mut self) -> io::Result<()> {
        self.inner.flush()
    }
}
