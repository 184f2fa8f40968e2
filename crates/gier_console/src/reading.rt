// The bytes of a tape, from a file and standard input, and the program text that was among them.
ghost use Rattle.std.specs.Io.{ReadsAtMost};

use std::alloc::Global;
use std::io;
use std::io::Read;

/// The byte that ends the program text.
const MARK: u8 = b'#';

/// No program text has more bytes.
const LONGEST_TEXT: usize = 1 << 19;

/// The program text of a tape, as far as it was read and there was memory for it.
#[derive(Drop)]
pub struct ProgramText {
    bytes: Vec<u8>,
    ended: bool,
}

impl ProgramText {
    fn new(alloc: Global) -> ProgramText {
        ProgramText {
            bytes: Vec::new(alloc),
            ended: false,
        }
    }

    /// The bytes, of which none is a mark.
    pub fn bytes(&self) -> &[u8] {
        self.bytes.as_slice()
    }

    // Takes the next bytes of the tape. Where there is no memory for them, the text ends before them.
    fn take(&mut self, bytes: &[u8]) {
        if self.ended {
            return;
        }
        let text = match bytes.iter().position(|byte| *byte == MARK) {
            Some(at) => {
                self.ended = true;
                &bytes[..at]
            }
            None => bytes,
        };
        let room = LONGEST_TEXT.saturating_sub(self.bytes.len());
        let _ = self.bytes.extend_from_slice(&text[..text.len().min(room)]);
    }
}

/// A tape. Its bytes are those of the file, if there is one; where these hold no mark, a mark and those of the input follow.
#[derive(Drop)]
pub struct TapeReader<F, I> {
    file: Option<F>,
    input: I,
    text: ProgramText,
    refusal: Option<io::Error>,
}

impl<F: Read + Drop, I: Read + Drop> TapeReader<F, I> {
    /// The tape of which nothing was read.
    pub fn new(alloc: Global, file: Option<F>, input: I) -> TapeReader<F, I> {
        TapeReader {
            file,
            input,
            text: ProgramText::new(alloc),
            refusal: None,
        }
    }

    /// The program text that was read, and why the file couldn't be read on, if that is so.
    pub fn into_parts(self) -> (ProgramText, Option<io::Error>) {
        (self.text, self.refusal)
    }

    // The next bytes, 0 at the end.
    fn read_some(&mut self, buf: &mut [u8]) -> io::Result<usize>
        ensures { ReadsAtMost result buf.new }
    {
        let Some(file) = &mut self.file else {
            return self.input.read(buf);
        };
        let count = match file.read(buf) {
            Ok(count) => count,
            Err(error) => {
                let kind = error.kind();
                self.refusal = Some(error);
                return Err(io::Error::from(kind));
            }
        };
        if count > 0 || self.text.ended || buf.is_empty() {
            return Ok(count);
        }
        self.file = None;
        buf[0] = MARK;
        Ok(1)
    }
}

impl<F: Read + Drop, I: Read + Drop> Read for TapeReader<F, I> {
    fn read(&mut self, buf: &mut [u8]) -> io::Result<usize> {
        let count = self.read_some(buf)?;
        self.text.take(&buf[..count]);
        Ok(count)
    }
}
