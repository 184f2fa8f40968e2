// What no clause says: that the calls succeed, and what the adapters make of a reader and a writer that fail.

use crate::{
    Failed, FailingSink, FailingSource, MemSink, MemSource, Sink, Source, StdSink, StdSource,
};
use std::io::{self, ErrorKind, Read, Write};
use std::test::Fail;

#[test]
fn sink_keeps_what_fits(rt: HostRuntime) -> Result<(), Fail> {
    let mut sink = MemSink::open(rt.alloc(), 2)?;
    assert_eq!(rt; sink.put(b"ab"), Ok(()));
    assert_eq!(rt; sink.put(b"c"), Err(Failed));
    assert_eq!(rt; sink.bytes(), b"ab".as_slice());
    let mut sink = MemSink::open(rt.alloc(), 4)?;
    assert_eq!(rt; sink.put(b"abc"), Ok(()));
    assert_eq!(rt; sink.put(b"def"), Err(Failed));
    assert_eq!(rt; sink.bytes(), b"abcd".as_slice());
    Ok(())
}

#[test]
fn failing_sink_refuses_the_first_put(rt: HostRuntime) -> Result<(), Fail> {
    let mut sink = FailingSink::open(rt.alloc(), 9, [0].to_vec(rt.alloc())?)?;
    assert_eq!(rt; sink.put(b"ab"), Err(Failed));
    assert_eq!(rt; sink.put(b"cd"), Ok(()));
    assert_eq!(rt; sink.bytes(), b"cd".as_slice());
    Ok(())
}

#[test]
fn sources_give_their_bytes(rt: HostRuntime) -> Result<(), Fail> {
    let mut source = MemSource::of(b"a".to_vec(rt.alloc())?);
    assert_eq!(rt; source.next(), Ok(Some(b'a')));
    assert_eq!(rt; source.next(), Ok(None));
    let mut source = FailingSource::of(b"ab".to_vec(rt.alloc())?, [1, 3].to_vec(rt.alloc())?);
    assert_eq!(rt; source.next(), Ok(Some(b'a')));
    assert_eq!(rt; source.next(), Err(Failed));
    assert_eq!(rt; source.next(), Ok(Some(b'b')));
    assert_eq!(rt; source.next(), Err(Failed));
    assert_eq!(rt; source.next(), Ok(None));
    Ok(())
}

// A reader that gives `x` at its first call, fails at its second, gives `y` at its third, and then ends.
#[derive(Drop)]
struct Stumbling {
    calls: u8,
}

impl Read for Stumbling {
    fn read(&mut self, buf: &mut [u8]) -> io::Result<usize> {
        if buf.is_empty() {
            return Ok(0);
        }
        self.calls = self.calls.saturating_add(1);
        match self.calls {
            1 => buf[0] = b'x',
            2 => return Err(ErrorKind::ConnectionReset.into()),
            3 => buf[0] = b'y',
            _ => return Ok(0),
        }
        Ok(1)
    }
}

#[test]
fn reader_that_fails_in_mid_stream(rt: HostRuntime) {
    let mut source = StdSource::of(Stumbling { calls: 0 });
    assert_eq!(rt; source.next(), Ok(Some(b'x')));
    assert_eq!(rt; source.next(), Err(Failed));
    assert_eq!(rt; source.next(), Ok(Some(b'y')));
    assert_eq!(rt; source.next(), Ok(None));
    assert_eq!(rt; source.into_inner().calls, 4);
}

// A writer that takes two bytes a call, but none at the third call, and fails at the sixth.
#[derive(Drop)]
struct Sluggish {
    taken: Vec<u8>,
    calls: u8,
}

impl Write for Sluggish {
    fn write(&mut self, buf: &[u8]) -> io::Result<usize> {
        self.calls = self.calls.saturating_add(1);
        match self.calls {
            3 => return Ok(0),
            6 => return Err(ErrorKind::BrokenPipe.into()),
            _ => (),
        }
        let n = buf.len().min(2);
        self.taken.extend_from_slice(&buf[..n])?;
        Ok(n)
    }

    fn flush(&mut self) -> io::Result<()> {
        Ok(())
    }
}

#[test]
fn writer_that_fails_in_mid_stream(rt: HostRuntime) {
    let mut sink = StdSink::of(Sluggish {
        taken: Vec::new(rt.alloc()),
        calls: 0,
    });
    assert_eq!(rt; sink.put(b"abcde"), Err(Failed));
    assert_eq!(rt; sink.put(b"fgh"), Ok(()));
    assert_eq!(rt; sink.put(b"ij"), Err(Failed));
    assert_eq!(rt; sink.put(b""), Ok(()));
    assert_eq!(rt; sink.put(b"k"), Ok(()));
    let writer = sink.into_inner();
    assert_eq!(rt; writer.taken.as_slice(), b"abcdfghk".as_slice());
}
