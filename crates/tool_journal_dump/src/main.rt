// Prints what the drum was asked for, so that it can be compared with a model of the compiler: the words and the tape are those of
// `gier`, and in place of the answer each read and write of a track that succeeded is printed, as `R 12` or `W 12` on a line of its
// own. It isn't needed to run a program.
#![tactic(auto)]

use gier_drum::{Entry, MemDrum};
use gier_io::{MemSink, StdSource};
use gier_job::gier;
use gier_shell::read_arguments;
use std::io;
use std::io::{BufReader, BufWriter, Write};

// The first word stands behind the program's name.
const FIRST_WORD: usize = 1;

// As many reads and writes are noted, and so many bytes may be printed.
const ENTRIES: usize = 1_000_000;

const PRINTED: usize = 1_000_000;

fn main(rt: HostRuntime) -> io::Result<()> {
    let alloc = rt.alloc();
    let words = read_arguments(&rt, alloc, FIRST_WORD)?;
    let mut tape = StdSource::of(BufReader::new(alloc, rt.reader())?);
    let (Ok(mut printer), Ok(mut drum)) = (
        MemSink::open(alloc, PRINTED),
        MemDrum::open(alloc, ENTRIES),
    ) else {
        return Err(io::Error::from(io::ErrorKind::OutOfMemory));
    };
    gier(alloc, words.as_slice(), &mut tape, &mut printer, &mut drum);
    let mut out = BufWriter::new(alloc, io::writer(&rt))?;
    for entry in drum.journal() {
        match entry {
            Entry::Read(track) => writeln!(out, "R {track}")?,
            Entry::Write(track) => writeln!(out, "W {track}")?,
        }
    }
    out.flush()
}
