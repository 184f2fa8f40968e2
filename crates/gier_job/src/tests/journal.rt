// What the drum is asked for: each text is written and read once, while the next one is written.
use super::setup::answer;
use crate::Status;
use gier_drum::{Entry, MemDrum};
use gier_io::{MemSink, MemSource};
use std::test::Fail;

// The first tracks of the second area and of the object.
const SECOND_AREA: u32 = 629_149;

const OBJECT: u32 = 1_258_298;

// The journal over the smallest program: a text has one track, and so has the object.
#[test]
fn each_track_is_written_once_and_read_once(rt: HostRuntime) -> Result<(), Fail> {
    let mut tape = MemSource::of(Vec::from_slice(rt.alloc(), b"_begin _end#")?);
    let mut printer = MemSink::open(rt.alloc(), 100)?;
    let mut drum = MemDrum::open(rt.alloc(), 100)?;
    let status = answer(rt.alloc(), &["run"], &mut tape, &mut printer, &mut drum)?;
    assert_eq!(rt; status, Status::Done);
    let two_texts = [
        Entry::Write(SECOND_AREA),
        Entry::Read(SECOND_AREA),
        Entry::Write(0),
        Entry::Read(0),
    ];
    let journal = drum.journal();
    assert_eq!(rt; journal.len(), 18);
    for (at, entry) in journal.iter().take(16).enumerate() {
        assert_eq!(rt; *entry, two_texts[at % 4]);
    }
    assert_eq!(rt; journal[16], Entry::Write(OBJECT));
    assert_eq!(rt; journal[17], Entry::Read(OBJECT));
    Ok(())
}

fn is_in_area(track: u32, text: u32) -> bool {
    if text % 2 == 1 {
        (SECOND_AREA..OBJECT).contains(&track)
    } else {
        track < SECOND_AREA
    }
}

// Where, from an entry on, a track is written first.
fn first_write(journal: &[Entry], from: usize, track: u32) -> Option<usize> {
    for at in from..journal.len() {
        if journal[at] == Entry::Write(track) {
            return Some(at);
        }
    }
    None
}

// Where, before an entry, a track of a text's area is read last.
fn last_read(journal: &[Entry], until: usize, text: u32) -> Option<usize> {
    let mut last = None;
    for (at, entry) in journal.iter().enumerate().take(until) {
        if let Entry::Read(track) = entry
            && is_in_area(*track, text)
        {
            last = Some(at);
        }
    }
    last
}

fn first_track_of(text: u32) -> u32 {
    if text % 2 == 1 { SECOND_AREA } else { 0 }
}

// A pass writes while it reads: the first track of a text, or of the object, is written before the last one of the text before
// it is read.
#[test]
fn passes_write_while_they_read(rt: HostRuntime) -> Result<(), Fail> {
    let mut text = Vec::from_slice(rt.alloc(), b"_begin ")?;
    for _ in 0..5000 {
        text.extend_from_slice(b"outcr; ")?;
    }
    text.extend_from_slice(b"_end")?;
    let mut tape = MemSource::of(text);
    let mut printer = MemSink::open(rt.alloc(), 5000)?;
    let mut drum = MemDrum::open(rt.alloc(), 100_000)?;
    let status = answer(rt.alloc(), &["run"], &mut tape, &mut printer, &mut drum)?;
    assert_eq!(rt; status, Status::Done);
    let journal = drum.journal();
    let mut begins = 0;
    for text in 2..9 {
        let Some(begun) = first_write(journal, begins, first_track_of(text)) else {
            return Err("each text is written".into());
        };
        let next = match text {
            8 => first_write(journal, begun, OBJECT),
            _ => first_write(journal, begun, first_track_of(text + 1)),
        };
        let Some(next) = next else {
            return Err("and so is the next".into());
        };
        let Some(read) = last_read(journal, next, text - 1) else {
            return Err("the text before is read".into());
        };
        assert!(rt; begun < read);
        begins = begun + 1;
    }
    let object = first_write(journal, begins, OBJECT);
    let read = last_read(journal, journal.len(), 8);
    assert!(rt; object.is_some() && object < read);
    Ok(())
}
