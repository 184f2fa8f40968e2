// The front over drums in memory: how the drum is divided, the journal that it leaves, and the refusals of devices.
use crate::{FrontStop, LIMIT, first_track, front, print_errors, tracks_for};
use gier_drum::{Drum, Entry, FailingDrum, ForgetfulDrum, MemDrum};
use gier_io::{FailingSource, MemSink, MemSource};
use gier_text::Tables;
use std::alloc::{AllocError, Global};
use std::test::Fail;

// The first tracks of the two areas.
const EVEN: u32 = 0;

const ODD: u32 = 629_149;

// A program of so many calls of `outcr`.
fn lines(alloc: Global, calls: u32) -> Result<Vec<u8>, AllocError> {
    let mut text = Vec::from_slice(alloc, b"_begin ")?;
    for _ in 0..calls {
        text.extend_from_slice(b"outcr; ")?;
    }
    text.extend_from_slice(b"_end")?;
    Ok(text)
}

#[test]
fn areas_of_the_longest_program(rt: HostRuntime) -> Result<(), Fail> {
    assert_eq!(rt; tracks_for(524_288), 1_468_015);
    assert_eq!(rt; first_track(1), ODD);
    assert_eq!(rt; first_track(2), EVEN);
    Ok(())
}

#[test]
fn small_program_leaves_each_track_once(rt: HostRuntime) -> Result<(), Fail> {
    let mut drum = MemDrum::open(rt.alloc(), 100)?;
    drum.make_room(tracks_for(LIMIT))?;
    let mut tables = Tables::open(rt.alloc(), LIMIT)?;
    let mut tape = MemSource::of(lines(rt.alloc(), 0)?);
    let fronted = front(&mut tape, &mut drum, &mut tables)?;
    assert_eq!(rt; fronted.area, 0);
    assert_eq!(rt; fronted.bytes, 11);
    assert_eq!(rt; fronted.lengths, [3, 3, 7, 7, 7]);
    assert_eq!(rt; fronted.symbols, 7);
    let wanted = [
        Entry::Write(ODD),
        Entry::Read(ODD),
        Entry::Write(EVEN),
        Entry::Read(EVEN),
        Entry::Write(ODD),
        Entry::Read(ODD),
        Entry::Write(EVEN),
        Entry::Read(EVEN),
        Entry::Write(ODD),
        Entry::Read(ODD),
        Entry::Write(EVEN),
    ];
    assert!(rt; drum.journal() == wanted.as_slice());
    Ok(())
}

// Where each text begins to be written, and where its last track is read; texts 1 to 6 stand at 1 to 6.
#[derive(Drop)]
struct Order {
    begun: [usize; 9],
    read: [usize; 9],
}

fn order_of(journal: &[Entry]) -> Order {
    let mut order = Order {
        begun: [0; 9],
        read: [0; 9],
    };
    let mut odd = 0usize;
    let mut even = 0usize;
    for (at, entry) in journal.iter().enumerate() {
        match entry {
            Entry::Write(ODD) => {
                odd = odd.saturating_add(1);
                note(
                    &mut order.begun,
                    odd.saturating_mul(2).saturating_sub(1),
                    at,
                );
            }
            Entry::Write(EVEN) => {
                even = even.saturating_add(1);
                note(&mut order.begun, even.saturating_mul(2), at);
            }
            Entry::Write(_) => {}
            Entry::Read(track) if *track >= ODD => {
                note(&mut order.read, odd.saturating_mul(2).saturating_sub(1), at);
            }
            Entry::Read(_) => note(&mut order.read, even.saturating_mul(2), at),
        }
    }
    order
}

fn note(places: &mut [usize; 9], text: usize, at: usize) {
    if let Some(place) = places.get_mut(text) {
        *place = at;
    }
}

// A pass that read its whole text before it wrote a symbol would begin to write behind the last read.
#[test]
fn a_pass_writes_while_it_reads(rt: HostRuntime) -> Result<(), Fail> {
    let mut drum = MemDrum::open(rt.alloc(), 100_000)?;
    drum.make_room(tracks_for(LIMIT))?;
    let mut tables = Tables::open(rt.alloc(), LIMIT)?;
    let mut tape = MemSource::of(lines(rt.alloc(), 5000)?);
    assert!(rt; front(&mut tape, &mut drum, &mut tables).is_ok());
    let order = order_of(drum.journal());
    for text in 2..7usize {
        let begun = order.begun.get(text).copied().unwrap_or(0);
        let read = order.read.get(text - 1).copied().unwrap_or(0);
        assert!(rt; 0 < begun && begun < read);
    }
    Ok(())
}

#[test]
fn the_first_list_of_errors_is_printed(rt: HostRuntime) -> Result<(), Fail> {
    let mut drum = MemDrum::open(rt.alloc(), 0)?;
    drum.make_room(tracks_for(LIMIT))?;
    let mut tables = Tables::open(rt.alloc(), LIMIT)?;
    let text = Vec::from_slice(
        rt.alloc(),
        b"_begin _integer a, b, a;\nc := b;\nd := c\n_end",
    )?;
    let found = front(&mut MemSource::of(text), &mut drum, &mut tables);
    assert_eq!(rt; found, Err(FrontStop::Errors));
    let mut printer = MemSink::open(rt.alloc(), 200)?;
    assert!(rt; print_errors(&tables, &mut printer).is_ok());
    let wanted =
        b"line 1 declared twice\nline 2 not declared\nline 3 not declared\nline 3 not declared\n";
    assert!(rt; printer.bytes() == wanted.as_slice());
    Ok(())
}

// The first read of the drum fails; a drum that forgets is found out at the first symbol.
#[test]
fn devices_are_named(rt: HostRuntime) -> Result<(), Fail> {
    let mut tables = Tables::open(rt.alloc(), LIMIT)?;
    let mut failing = FailingDrum::open(rt.alloc(), 0, Vec::from_slice(rt.alloc(), &[2])?)?;
    failing.make_room(tracks_for(LIMIT))?;
    let mut tape = MemSource::of(lines(rt.alloc(), 0)?);
    assert_eq!(rt;
        front(&mut tape, &mut failing, &mut tables),
        Err(FrontStop::Drum)
    );
    let mut tables = Tables::open(rt.alloc(), LIMIT)?;
    let mut forgetful = ForgetfulDrum::open(rt.alloc(), 0)?;
    forgetful.make_room(tracks_for(LIMIT))?;
    let mut tape = MemSource::of(lines(rt.alloc(), 0)?);
    assert!(rt;
        matches!(
            front(&mut tape, &mut forgetful, &mut tables),
            Err(FrontStop::Spoilt(_))
        )
    );
    let mut tables = Tables::open(rt.alloc(), LIMIT)?;
    let mut tape = FailingSource::of(lines(rt.alloc(), 0)?, Vec::from_slice(rt.alloc(), &[3])?);
    assert_eq!(rt;
        front(&mut tape, &mut forgetful, &mut tables),
        Err(FrontStop::Read)
    );
    Ok(())
}
