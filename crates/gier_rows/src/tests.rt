// Rows of words that were coded by hand.
ghost use Rattle.std.specs.Prelude.{◌≡◌, ◌≤◌};
ghost use Rattle.gier_limits.specs.Areas.{longest, all_tracks};

use crate::{ListStop, Row, Shown, put_listing};
use gier_drum::{Drum, MemDrum};
use gier_io::MemSink;
use gier_limits::{LIMIT, first_track, object_track, tracks_for};
use gier_order::{Object, Order};
use gier_symbol::{Symbol, Tag};
use gier_text::{DrumText, Text, TextStop, Way};
use gier_word::Odd;
use std::test::Fail;

const START: u64 = 4_311_744_515;

#[test]
fn an_order_is_decoded(rt: HostRuntime) {
    let row = Row::of(83, START, Symbol::new(Tag::OpenRoom, 0, 7));
    let order = Order {
        op: 1,
        level: 1,
        address: 3,
    };
    let wanted = Row {
        address: 83,
        track: 2,
        place: 3,
        shown: Shown::Decoded(order),
        line: 7,
    };
    assert_eq!(rt; row, wanted);
}

#[test]
fn data_are_shown_as_they_are(rt: HostRuntime) {
    let row = Row::of(0, START, Symbol::new(Tag::Word, START, 1));
    assert_eq!(rt; row.shown, Shown::Bare(START));
}

// The text of two words, with a label before the second one.
fn write_text<D: Drum>(drum: &mut D) -> Result<(), TextStop>
    requires { all_tracks longest ≤ D.room drum.old }
    ensures { D.room drum.new ≡ D.room drum.old }
{
    let mut text: DrumText<D> = DrumText::at(first_track(7), 20);
    text.write_next(drum, Symbol::new(Tag::OpenRoom, 0, 1))?;
    text.write_next(drum, Symbol::new(Tag::LabelPlace, 0, 2))?;
    text.write_next(drum, Symbol::new(Tag::Word, START, 2))?;
    text.write_next(drum, Symbol::new(Tag::ObjectWords, 2, 2))?;
    text.rewind(drum, Way::Forward)
}

const ROWS: &[u8] =
    b"  0  START 1, 3   line 1    track 0 word 0\n  1: word 4311744515 line 2 track 0 word 1\n";

#[test]
fn a_listing_has_a_row_for_each_word(rt: HostRuntime) -> Result<(), Fail> {
    let mut drum = MemDrum::open(rt.alloc(), 0)?;
    drum.make_room(tracks_for(LIMIT))?;
    assert!(rt; write_text(&mut drum).is_ok());
    assert!(rt; drum.write(object_track(), &[START; 40]).is_ok());
    let mut object = Object {
        first_track: object_track(),
        words: 2,
        start: 0,
        lengths: [0, 0, 0, 0, 0, 0, 4, 0],
    };
    let mut out = MemSink::open(rt.alloc(), 200)?;
    assert_eq!(rt; put_listing(&object, &mut out, &mut drum), Ok(()));
    assert!(rt; out.bytes() == ROWS);
    object.words = 1;
    let odd = Odd { place: 1, word: 0 };
    assert_eq!(rt;
        put_listing(&object, &mut out, &mut drum),
        Err(ListStop::Spoilt(odd))
    );
    let mut full = MemSink::open(rt.alloc(), 50)?;
    object.words = 2;
    assert_eq!(rt;
        put_listing(&object, &mut full, &mut drum),
        Err(ListStop::Printer)
    );
    Ok(())
}
