// The shortest program from text 6 to the object; the texts and the words are put together by hand.
ghost use Rattle.std.specs.Prelude.{◌≡◌, ◌≤◌, OnOk};

use crate::{BackStop, Object, back};
use gier_drum::{Drum, FailingDrum, ForgetfulDrum, MemDrum};
use gier_limits::{LIMIT, object_track, tracks_for};
use gier_symbol::{Symbol, Tag};
use gier_text::{DrumText, Fronted, Tables, Text, TextStop, Way};
use std::test::Fail;

const FRONTED: Fronted = Fronted {
    area: 0,
    symbols: 7,
    bytes: 11,
    lengths: [3, 3, 7, 7, 7],
};

// Text 6 of `_begin _end` goes to the first area.
fn write_text<D: Drum>(drum: &mut D) -> Result<(), TextStop>
    requires { 1 ≤ D.room drum.old }
    ensures { D.room drum.new ≡ D.room drum.old }
{
    let mut text: DrumText<D> = DrumText::at(0, 20);
    text.write_next(drum, Symbol::new(Tag::OpenMark, 1, 1))?;
    text.write_next(drum, Symbol::new(Tag::OpenMark, 3, 1))?;
    text.write_next(drum, Symbol::new(Tag::Begin, 0, 1))?;
    text.write_next(drum, Symbol::new(Tag::End, 0, 1))?;
    text.write_next(drum, Symbol::new(Tag::ShutMark, 3, 1))?;
    text.write_next(drum, Symbol::new(Tag::ShutMark, 1, 1))?;
    text.write_next(drum, Symbol::new(Tag::TextEnd, 0, 1))?;
    text.rewind(drum, Way::Forward)
}

// START with level 1 and room 3, and STOP.
#[test]
fn an_object_of_two_words(rt: HostRuntime) -> Result<(), Fail> {
    let mut drum = MemDrum::open(rt.alloc(), 0)?;
    drum.make_room(tracks_for(LIMIT))?;
    let mut tables = Tables::open(rt.alloc(), LIMIT)?;
    assert!(rt; write_text(&mut drum).is_ok());
    let object = Object {
        first_track: 1_258_298,
        words: 2,
        start: 0,
        lengths: [3, 3, 7, 7, 7, 7, 4, 2],
    };
    assert_eq!(rt; back(FRONTED, &mut drum, &mut tables), Ok(object));
    let mut track = [9; 40];
    assert!(rt; drum.read(object_track(), &mut track).is_ok());
    assert_eq!(rt; track[0], 4_311_744_515);
    assert_eq!(rt; track[1], 8_589_934_592);
    assert_eq!(rt; track[2], 0);
    Ok(())
}

// The read of text 6 fails; a drum that forgets gives words that are no code.
#[test]
fn devices_are_named(rt: HostRuntime) -> Result<(), Fail> {
    let mut tables = Tables::open(rt.alloc(), LIMIT)?;
    let mut failing = FailingDrum::open(rt.alloc(), 0, Vec::from_slice(rt.alloc(), &[2])?)?;
    failing.make_room(tracks_for(LIMIT))?;
    assert!(rt; write_text(&mut failing).is_ok());
    assert_eq!(rt;
        back(FRONTED, &mut failing, &mut tables),
        Err(BackStop::Drum)
    );
    let mut tables = Tables::open(rt.alloc(), LIMIT)?;
    let mut forgetful = ForgetfulDrum::open(rt.alloc(), 0)?;
    forgetful.make_room(tracks_for(LIMIT))?;
    assert!(rt; write_text(&mut forgetful).is_ok());
    let found = back(FRONTED, &mut forgetful, &mut tables);
    assert!(rt; matches!(found, Err(BackStop::Spoilt(_))));
    Ok(())
}
