// Texts in memory and on a drum, and tables, each on its happy path and at its limit.
ghost use Rattle.gier_symbol.specs.Symbols.{IsSymbol};

use crate::{DrumText, ListText, Tables, Text, TextStop, Way};
use gier_drum::{Drum, Entry, MemDrum};
use gier_symbol::{Symbol, Tag};
use std::test::Fail;

fn letter(byte: u8) -> Symbol
    ensures { IsSymbol result }
{
    Symbol::new(Tag::Letter, u64::from(byte), 1)
}

#[test]
fn list_forward(rt: HostRuntime) -> Result<(), Fail> {
    let mut text = ListText::open(rt.alloc());
    assert!(rt; text.write_next(&mut (), letter(b'a')).is_ok());
    assert!(rt; text.write_next(&mut (), letter(b'b')).is_ok());
    assert!(rt; text.write_next(&mut (), letter(b'c')).is_ok());
    assert!(rt; text.rewind(&mut (), Way::Forward).is_ok());
    assert_eq!(rt; text.read_next(&mut ()), Ok(Some(letter(b'a'))));
    assert_eq!(rt; text.read_next(&mut ()), Ok(Some(letter(b'b'))));
    assert_eq!(rt; text.read_next(&mut ()), Ok(Some(letter(b'c'))));
    assert_eq!(rt; text.read_next(&mut ()), Ok(None));
    Ok(())
}

#[test]
fn list_backward(rt: HostRuntime) -> Result<(), Fail> {
    let mut text = ListText::open(rt.alloc());
    assert!(rt; text.write_next(&mut (), letter(b'a')).is_ok());
    assert!(rt; text.write_next(&mut (), letter(b'b')).is_ok());
    assert!(rt; text.write_next(&mut (), letter(b'c')).is_ok());
    assert!(rt; text.rewind(&mut (), Way::Backward).is_ok());
    assert_eq!(rt; text.read_next(&mut ()), Ok(Some(letter(b'c'))));
    assert_eq!(rt; text.read_next(&mut ()), Ok(Some(letter(b'b'))));
    assert_eq!(rt; text.read_next(&mut ()), Ok(Some(letter(b'a'))));
    assert_eq!(rt; text.read_next(&mut ()), Ok(None));
    Ok(())
}

#[test]
fn drum_text_and_its_journal(rt: HostRuntime) -> Result<(), Fail> {
    let mut drum = MemDrum::open(rt.alloc(), 9)?;
    assert!(rt; drum.make_room(8).is_ok());
    let mut text: DrumText<MemDrum> = DrumText::at(3, 2);
    assert!(rt; text.write_next(&mut drum, letter(b'a')).is_ok());
    assert!(rt; text.rewind(&mut drum, Way::Backward).is_ok());
    assert_eq!(rt; text.read_next(&mut drum), Ok(Some(letter(b'a'))));
    assert_eq!(rt;
        drum.journal(),
        [Entry::Write(3), Entry::Read(3)].as_slice()
    );
    Ok(())
}

#[test]
fn third_symbol_is_too_many(rt: HostRuntime) -> Result<(), Fail> {
    let mut drum = MemDrum::open(rt.alloc(), 9)?;
    assert!(rt; drum.make_room(8).is_ok());
    let mut text: DrumText<MemDrum> = DrumText::at(3, 2);
    assert!(rt; text.write_next(&mut drum, letter(b'a')).is_ok());
    assert!(rt; text.write_next(&mut drum, letter(b'b')).is_ok());
    assert_eq!(rt;
        text.write_next(&mut drum, letter(b'c')),
        Err(TextStop::Full)
    );
    Ok(())
}

#[test]
fn new_tables_hold_no_faults(rt: HostRuntime) -> Result<(), Fail> {
    let tables = Tables::open(rt.alloc(), 16)?;
    assert_eq!(rt; tables.faults(), 0);
    Ok(())
}
