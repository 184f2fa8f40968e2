// Objects of a few words, put together by hand.
ghost use Rattle.gier_symbol.specs.Symbols.{IsSymbol};
ghost use Rattle.std.specs.Prelude.{◌<◌, ◌^◌};

use crate::Pass9;
use gier_drum::{Drum, MemDrum};
use gier_symbol::{Symbol, Tag};
use gier_text::{DrumText, PassStop, Tables, Text, Way};
use gier_word::Odd;
use std::test::Fail;

// Word 5, the mark of label 0, START, a word that is the label, and JUMP to it: the label's address is 1.
#[test]
fn addresses_that_lie_behind(rt: HostRuntime) -> Result<(), Fail> {
    let mut drum = MemDrum::open(rt.alloc(), 0)?;
    drum.make_room(2)?;
    let mut tables = Tables::open(rt.alloc(), 16)?;
    let mut text: DrumText<MemDrum> = DrumText::at(0, 20);
    let jump = Symbol::new(Tag::LabelOrder, 115_964_116_992, 3);
    assert!(rt; text.write_next(&mut drum, jump).is_ok());
    let label = Symbol::new(Tag::LabelWord, 0, 2);
    assert!(rt; text.write_next(&mut drum, label).is_ok());
    let start = Symbol {
        tag: 129,
        value: 16_777_223,
        line: 1,
    };
    assert!(rt; text.write_next(&mut drum, start).is_ok());
    let mark = Symbol::new(Tag::LabelPlace, 0, 1);
    assert!(rt; text.write_next(&mut drum, mark).is_ok());
    let word = Symbol::new(Tag::Word, 5, 1);
    assert!(rt; text.write_next(&mut drum, word).is_ok());
    assert!(rt; text.rewind(&mut drum, Way::Backward).is_ok());
    let found = Pass9::write(&mut text, 1, 4, &mut drum, &mut tables);
    assert_eq!(rt; found, Ok(4));
    let mut track = [9; 40];
    assert!(rt; drum.read(1, &mut track).is_ok());
    assert_eq!(rt; track[0], 5);
    assert_eq!(rt; track[1], 4_311_744_519);
    assert_eq!(rt; track[2], 1);
    assert_eq!(rt; track[3], 115_964_116_993);
    assert_eq!(rt; track[4], 0);
    Ok(())
}

// The second word is one too many; its first word of code is 120 * 2^24 + 8.
#[test]
fn one_word_too_many(rt: HostRuntime) -> Result<(), Fail> {
    let mut drum = MemDrum::open(rt.alloc(), 0)?;
    drum.make_room(2)?;
    let mut tables = Tables::open(rt.alloc(), 16)?;
    let mut text: DrumText<MemDrum> = DrumText::at(0, 20);
    assert!(rt;
        text.write_next(&mut drum, Symbol::new(Tag::Word, 6, 8))
            .is_ok()
    );
    assert!(rt;
        text.write_next(&mut drum, Symbol::new(Tag::Word, 5, 7))
            .is_ok()
    );
    assert!(rt; text.rewind(&mut drum, Way::Backward).is_ok());
    let odd = Odd {
        place: 1,
        word: 2_013_265_928,
    };
    let found = Pass9::write(&mut text, 1, 1, &mut drum, &mut tables);
    assert_eq!(rt; found, Err(PassStop::Spoilt(odd)));
    Ok(())
}

#[test]
fn no_word_at_all(rt: HostRuntime) -> Result<(), Fail> {
    let mut drum = MemDrum::open(rt.alloc(), 0)?;
    drum.make_room(2)?;
    let mut tables = Tables::open(rt.alloc(), 16)?;
    let mut text: DrumText<MemDrum> = DrumText::at(0, 20);
    assert!(rt; text.rewind(&mut drum, Way::Backward).is_ok());
    let odd = Odd { place: 0, word: 0 };
    let found = Pass9::write(&mut text, 1, 40, &mut drum, &mut tables);
    assert_eq!(rt; found, Err(PassStop::Spoilt(odd)));
    Ok(())
}
