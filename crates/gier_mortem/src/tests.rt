// Lines found in a short text that is written down by hand.
ghost use Rattle.std.specs.Prelude.{◌≡◌, ◌≤◌, ◌+◌, IfOk, false};
ghost use Rattle.gier_symbol.specs.Symbols.{IsSymbol};
ghost use Rattle.gier_text.specs.SymbolsOnTracks.{tracks_for};

use crate::{LineStop, Lines};
use gier_drum::{Drum, FailingDrum, ForgetfulDrum, MemDrum};
use gier_symbol::{Symbol, Tag};
use gier_text::{DrumText, Text, Way};
use gier_word::Odd;
use std::process::Abort;
use std::test::Fail;

const SYMBOLS: u32 = 6;

fn append<D: Drum, R: Abort>(rt: &R, text: &mut DrumText<D>, drum: &mut D, s: Symbol)
    requires symbol { IsSymbol s }
    requires writing { text.old.rewound ≡ false }
    requires placed { text.old.first + tracks_for text.old.capacity ≤ D.room drum.old }
    ensures writing { text.new.rewound ≡ false }
    ensures placed { text.new.first + tracks_for text.new.capacity ≤ D.room drum.new }
    ensures room { D.room drum.new ≡ D.room drum.old }
{
    assert!(rt; text.write_next(drum, s).is_ok());
}

// A mark, a word of line 3, a mark, two words of lines 3 and 4, and the number of words.
fn written<R: Abort + AllocGlobal>(rt: &R) -> Result<MemDrum, Fail>
    ensures room { IfOk result (λ drum. 1 ≤ (⟦<MemDrum as Drum>⟧.room drum)) }
{
    let mut drum = MemDrum::open(rt.alloc(), 10)?;
    assert!(rt; drum.make_room(1).is_ok());
    let mut text = DrumText::at(0, SYMBOLS);
    append(rt, &mut text, &mut drum, Symbol::new(Tag::LabelPlace, 0, 2));
    append(rt, &mut text, &mut drum, Symbol::new(Tag::Word, 7, 3));
    append(rt, &mut text, &mut drum, Symbol::new(Tag::LabelPlace, 1, 9));
    append(rt, &mut text, &mut drum, Symbol::new(Tag::Word, 8, 3));
    append(rt, &mut text, &mut drum, Symbol::new(Tag::Word, 9, 4));
    append(
        rt,
        &mut text,
        &mut drum,
        Symbol::new(Tag::ObjectWords, 3, 8),
    );
    assert!(rt; text.rewind(&mut drum, Way::Forward).is_ok());
    Ok(drum)
}

#[test]
fn each_word_has_the_line_of_its_symbol(rt: HostRuntime) -> Result<(), Fail> {
    let mut drum = written(&rt)?;
    let mut lines = Lines::new();
    lines.ask(2);
    lines.ask(0);
    lines.ask(1);
    lines.ask(2);
    assert_eq!(rt; lines.find(0, SYMBOLS, &mut drum), Ok(()));
    let found = [lines.line(0), lines.line(1), lines.line(2), lines.line(3)];
    assert_eq!(rt; found, [4, 3, 3, 4]);
    Ok(())
}

#[test]
fn a_word_behind_the_end_is_odd(rt: HostRuntime) -> Result<(), Fail> {
    let mut drum = written(&rt)?;
    let mut lines = Lines::new();
    lines.ask(3);
    let odd = Odd { place: 6, word: 0 };
    assert_eq!(rt;
        lines.find(0, SYMBOLS, &mut drum),
        Err(LineStop::Spoilt(odd))
    );
    Ok(())
}

#[test]
fn words_that_are_no_code_are_odd(rt: HostRuntime) -> Result<(), Fail> {
    let mut drum = ForgetfulDrum::open(rt.alloc(), 0)?;
    assert!(rt; drum.make_room(1).is_ok());
    let mut lines = Lines::new();
    lines.ask(0);
    let odd = Odd { place: 0, word: 0 };
    assert_eq!(rt; lines.find(0, 1, &mut drum), Err(LineStop::Spoilt(odd)));
    Ok(())
}

#[test]
fn a_failing_drum_is_told(rt: HostRuntime) -> Result<(), Fail> {
    let fails = Vec::from_slice(rt.alloc(), &[1])?;
    let mut drum = FailingDrum::open(rt.alloc(), 0, fails)?;
    assert!(rt; drum.make_room(1).is_ok());
    let mut lines = Lines::new();
    lines.ask(0);
    assert_eq!(rt; lines.find(0, 1, &mut drum), Err(LineStop::Drum));
    Ok(())
}
