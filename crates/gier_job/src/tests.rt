// The top call over devices in memory, the defaults of the words, and what no clause says of the crates below:
// the texts of the refusals, and operations with values worked out by hand. Devices that fail stand in failing.rt, and what the
// drum was asked for in journal.rt.
mod failing;
mod journal;
mod setup;

use crate::{Command, Settings, Status, read_words};
use gier_drum::MemDrum;
use gier_io::{MemSink, MemSource, Source};
use gier_word::{Failed, Int40, NoMemory, Spoil, Word40};
use setup::{answer, words};
use std::test::Fail;

#[test]
fn a_full_printer_holds_what_fits(rt: HostRuntime) -> Result<(), Fail> {
    let text = b"_begin outinteger(549755813887) _end";
    let mut tape = MemSource::of(Vec::from_slice(rt.alloc(), text)?);
    let mut printer = MemSink::open(rt.alloc(), 2)?;
    let mut drum = MemDrum::open(rt.alloc(), 0)?;
    let status = answer(rt.alloc(), &["run"], &mut tape, &mut printer, &mut drum)?;
    assert_eq!(rt; status, Status::Printer);
    assert!(rt; printer.bytes() == b"54".as_slice());
    Ok(())
}

// The sample is checked in place of the tape, of which nothing is taken.
#[test]
fn a_sample_leaves_the_tape_alone(rt: HostRuntime) -> Result<(), Fail> {
    let mut tape = MemSource::of(Vec::from_slice(rt.alloc(), b"rest")?);
    let mut printer = MemSink::open(rt.alloc(), 0)?;
    let mut drum = MemDrum::open(rt.alloc(), 0)?;
    let words = ["check", "sample=2000"];
    let status = answer(rt.alloc(), &words, &mut tape, &mut printer, &mut drum)?;
    assert_eq!(rt; status, Status::Done);
    assert_eq!(rt; tape.next(), Ok(Some(b'r')));
    Ok(())
}

// The byte that is no part of a number is taken, and no other.
#[test]
fn wrong_data_are_taken_up_to_the_wrong_byte(rt: HostRuntime) -> Result<(), Fail> {
    let text = b"_begin outinteger(ininteger) _end#xy";
    let mut tape = MemSource::of(Vec::from_slice(rt.alloc(), text)?);
    let mut printer = MemSink::open(rt.alloc(), 100)?;
    let mut drum = MemDrum::open(rt.alloc(), 0)?;
    let status = answer(rt.alloc(), &["run"], &mut tape, &mut printer, &mut drum)?;
    assert_eq!(rt; status, Status::Alarm);
    assert!(rt; printer.bytes() == b"\n*** alarm data\n".as_slice());
    assert_eq!(rt; tape.next(), Ok(Some(b'y')));
    Ok(())
}

#[test]
fn words_have_their_defaults(rt: HostRuntime) -> Result<(), Fail> {
    let words = words(rt.alloc(), &["run", "sample=10", "steps=0"])?;
    let wanted = Command {
        check: false,
        settings: Settings {
            places: 8,
            steps: 0,
            stack: 20_000,
        },
        report: false,
        table: false,
        sample: Some(10),
        best: false,
        mortem: false,
    };
    assert_eq!(rt; read_words(words.as_slice()), Ok(wanted));
    Ok(())
}

#[test]
fn refusals_have_their_texts(rt: HostRuntime) -> Result<(), Fail> {
    let memory = NoMemory.to_string(rt.alloc())?;
    let device = Failed.to_string(rt.alloc())?;
    assert_eq!(rt; memory.as_str(), "want of memory");
    assert_eq!(rt; device.as_str(), "device fault");
    Ok(())
}

fn number(n: i64) -> Result<Int40, Fail> {
    Ok(Int40::of(n).ok_or("out of range")?)
}

#[test]
fn operations_give_what_the_report_says(rt: HostRuntime) -> Result<(), Fail> {
    let two = number(2)?;
    let minus_seven = number(-7)?;
    let least = number(-549_755_813_888)?;
    assert_eq!(rt; minus_seven.div(two), Ok(number(-3)?));
    assert_eq!(rt; two.pow(number(38)?), Ok(number(274_877_906_944)?));
    assert_eq!(rt; two.pow(number(39)?), Err(Spoil::Spill));
    assert_eq!(rt; least.abs(), Err(Spoil::Spill));
    assert_eq!(rt; minus_seven.word().bits(), 1_099_511_627_769);
    assert_eq!(rt; Word40::of(1_099_511_627_776), None);
    Ok(())
}
