// Devices that fail once: what is out is a beginning of the answer, and the status is that device's.
use super::setup::{SQUARES, SQUARES_PRINTED, answer};
use crate::Status;
use gier_drum::{ForgetfulDrum, MemDrum};
use gier_io::{FailingSink, FailingSource, MemSink, MemSource};
use std::process::Abort;
use std::test::Fail;

// Each test tries at most so many failures.
const CASES: u64 = 20;

// The number of the first byte of the data of the squares, and how many bytes there are.
const SQUARES_DATA: u64 = 757;

const SQUARES_BYTES: u64 = 771;

fn read_fails_at<R: Abort + AllocGlobal>(rt: &R, read: u64) -> Result<(), Fail> {
    let text = Vec::from_slice(rt.alloc(), SQUARES)?;
    let mut tape = FailingSource::of(text, Vec::from_slice(rt.alloc(), &[read])?);
    let mut printer = MemSink::open(rt.alloc(), 100)?;
    let mut drum = MemDrum::open(rt.alloc(), 0)?;
    let status = answer(rt.alloc(), &["run"], &mut tape, &mut printer, &mut drum)?;
    assert_eq!(rt; status, Status::Tape);
    assert!(rt; SQUARES_PRINTED.starts_with(printer.bytes()));
    Ok(())
}

#[test]
fn reads_of_the_program_fail(rt: HostRuntime) -> Result<(), Fail> {
    for case in 0..CASES {
        if case * 50 < SQUARES_DATA {
            read_fails_at(&rt, case * 50)?;
        }
    }
    Ok(())
}

#[test]
fn reads_of_the_data_fail(rt: HostRuntime) -> Result<(), Fail> {
    for read in SQUARES_DATA..SQUARES_BYTES {
        read_fails_at(&rt, read)?;
    }
    Ok(())
}

fn put_fails_at<R: Abort + AllocGlobal>(rt: &R, put: u64) -> Result<Status, Fail> {
    let mut tape = MemSource::of(Vec::from_slice(rt.alloc(), SQUARES)?);
    let fails = Vec::from_slice(rt.alloc(), &[put])?;
    let mut printer = FailingSink::open(rt.alloc(), 100, fails)?;
    let mut drum = MemDrum::open(rt.alloc(), 0)?;
    let status = answer(rt.alloc(), &["run"], &mut tape, &mut printer, &mut drum)?;
    assert!(rt; SQUARES_PRINTED.starts_with(printer.bytes()));
    Ok(status)
}

// The squares are printed in 22 puts: four lines of four pieces, and six at the end, since a string comes in pieces of five bytes.
#[test]
fn each_put_fails(rt: HostRuntime) -> Result<(), Fail> {
    for put in 0..CASES {
        assert_eq!(rt; put_fails_at(&rt, put)?, Status::Printer);
    }
    Ok(())
}

#[test]
fn the_last_puts_fail(rt: HostRuntime) -> Result<(), Fail> {
    assert_eq!(rt; put_fails_at(&rt, CASES)?, Status::Printer);
    assert_eq!(rt; put_fails_at(&rt, CASES + 1)?, Status::Printer);
    assert_eq!(rt; put_fails_at(&rt, CASES + 2)?, Status::Done);
    Ok(())
}

#[test]
fn the_first_read_of_the_tape_fails(rt: HostRuntime) -> Result<(), Fail> {
    let text = Vec::from_slice(rt.alloc(), b"_begin outcr _end")?;
    let mut tape = FailingSource::of(text, Vec::from_slice(rt.alloc(), &[0])?);
    let mut printer = MemSink::open(rt.alloc(), 100)?;
    let mut drum = MemDrum::open(rt.alloc(), 0)?;
    let status = answer(rt.alloc(), &["run"], &mut tape, &mut printer, &mut drum)?;
    assert_eq!(rt; status, Status::Tape);
    assert!(rt; printer.bytes().is_empty());
    Ok(())
}

// A drum that forgets is found out, as long as anything is read from it after that.
fn forgets_from<R: Abort + AllocGlobal>(rt: &R, read: u64) -> Result<Status, Fail> {
    let mut tape = MemSource::of(Vec::from_slice(rt.alloc(), b"_begin _end#")?);
    let mut printer = MemSink::open(rt.alloc(), 100)?;
    let mut drum = ForgetfulDrum::open(rt.alloc(), read)?;
    let status = answer(rt.alloc(), &["run"], &mut tape, &mut printer, &mut drum)?;
    assert!(rt; printer.bytes().is_empty());
    Ok(status)
}

#[test]
fn a_forgetful_drum_is_found_out(rt: HostRuntime) -> Result<(), Fail> {
    assert!(rt; matches!(forgets_from(&rt, 0)?, Status::Spoilt(_)));
    assert!(rt; matches!(forgets_from(&rt, 8)?, Status::Spoilt(_)));
    assert_eq!(rt; forgets_from(&rt, 9)?, Status::Done);
    Ok(())
}
