// Values worked out by hand, and that each call succeeds once.
use crate::{Data, InStop, OutStop, in_char, in_integer, out_bytes, out_char, out_integer};
use gier_io::{FailingSource, MemSink, MemSource};
use gier_word::{Alarm, Failed, Int40};
use std::test::Fail;

#[test]
fn the_least_integer_is_read_to_the_end(rt: HostRuntime) -> Result<(), Fail> {
    let mut source = MemSource::of(b"-549755813888".to_vec(rt.alloc())?);
    let mut data = Data::of(&mut source);
    assert!(rt; in_integer(&mut data).map(Int40::get) == Ok(-549_755_813_888));
    assert!(rt; in_char(&mut data).map(Int40::get) == Ok(-1));
    Ok(())
}

#[test]
fn a_letter_alarms_and_is_taken(rt: HostRuntime) -> Result<(), Fail> {
    let mut source = MemSource::of(b"xy".to_vec(rt.alloc())?);
    let mut data = Data::of(&mut source);
    assert!(rt; in_integer(&mut data) == Err(InStop::Alarm(Alarm::Data)));
    assert!(rt; in_char(&mut data).map(Int40::get) == Ok(121));
    Ok(())
}

#[test]
fn a_source_fails_within_a_number(rt: HostRuntime) -> Result<(), Fail> {
    let bytes = b", +42;".to_vec(rt.alloc())?;
    let mut source = FailingSource::of(bytes, [4].to_vec(rt.alloc())?);
    let mut data = Data::of(&mut source);
    assert!(rt; in_integer(&mut data) == Err(InStop::Read));
    assert!(rt; in_integer(&mut data).map(Int40::get) == Ok(2));
    assert!(rt; in_char(&mut data).map(Int40::get) == Ok(-1));
    Ok(())
}

#[test]
fn printing(rt: HostRuntime) -> Result<(), Fail> {
    let mut sink = MemSink::open(rt.alloc(), 8)?;
    let numbers = [Int40::of(-12), Int40::of(65), Int40::of(256), Int40::of(-1)];
    let [Some(twelve), Some(letter), Some(above), Some(below)] = numbers else {
        return Ok(());
    };
    assert!(rt; out_integer(twelve, &mut sink) == Ok(()));
    assert!(rt; out_char(letter, &mut sink) == Ok(()));
    assert!(rt; out_char(above, &mut sink) == Err(OutStop::Alarm(Alarm::Character)));
    assert!(rt; out_char(below, &mut sink) == Err(OutStop::Alarm(Alarm::Character)));
    assert!(rt; out_bytes(b"b\n", &mut sink) == Ok(()));
    assert!(rt; out_integer(twelve, &mut sink) == Err(Failed));
    assert!(rt; sink.bytes() == b"-12Ab\n-1".as_slice());
    Ok(())
}
