// What no clause says: that opening succeeds, and what a file holds.
ghost use Rattle.std.specs.Prelude.{◌<◌, ◌^◌, All};

use crate::{Drum, Entry, FailingDrum, FileDrum, ForgetfulDrum, MemDrum, RoomFault};
use std::fs;
use std::fs::File;
use std::test::Fail;

// The words of track 1 of a drum that gets two tracks.
fn second_track<D: Drum>(drum: &mut D) -> Result<[u64; 40], RoomFault> {
    drum.make_room(2)?;
    let mut words = [1; 40];
    drum.read(1, &mut words)?;
    Ok(words)
}

#[test]
fn a_new_track_has_zeros(rt: HostRuntime) -> Result<(), Fail> {
    let mut drum = MemDrum::open(rt.alloc(), 0)?;
    assert_eq!(rt; second_track(&mut drum)?, [0; 40]);
    let mut forgetful = ForgetfulDrum::open(rt.alloc(), 1)?;
    assert_eq!(rt; second_track(&mut forgetful)?, [0; 40]);
    Ok(())
}

#[test]
fn a_listed_call_fails(rt: HostRuntime) -> Result<(), Fail> {
    let fails = vec![in rt.alloc(); 1u64]?;
    let mut drum = FailingDrum::open(rt.alloc(), 0, fails)?;
    assert_eq!(rt; second_track(&mut drum), Err(RoomFault::Failed));
    assert_eq!(rt; drum.calls(), 2);
    Ok(())
}

#[test]
fn a_journal_fills_up(rt: HostRuntime) -> Result<(), Fail> {
    let mut drum = MemDrum::open(rt.alloc(), 1)?;
    assert_eq!(rt; second_track(&mut drum)?, [0; 40]);
    assert_eq!(rt; second_track(&mut drum), Err(RoomFault::Failed));
    assert_eq!(rt; drum.journal(), [Entry::Read(1)].as_slice());
    Ok(())
}

#[test]
fn without_a_file_there_is_no_room(rt: HostRuntime) {
    let mut drum = FileDrum::of(None);
    assert_eq!(rt; drum.make_room(1), Err(RoomFault::Failed));
}

fn sample() -> [u64; 40]
    ensures { All (λ word. word < 2 ^ 40) result }
{
    let mut words = [0; 40];
    words[0] = 0x01_0203_0405;
    words[39] = 0xff_ffff_ffff;
    words
}

fn written_and_read<D: Drum>(drum: &mut D) -> Result<[u64; 40], RoomFault> {
    drum.make_room(2)?;
    drum.write(1, &sample())?;
    let mut words = [1; 40];
    drum.read(1, &mut words)?;
    Ok(words)
}

#[test]
fn a_file_holds_words_least_byte_first(rt: HostRuntime) -> Result<(), Fail> {
    let path = "drum-of-a-test";
    let file = File::options()
        .read(true)
        .write(true)
        .create(true)
        .truncate(true)
        .open(&rt, path)?;
    let mut drum = FileDrum::of(Some(file));
    assert_eq!(rt; written_and_read(&mut drum)?, sample());
    let bytes = fs::read(&rt, path)?;
    fs::remove_file(&rt, path)?;
    assert_eq!(rt; bytes.len(), 640);
    assert_eq!(rt; bytes[320], 5);
    assert_eq!(rt; bytes[324], 1);
    assert_eq!(rt; bytes[639], 0);
    Ok(())
}
