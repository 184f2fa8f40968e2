// A drum in a file, each word as 8 bytes, least significant first. It tells neither tracks nor journal.
ghost use Rattle.std.specs.Prelude.{◌≡◌, ◌<◌, ◌≤◌, ◌^◌, ◌*◌, ◌+◌, None, OnOk, OnErr, IsOk, IsErr, IsSome, IsNone, IfErr, All};
ghost use Rattle.std.specs.Prelude.{length, max};
ghost use Rattle.gier_drum.specs.declared.drum.RoomFault.TheVariants.{Failed as DrumFailed};

use crate::file_words::{decode, encode};
use crate::{Drum, RoomFault};
use gier_word::Failed;
use std::fs::File;
use std::io;
use std::os::unix::fs::FileExt;

// How many bytes a track takes.
const TRACK_BYTES: usize = 320;

/// A drum in a file.
#[derive(Drop)]
pub struct FileDrum {
    file: Option<File>,
    room: u32,
    failed: u64,
    ghost bounded: { room < 2 ^ 32 },
}

impl FileDrum {
    ghost use Rattle.gier_drum.specs.FileDrum.{room_of, failed_of, file_of};

    /// A drum without a track. Without a file each `make_room` is a counted fault.
    pub fn of(file: Option<File>) -> FileDrum
        ensures file { file_of result ≡ file }
        ensures room { room_of result ≡ 0 }
        ensures count { failed_of result ≡ 0 }
    {
        FileDrum {
            file,
            room: 0,
            failed: 0,
        }
    }
}

// Makes the file so long that it has these tracks, and never shorter.
fn lengthen(file: &File, tracks: u32) -> io::Result<()> {
    let bytes = u64::from(tracks) * TRACK_BYTES as u64;
    if file.metadata()?.len() < bytes {
        file.set_len(bytes)?;
    }
    Ok(())
}

// Where the track begins in the file.
fn offset(track: u32) -> u64 {
    u64::from(track) * TRACK_BYTES as u64
}

fn read_track(file: &Option<File>, track: u32, into: &mut [u64; 40]) -> Result<(), Failed>
    ensures words { OnOk result (All (λ word. word < 2 ^ 40) into.new) }
    ensures no_file { IsNone file.now → IsErr result }
{
    let Some(file) = file else {
        return Err(Failed);
    };
    let mut bytes = [0; 320];
    if file.read_exact_at(&mut bytes, offset(track)).is_err() {
        return Err(Failed);
    }
    decode(&bytes, into)
}

fn write_track(file: &Option<File>, track: u32, from: &[u64; 40]) -> Result<(), Failed>
    ensures no_file { IsNone file.now → IsErr result }
{
    let Some(file) = file else {
        return Err(Failed);
    };
    let mut bytes = [0; 320];
    encode(from, &mut bytes);
    match file.write_all_at(&bytes, offset(track)) {
        Ok(()) => Ok(()),
        Err(_) => Err(Failed),
    }
}

fn make_tracks(file: &Option<File>, tracks: u32) -> Result<(), Failed>
    ensures { IsOk result → IsSome file.now }
{
    let Some(file) = file else {
        return Err(Failed);
    };
    match lengthen(file, tracks) {
        Ok(()) => Ok(()),
        Err(_) => Err(Failed),
    }
}

impl Drum for FileDrum {
    ghost use Rattle.gier_drum.specs.FileDrum.{room_of, failed_of, file_of, CountsFault};
    ghost use Rattle.gier_drum.specs.Laws.{at_most, untold};

    ghost room = { room_of };

    ghost tracks = { λ _. None };

    ghost journal = { λ _. None };

    ghost faults = { failed_of };

    ghost bounded = { λ drum. at_most drum.bounded };

    ghost sized = { λ drum all told. untold told };

    ghost shaped = { λ drum all told. untold told };

    fn make_room(&mut self, wanted: u32) -> Result<(), RoomFault>
        ensures room { OnOk result (room_of self.new ≡ max (room_of self.old) wanted) }
        ensures refused { OnErr result (room_of self.new ≡ room_of self.old) }
        ensures device { IfErr result (λ fault. fault ≡ DrumFailed) }
        ensures no_file { IsNone (file_of self.old) → IsErr result }
        ensures count { CountsFault (failed_of self.old) result (failed_of self.new) }
        ensures file { file_of self.new ≡ file_of self.old }
    {
        if make_tracks(&self.file, wanted).is_err() {
            self.failed = self.failed.saturating_add(1);
            return Err(RoomFault::Failed);
        }
        self.room = self.room.max(wanted);
        Ok(())
    }

    fn read(&mut self, track: u32, into: &mut [u64; 40]) -> Result<(), Failed>
        requires { track < room_of self.old }
        ensures words { OnOk result (All (λ word. word < 2 ^ 40) into.new) }
        ensures room { room_of self.new ≡ room_of self.old }
        ensures no_file { IsNone (file_of self.old) → IsErr result }
        ensures count { CountsFault (failed_of self.old) result (failed_of self.new) }
        ensures file { file_of self.new ≡ file_of self.old }
    {
        if read_track(&self.file, track, into).is_err() {
            self.failed = self.failed.saturating_add(1);
            return Err(Failed);
        }
        Ok(())
    }

    fn write(&mut self, track: u32, from: &[u64; 40]) -> Result<(), Failed>
        requires in_room { track < room_of self.old }
        requires words { All (λ word. word < 2 ^ 40) from.now }
        ensures room { room_of self.new ≡ room_of self.old }
        ensures no_file { IsNone (file_of self.old) → IsErr result }
        ensures count { CountsFault (failed_of self.old) result (failed_of self.new) }
        ensures file { file_of self.new ≡ file_of self.old }
    {
        if write_track(&self.file, track, from).is_err() {
            self.failed = self.failed.saturating_add(1);
            return Err(Failed);
        }
        Ok(())
    }
}
