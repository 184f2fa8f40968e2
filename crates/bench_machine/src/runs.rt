// A run of a program from a drum, with all that belongs to it, and the same program in the plain loop.
ghost use Rattle.std.specs.Prelude.{◌≡◌, ◌<◌, ◌≤◌, ◌^◌, All, length, IfOk};
ghost use Rattle.gier_drum.specs.MemDrum.{memory_of};

use crate::plain;
use crate::plain::Stopped;
use gier_drum::{Drum, MemDrum};
use gier_frames::Frames;
use gier_io::{MemSink, MemSource};
use gier_order::Object;
use gier_runner::{Report, Runner, Settings};
use std::alloc::{AllocError, Global};

// The words of the stack.
const STACK: u32 = 1_000_000;

// How many places a run has.
const PLACES: u8 = 8;

// How many tracks the drum has, and how many words a track.
const TRACKS: u32 = 3;

const TRACK: usize = 40;

// Words are below this.
const WORDS: u64 = 1 << 40;

/// What a run told.
#[derive(Debug, Clone, Copy, PartialEq, Eq)]
pub struct Told {
    pub stop: u32,
    pub report: Report,
}

/// Writes a program to a drum, and runs it with so many steps.
pub fn run(alloc: Global, words: &[u64], steps: u64) -> Result<Told, AllocError> {
    run_with(alloc, words, steps, STACK)
}

// The same with so many stack words, fewer than 2^24.
fn run_with(alloc: Global, words: &[u64], steps: u64, stack: u32) -> Result<Told, AllocError>
    requires { stack < 2 ^ 24 }
{
    let settings = Settings {
        places: PLACES,
        steps,
        stack,
    };
    let Ok(mut runner) = Runner::open(alloc, settings) else {
        return Err(AllocError);
    };
    let mut drum = written(alloc, words)?;
    let mut input = MemSource::of(Vec::new(alloc));
    let Ok(mut out) = MemSink::open(alloc, 0) else {
        return Err(AllocError);
    };
    let object = object_of(words.len());
    runner.run(&object, &mut drum, &mut input, &mut out);
    Ok(Told {
        stop: runner.stop(),
        report: runner.report(),
    })
}

/// Runs it in the plain loop.
pub fn run_plain(alloc: Global, words: &[u64], steps: u64) -> Result<Stopped, AllocError> {
    match Frames::open(alloc, STACK) {
        Ok(mut frames) => Ok(plain::obey(words, &mut frames, steps)),
        Err(_) => Err(AllocError),
    }
}

// An object of so many words, from 1 to what the drum has, at the begin of the drum.
fn object_of(words: usize) -> Object
    ensures start { result.start < result.words }
    ensures words { result.words ≤ 120 }
    ensures track { result.first_track ≡ 0 }
{
    Object {
        first_track: 0,
        words: words.clamp(1, TRACKS as usize * TRACK) as u32,
        start: 0,
        lengths: [0; 8],
    }
}

fn written(alloc: Global, words: &[u64]) -> Result<MemDrum, AllocError>
    ensures { IfOk result (λ drum. 3 ≤ length (memory_of drum).tracks) }
{
    let Ok(mut drum) = MemDrum::open(alloc, 0) else {
        return Err(AllocError);
    };
    if drum.make_room(TRACKS).is_err() {
        return Err(AllocError);
    }
    for track in 0..TRACKS {
        if drum.write(track, &track_of(words, track as usize)).is_err() {
            return Err(AllocError);
        }
    }
    Ok(drum)
}

// The words of a track, filled up with 0.
fn track_of(words: &[u64], track: usize) -> [u64; 40]
    requires { track < 3 }
    ensures { All (λ word. word < 2 ^ 40) result }
{
    let mut found = [0; TRACK];
    for place in 0..TRACK {
        let at = track * TRACK + place;
        if at < words.len() {
            found[place] = words[at] % WORDS;
        }
    }
    found
}
