// Times the foundations: regions, lists of recent tracks, drums, texts and places. With the argument `measure` it prints how they
// compare with plain loops; without it it works a little and prints what it found, which is always the same.
#![tactic(auto)]

mod drums;
mod measure;
mod places;
mod recent;
mod texts;
mod words;

use std::{env, io};

// How much work is done without being timed.
const FEW: u32 = 10_000;

fn main(rt: HostRuntime) -> io::Result<()> {
    if is_measuring(&rt)? {
        measure::all(&rt)
    } else {
        show_few(&rt)
    }
}

fn is_measuring(rt: &HostRuntime) -> io::Result<bool> {
    for (at, word) in env::args(rt)?.enumerate() {
        if at == 1 {
            return Ok(word.as_str() == "measure");
        }
    }
    Ok(false)
}

fn show_few(rt: &HostRuntime) -> io::Result<()> {
    let alloc = rt.alloc();
    let plain = words::in_vec(alloc, FEW)?;
    let region = words::in_region(alloc, FEW)?;
    let misses = recent::misses_of_one(FEW);
    let opened = drums::open(alloc, FEW).is_ok();
    println!(rt; "words {plain} {region}, misses {misses}, drum opened {opened}")?;
    let through_drum = texts::through_drum(alloc, FEW)?;
    let through_vec = texts::through_vec(alloc, FEW)?;
    let referred = places::of_newest(alloc, FEW)?;
    let indexed = places::of_vec(alloc, FEW)?;
    println!(rt; "symbols {through_drum} {through_vec}, words of a track {referred} {indexed}")
}
