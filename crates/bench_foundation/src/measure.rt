// What each foundation takes, against a plain loop that does the same.

use crate::{drums, places, recent, texts, words};
use std::io;
use std::time::{Duration, Instant};

const TURNS: u32 = 20_000_000;

// About as many symbols as the texts of the longest program have.
const SYMBOLS: u32 = 8_000_000;

// As many tracks as the longest program needs.
const TRACKS: u32 = 1_468_015;

/// Measures all, and prints a line for each.
pub fn all(rt: &HostRuntime) -> io::Result<()> {
    opening(rt)?;
    reading_words(rt)?;
    referring(rt)?;
    writing_symbols(rt)?;
    using_places(rt)
}

fn opening(rt: &HostRuntime) -> io::Result<()> {
    let start = Instant::now(rt)?;
    let opened = drums::open(rt.alloc(), TRACKS).is_ok();
    let took = start.elapsed(rt)?.as_micros();
    println!(rt; "drum of {TRACKS} tracks opened ({opened}) in {took} us; at most 100 are wanted")
}

fn reading_words(rt: &HostRuntime) -> io::Result<()> {
    let start = Instant::now(rt)?;
    let plain = words::in_vec(rt.alloc(), TURNS)?;
    let plain_took = start.elapsed(rt)?;
    let start = Instant::now(rt)?;
    let region = words::in_region(rt.alloc(), TURNS)?;
    let region_took = start.elapsed(rt)?;
    println!(rt; "words of a vector and a region agree: {}", plain == region)?;
    show_ratio(
        rt,
        "a word of a region, to one of a vector",
        region_took,
        plain_took,
    )
}

fn referring(rt: &HostRuntime) -> io::Result<()> {
    let start = Instant::now(rt)?;
    let few = recent::misses_of_one(TURNS);
    let few_took = start.elapsed(rt)?;
    let start = Instant::now(rt)?;
    let many = recent::misses_behind_many(TURNS);
    let many_took = start.elapsed(rt)?;
    println!(rt; "misses behind no and behind 64 tracks: {few} {many}")?;
    show_ratio(
        rt,
        "the newest track behind 64, to behind none",
        many_took,
        few_took,
    )
}

fn writing_symbols(rt: &HostRuntime) -> io::Result<()> {
    let start = Instant::now(rt)?;
    let copied = texts::through_vec(rt.alloc(), SYMBOLS)?;
    let copied_took = start.elapsed(rt)?;
    let start = Instant::now(rt)?;
    let written = texts::through_drum(rt.alloc(), SYMBOLS)?;
    let written_took = start.elapsed(rt)?;
    println!(rt;
        "symbols of a vector and a text agree: {}",
        copied == written
    )?;
    show_ratio(
        rt,
        "a symbol through a text (6 times is wanted), to one through a vector",
        written_took,
        copied_took,
    )
}

fn using_places(rt: &HostRuntime) -> io::Result<()> {
    let start = Instant::now(rt)?;
    let indexed = places::of_vec(rt.alloc(), TURNS)?;
    let indexed_took = start.elapsed(rt)?;
    let start = Instant::now(rt)?;
    let referred = places::of_newest(rt.alloc(), TURNS)?;
    let referred_took = start.elapsed(rt)?;
    println!(rt;
        "words of a vector and of a place agree: {}",
        indexed == referred
    )?;
    show_ratio(
        rt,
        "a word of the newest track (3 times is wanted), to one of a vector",
        referred_took,
        indexed_took,
    )
}

// Prints how many times as long the first took, in hundredths, with its time for a turn.
fn show_ratio(rt: &HostRuntime, what: &str, took: Duration, plain: Duration) -> io::Result<()> {
    let each = took.as_nanos() / u128::from(TURNS);
    match plain.as_nanos() {
        0 => println!(rt; "{what}: too fast to compare"),
        nanos => {
            let ratio = took.as_nanos().saturating_mul(100) / nanos;
            println!(rt; "{what}: {ratio} hundredths, {each} ns a turn")
        }
    }
}
