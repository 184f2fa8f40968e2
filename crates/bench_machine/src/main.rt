// Times the machine: a counting loop, straight code over three tracks, and a deep recursion. With the argument `measure` it
// prints how long an order takes in a run and in a plain loop over a vector; without it it obeys a few and prints where the
// runs stopped, which is always the same.
#![tactic(auto)]

mod measure;
mod objects;
mod plain;
mod runs;

use gier_runner::Report;
use std::{env, io};

// How many steps are charged without being timed.
const FEW: u64 = 1_000;

fn main(rt: HostRuntime) -> io::Result<()> {
    if is_measuring(&rt)? {
        measure::all(&rt)
    } else {
        show_few(&rt)
    }
}

fn is_measuring(rt: &HostRuntime) -> io::Result<bool> {
    for (at, word) in env::args(rt)?.enumerate() {
        if at == 1 {
            return Ok(word.as_str() == "measure");
        }
    }
    Ok(false)
}

fn show_few(rt: &HostRuntime) -> io::Result<()> {
    let alloc = rt.alloc();
    for program in objects::ALL {
        let words = program.words(alloc)?;
        let told = runs::run(alloc, &words, FEW)?;
        let plain = runs::run_plain(alloc, &words, FEW)?;
        let title = program.title();
        let Report {
            steps,
            transfers,
            words,
        } = told.report;
        println!(rt;
            "{title}: stopped at {} after {steps} steps and {transfers} reads with {words} words; the plain loop at {} after {} orders",
            told.stop, plain.place, plain.orders
        )?;
    }
    Ok(())
}
