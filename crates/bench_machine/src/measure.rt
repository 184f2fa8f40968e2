// How long an order takes in a run, and in the plain loop over a vector.

use crate::objects::Program;
use crate::{objects, runs};
use std::io;
use std::time::Instant;

// How many orders each program obeys, about.
const ORDERS: u64 = 50_000_000;

// How many steps are tried to learn how many orders a step has.
const TRIED: u64 = 1_000_000;

/// Measures all, and prints a line for each.
pub fn all(rt: &HostRuntime) -> io::Result<()> {
    for program in objects::ALL {
        one(rt, program)?;
    }
    Ok(())
}

fn one(rt: &HostRuntime, program: Program) -> io::Result<()> {
    let words = program.words(rt.alloc())?;
    let tried = runs::run_plain(rt.alloc(), &words, TRIED)?;
    let steps = steps_for(tried.orders);
    let start = Instant::now(rt)?;
    let plain = runs::run_plain(rt.alloc(), &words, steps)?;
    let plain_took = start.elapsed(rt)?.as_nanos();
    let start = Instant::now(rt)?;
    let told = runs::run(rt.alloc(), &words, steps)?;
    let took = start.elapsed(rt)?.as_nanos();
    let title = program.title();
    let agree = plain.place == told.stop;
    println!(rt;
        "{title}: {} orders, stopped at the same place: {agree}",
        plain.orders
    )?;
    show(rt, took, plain_took, u128::from(plain.orders))
}

// How many steps make about as many orders as wanted.
fn steps_for(tried: u64) -> u64 {
    match (ORDERS * TRIED).checked_div(tried) {
        Some(steps) => steps,
        None => TRIED,
    }
}

// The time for an order in both, in hundredths of a nanosecond, and how many times as long the run took, in hundredths.
fn show(rt: &HostRuntime, took: u128, plain: u128, orders: u128) -> io::Result<()> {
    let each = share(took, orders);
    let plain_each = share(plain, orders);
    let ratio = share(took, plain);
    println!(rt;
        "  an order takes {each} hundredths of a ns, {plain_each} in the plain loop; {ratio} hundredths of it (500 are wanted at most)"
    )
}

fn share(amount: u128, of: u128) -> u128 {
    match amount.saturating_mul(100).checked_div(of) {
        Some(share) => share,
        None => 0,
    }
}
