// Runs objects that are given as numbers, and prints all that can be seen of each run, so that the machine can be compared with a
// model of it. It compiles nothing and isn't needed to run a program.
//
// Standard input has for each object: how many words it has, where it begins, the places, the steps, the stack words, how many
// bytes the data have; then its words, as whole numbers of 40 bits with a sign; then the data, a number for each byte. For each
// object come the lines `ending`, `steps`, `words`, `stop`, `left` (how many bytes of the data), `printed`, `misses` for 1 to 64
// places, `tracks` (those that were read, in order), `frames` (words and address behind the entry of each live activation), and
// `end`.
#![tactic(auto)]

mod given;
mod report;
mod stored;

use gier_io::{Source, StdSource};
use given::read_given;
use report::show_one;
use std::io;
use std::io::BufReader;

fn main(rt: HostRuntime) -> io::Result<()> {
    let mut numbers = StdSource::of(BufReader::new(rt.alloc(), rt.reader())?);
    show_all(&rt, &mut numbers)
}

fn show_all<S: Source>(rt: &HostRuntime, numbers: &mut S) -> io::Result<()> {
    for _ in 0..u64::MAX {
        match read_given(numbers) {
            Some(given) => show_one(rt, &given, numbers)?,
            None => break,
        }
    }
    Ok(())
}
