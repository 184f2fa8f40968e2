// Drives one pass over a text that is given as numbers, and prints what it writes and which faults it finds, so that a pass can be
// compared with a model of it. It compiles nothing and isn't needed to run a program.
//
// `tool_text_dump K` reads texts K-1 on standard input: for each the number of bytes of the program, the number of symbols, and
// for each symbol, in the order in which pass K reads it, tag, value and line. For each text it prints a line `tag value line` for
// each symbol of text K as it is written, a line `fault position line kind` for each fault, and a line `end`. Without an argument
// it does so with a text of its own. `tool_text_dump K L` drives passes K to L, each over what the one before it wrote, and prints
// text L, or the faults of the first pass that finds some; of pass 9 it prints the words of the object. `tool_text_dump 1` reads
// tapes instead: for each the number of bytes, and the bytes as numbers.
#![tactic(auto)]

mod input;
mod object;
mod stage;

use gier_io::{Source, StdSource};
use input::{read_symbols, read_tape};
use std::io::BufReader;
use std::{env, io};

// The pass that reads the tape.
const FROM_TAPE: u8 = 1;

// The text that is assembled where no argument is given: `_begin x1 _end`.
const SMALL: &[u8] = b"14 5 36 0 1 1 120 1 2 1 1 37 0 1 8 0 1";

fn main(rt: HostRuntime) -> io::Result<()> {
    let alloc = rt.alloc();
    match numbers(&rt)? {
        Some((first, last)) => {
            let mut tape = StdSource::of(BufReader::new(alloc, rt.reader())?);
            show_all(&rt, first, last, &mut tape)
        }
        None => show_all(&rt, 2, 2, &mut StdSource::of(SMALL)),
    }
}

fn show_all<S: Source>(rt: &HostRuntime, first: u8, last: u8, tape: &mut S) -> io::Result<()> {
    for _ in 0..u64::MAX {
        if !show_one(rt, first, last, tape)? {
            break;
        }
        println!(rt; "end")?;
    }
    Ok(())
}

// Shows what comes of the next tape or text; false at the end.
fn show_one<S: Source>(rt: &HostRuntime, first: u8, last: u8, tape: &mut S) -> io::Result<bool> {
    if first == FROM_TAPE {
        let Some(bytes) = read_tape(rt.alloc(), tape)? else {
            return Ok(false);
        };
        stage::show_tape(rt, bytes)?;
        return Ok(true);
    }
    let Some(symbols) = read_symbols(rt.alloc(), tape)? else {
        return Ok(false);
    };
    stage::show(rt, first, last, &symbols)?;
    Ok(true)
}

// The numbers of the first and the last pass, which stand behind the program's name; one number is both.
fn numbers(rt: &HostRuntime) -> io::Result<Option<(u8, u8)>> {
    let mut found = None;
    for (at, word) in env::args(rt)?.enumerate() {
        if at > 0 {
            let Some(number) = word.as_str().parse::<u8>().ok() else {
                return Ok(None);
            };
            found = Some((first_of(found, number), number));
        }
    }
    Ok(found)
}

// The first number, if this is the next one.
fn first_of(found: Option<(u8, u8)>, number: u8) -> u8 {
    match found {
        Some((first, _)) => first,
        None => number,
    }
}
