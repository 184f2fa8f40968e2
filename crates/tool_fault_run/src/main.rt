// Does the work of `gier` over devices in memory, one of which fails at a call that is named, and then the same once more over
// sound ones with the same runner, so that it can be tested what a failure leaves behind. It isn't needed to run a program.
//
// `tool_fault_run DEVICE=N WORDS < TAPE`: DEVICE is `drum`, `read` or `put`, whose call N, from 0, fails; WORDS are those of `gier`
// without `best=yes`. Printed are a line with the status and the number of calls of the drum, and a line with the printed bytes
// as numbers, and then both again.
#![tactic(auto)]

mod fails;
mod twice;

use fails::failing_call;
use gier_job::read_words;
use gier_shell::read_arguments;
use std::io;
use std::io::{BufReader, Read};
use twice::show_both;

// The words of the command stand behind the one that says what fails.
const FIRST_WORD: usize = 2;

fn main(rt: HostRuntime) -> io::Result<()> {
    let words = read_arguments(&rt, rt.alloc(), FIRST_WORD)?;
    let Some(fails) = failing_call(&rt)? else {
        return println!(rt; "word 1 names no call");
    };
    let Ok(command) = read_words(words.as_slice()) else {
        return println!(rt; "a wrong word");
    };
    if command.best {
        return println!(rt; "best=yes isn't taken");
    }
    let mut tape = Vec::new(rt.alloc());
    BufReader::new(rt.alloc(), rt.reader())?.read_to_end(&mut tape)?;
    show_both(&rt, &command, tape.as_slice(), fails)
}
