// The program `gier`: the words of its command line, the tape in a file or on standard input and the printer on standard output,
// over a drum in memory. What it does with them is the top call's.
#![tactic(auto)]

use gier_drum::MemDrum;
use gier_job::Status;
use gier_shell::{About, end, read_command_line, serve, tell};
use std::process::ExitCode;

// The drum keeps no journal.
const NO_JOURNAL: usize = 0;

// The first word stands behind the program's name.
const FIRST_WORD: usize = 1;

const ABOUT: About = About {
    name: "gier",
    help: HELP,
    version: "gier 0.1.0\n",
};

const HELP: &str = "\
usage: gier run [WORD..] [FILE]        compiles and runs an ALGOL 60 program
       gier check [sample=K] [FILE]    only looks for its errors
       gier --help | --version

FILE has a `/` or a `.` in it, as ./queens. Without one the tape is standard
input. The program text is all bytes before the first `#`, the data all behind
it; where FILE has no `#`, the data are standard input.

words behind `run`, in any order and each at most once:
  places=P     track places, 1 to 64 (8)
  steps=N      permitted steps, 0 to 1000000000000 (10000000)
  stack=W      permitted stack words, 64 to 1000000 (20000)
  sample=K     a program of K calls, 0 to 2000, in place of the tape
  report=yes   print steps, transfers and stack words
  table=yes    print the transfers for 1 to 64 places
  best=yes     print the fewest transfers possible, and their plan
  mortem=yes   print where an alarm or want of steps stopped the run

exit status: 0 done                     5 the tape failed
             1 errors in the program    6 the printer failed
             2 a wrong word             7 the drum failed
             3 alarm                    8 want of memory
             4 out of steps             9 the drum was spoilt

docs/LANGUAGE.md is the manual, docs/MACHINE.md tells what the words print.
";

fn main(rt: HostRuntime) -> ExitCode {
    let status = match read_command_line(&rt, rt.alloc(), FIRST_WORD) {
        Ok(line) => match tell(&rt, &ABOUT, line.words.as_slice()) {
            Some(status) => status,
            None => match MemDrum::open(rt.alloc(), NO_JOURNAL) {
                Ok(mut drum) => serve(&rt, &ABOUT, &line, &mut drum),
                Err(_) => Status::Memory,
            },
        },
        Err(_) => Status::Memory,
    };
    end(&rt, &ABOUT, status)
}
