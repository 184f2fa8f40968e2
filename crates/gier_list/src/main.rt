// The program `gier_list`: prints what the program on the tape becomes, each word of its object with its address, order and line.
// It runs nothing.
#![tactic(auto)]

mod listing;

use gier_drum::MemDrum;
use gier_job::Status;
use gier_shell::{About, end, read_plain_command_line, serve_job, tell};
use listing::Listing;
use std::process::ExitCode;

// The drum keeps no journal.
const NO_JOURNAL: usize = 0;

// The first word stands behind the program's name.
const FIRST_WORD: usize = 1;

const ABOUT: About = About {
    name: "gier_list",
    help: HELP,
    version: "gier_list 0.1.0\n",
};

const HELP: &str = "\
usage: gier_list [FILE]     prints the orders that a program becomes
       gier_list --help | --version

FILE has a `/` or a `.` in it, as ./queens. Without one the program is on
standard input. It ends before the first `#`.

Each word of the object has a line: its address, with a colon where a label
stands; the order with its level and address, or `word` and a number where it
is data; the line of the program to which it belongs; its track, counted from
the first of the object, and its place on the track.

Errors in the program, and the exit status, are those of `gier check`.
docs/MACHINE.md tells what the orders do.
";

fn main(rt: HostRuntime) -> ExitCode {
    let status = match read_plain_command_line(&rt, rt.alloc(), FIRST_WORD) {
        Ok(line) => match tell(&rt, &ABOUT, line.words.as_slice()) {
            Some(status) => status,
            None => match MemDrum::open(rt.alloc(), NO_JOURNAL) {
                Ok(mut drum) => serve_job(&rt, &Listing { about: ABOUT }, &line, &mut drum),
                Err(_) => Status::Memory,
            },
        },
        Err(_) => Status::Memory,
    };
    end(&rt, &ABOUT, status)
}
