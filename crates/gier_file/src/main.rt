// The program `gier_file`: as `gier`, over a drum in the file whose path is its first word. The file is made where there is
// none, and what stood in it is written over.
#![tactic(auto)]

use gier_drum::FileDrum;
use gier_job::Status;
use gier_shell::{About, LONGEST_PATH, end, read_arguments, read_command_line, serve, tell};
use std::env::FillError;
use std::fs::{File, OpenOptions};
use std::process::ExitCode;
use std::rt::Env;

// The path is the first word behind the program's name, and the words for the compiler stand behind it.
const PATH: usize = 1;

const FIRST_WORD: usize = 2;

const ABOUT: About = About {
    name: "gier_file",
    help: HELP,
    version: "gier_file 0.1.0\n",
};

const HELP: &str = "\
usage: gier_file DRUM run [WORD..] [FILE]
       gier_file DRUM check [sample=K] [FILE]
       gier_file --help
       gier_file --version

Does what `gier` does with the same words, and keeps the texts and the object
of the program in the file DRUM, which is made where there is none. The words,
the tape in FILE and the exit status are those of `gier --help`.
";

fn main(rt: HostRuntime) -> ExitCode {
    let status = match read_arguments(&rt, rt.alloc(), PATH) {
        Ok(words) => match tell(&rt, &ABOUT, words.as_slice()) {
            Some(status) => status,
            None => work(&rt),
        },
        Err(_) => Status::Memory,
    };
    end(&rt, &ABOUT, status)
}

// Hands the words behind the path to the top call. Without a file each wrong word is still told as such.
fn work(rt: &HostRuntime) -> Status {
    let mut drum = FileDrum::of(open_file(rt));
    match read_command_line(rt, rt.alloc(), FIRST_WORD) {
        Ok(line) => serve(rt, &ABOUT, &line, &mut drum),
        Err(_) => Status::Memory,
    }
}

// The file of the first word, or None where there is no such word or the file can't be opened.
fn open_file(rt: &HostRuntime) -> Option<File> {
    let mut bytes = [0u8; LONGEST_PATH];
    let length = match rt.arg(PATH, &mut bytes) {
        Ok(length) => length,
        Err(FillError::TooLong) | Err(FillError::NotPresent) => return None,
    };
    let path = str::from_utf8(&bytes[..length]).ok()?;
    OpenOptions::new()
        .read(true)
        .write(true)
        .create(true)
        .open(rt, path)
        .ok()
}
