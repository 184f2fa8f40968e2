// A job between the tape and standard output, the top call or another one, and what is said on standard error.
ghost use Rattle.std.specs.Prelude.{◌≤◌, IfSome};

use crate::tape::Tape;
use gier_console::{CommandLine, Printed, ProgramText, TapeReader, explain, is_path};
use gier_drum::Drum;
use gier_io::{Sink, Source, StdSink, StdSource};
use gier_job::{Status, gier, read_words, status_text};
use std::alloc::Global;
use std::io::{BufReader, BufWriter, IsTerminal, Read, Write};
use std::process::ExitCode;
use std::rt::Files;
use std::{fs, io};

// So much of what is printed is kept back.
const BUFFER: usize = 8192;

/// What a program says of itself.
#[derive(Debug, Clone, Copy)]
pub struct About {
    /// Its name, which stands before what it says on standard error.
    pub name: &'static str,
    /// The answer to `--help`.
    pub help: &'static str,
    /// The answer to `--version`.
    pub version: &'static str,
}

/// Answers `--help` and `--version`, each alone, on standard output. None for all other words.
pub fn tell(rt: &impl Print, about: &About, words: &[String]) -> Option<Status> {
    match words {
        [word] if word.as_str() == "--help" => Some(say(rt, about.help)),
        [word] if word.as_str() == "--version" => Some(say(rt, about.version)),
        _ => None,
    }
}

fn say(rt: &impl Print, text: &str) -> Status {
    match rt.print(text) {
        Ok(()) => Status::Done,
        Err(_) => Status::Printer,
    }
}

/// What a program does with a tape.
pub trait Job {
    /// Does what the words ask for with the program on the tape, over a drum, and prints the answer.
    fn work<S: Source, K: Sink, D: Drum>(
        &self,
        alloc: Global,
        words: &[String],
        tape: &mut S,
        out: &mut K,
        drum: &mut D,
    ) -> Status;

    /// What the program says of itself.
    fn about(&self) -> About;

    /// The number of the first wrong word, from 1, where there is one.
    fn wrong_word(&self, words: &[String]) -> Option<u32>
        ensures { IfSome result (λ number. 1 ≤ number) };

    /// What has to stand before the path of a tape that is the first word, with a space behind it, or nothing.
    fn command(&self) -> &'static str;
}

// The job of `gier`: the top call.
#[derive(Clone, Copy)]
struct Compiling {
    about: About,
}

impl Job for Compiling {
    fn work<S: Source, K: Sink, D: Drum>(
        &self,
        alloc: Global,
        words: &[String],
        tape: &mut S,
        out: &mut K,
        drum: &mut D,
    ) -> Status {
        gier(alloc, words, tape, out, drum)
    }

    fn about(&self) -> About {
        self.about
    }

    fn wrong_word(&self, words: &[String]) -> Option<u32> {
        match read_words(words) {
            Ok(_) => None,
            Err(number) => Some(number),
        }
    }

    fn command(&self) -> &'static str {
        "run "
    }
}

/// Does what the words ask for as `gier`, by the top call.
pub fn serve<R: Input + Print + Eprint + Files + AllocGlobal, D: Drum>(
    rt: &R,
    about: &About,
    line: &CommandLine,
    drum: &mut D,
) -> Status
where
    R::Reader: IsTerminal,
{
    serve_job(rt, &Compiling { about: *about }, line, drum)
}

/// Does a job over a drum, with standard output as the printer. The tape is the file that the command line names, and standard
/// input behind it where the file holds no mark, or standard input alone. A wrong word, a file that can't be read and each error of
/// the program are explained on standard error.
pub fn serve_job<R: Input + Print + Eprint + Files + AllocGlobal, J: Job, D: Drum>(
    rt: &R,
    job: &J,
    line: &CommandLine,
    drum: &mut D,
) -> Status
where
    R::Reader: IsTerminal,
{
    match open_tape(rt, job, line) {
        Ok(file) => run(rt, job, line, file, drum),
        Err(status) => status,
    }
}

// The file of the tape, where the command line names one. A wrong word is told before a file that can't be opened.
fn open_tape<R: Eprint + Files, J: Job>(
    rt: &R,
    job: &J,
    line: &CommandLine,
) -> Result<Option<R::File>, Status> {
    let Some(path) = &line.tape else {
        return Ok(None);
    };
    match fs::open(rt, path.as_str()) {
        Ok(file) => Ok(Some(file)),
        Err(_) if job.wrong_word(line.words.as_slice()).is_some() => Ok(None),
        Err(error) => {
            refuse(rt, &job.about(), path.as_str(), &error);
            Err(Status::Tape)
        }
    }
}

// The tape is read through a buffer, and what is printed is out before this returns.
fn run<R: Input + Print + Eprint + Files + AllocGlobal, J: Job, D: Drum>(
    rt: &R,
    job: &J,
    line: &CommandLine,
    file: Option<R::File>,
    drum: &mut D,
) -> Status
where
    R::Reader: IsTerminal,
{
    let alloc = rt.alloc();
    let input = rt.reader();
    // At a terminal what was printed is to be seen before the program waits for input, so the printer keeps nothing back.
    let buffer = if input.is_terminal() { 0 } else { BUFFER };
    let Ok(writer) = BufWriter::with_capacity(alloc, buffer, Printed::new(alloc, io::writer(rt)))
    else {
        return Status::Memory;
    };
    let Ok(reader) = BufReader::new(alloc, TapeReader::new(alloc, file, input)) else {
        return Status::Memory;
    };
    let mut tape = Tape::of(StdSource::of(reader));
    let mut printer = StdSink::of(writer);
    let status = job.work(alloc, line.words.as_slice(), &mut tape, &mut printer, drum);
    let mut writer = printer.into_inner();
    let flushed = writer.flush();
    let status = match flushed {
        Err(_) if status.number() < Status::Tape.number() => Status::Printer,
        _ => status,
    };
    let (text, refusal) = tape.into_inner().into_inner().into_inner().into_parts();
    let printed = writer.get_ref().beginning();
    if let Some(error) = refusal.as_ref() {
        comment_refusal(rt, job, line, status, error);
    }
    comment(rt, job, line, status, printed, &text);
    status
}

// Says on standard error what helps with this status.
fn comment<R: Eprint + Files, J: Job>(
    rt: &R,
    job: &J,
    line: &CommandLine,
    status: Status,
    printed: &[u8],
    text: &ProgramText,
) {
    match status {
        Status::Words => name_wrong_word(rt, job, line.words.as_slice()),
        Status::Errors => explain(rt, job.about().name, path_of(line), printed, text.bytes()),
        _ => {}
    }
}

// Where the tape failed, names the file and what it was refused with.
fn comment_refusal<R: Eprint + Files, J: Job>(
    rt: &R,
    job: &J,
    line: &CommandLine,
    status: Status,
    error: &io::Error,
) {
    if let Status::Tape = status {
        refuse(rt, &job.about(), path_of(line).unwrap_or(""), error);
    }
}

fn path_of(line: &CommandLine) -> Option<&str> {
    line.tape.as_ref().map(|path| path.as_str())
}

// Names the wrong word. One that is the name of a file was meant as the tape.
fn name_wrong_word<R: Eprint + Files, J: Job>(rt: &R, job: &J, words: &[String]) {
    let name = job.about().name;
    let Some(number) = job.wrong_word(words) else {
        return;
    };
    let Some(word) = words.get(number as usize - 1) else {
        let _ = eprintln!(rt; "{name}: word {number} is missing; try {name} --help");
        return;
    };
    let _ = eprintln!(rt; "{name}: word {number}, {word:?}, is wrong; try {name} --help");
    let word = word.as_str();
    if is_file(rt, word) {
        let folder = if is_path(word) { "" } else { "./" };
        let command = if number == 1 { job.command() } else { "" };
        let _ = eprintln!(rt;
            "{name}: there is a file {word}: as the tape, write {command}{folder}{word} last"
        );
    }
}

fn is_file<R: Files>(rt: &R, path: &str) -> bool {
    match fs::metadata(rt, path) {
        Ok(about) => about.is_file(),
        Err(_) => false,
    }
}

// Names a file that can't be opened or read.
fn refuse(rt: &impl Eprint, about: &About, path: &str, error: &io::Error) {
    let name = about.name;
    let _ = eprintln!(rt; "{name}: {path}: {error}");
}

/// The exit status of a program that ends so. A status that is nothing the program on the tape did is named on standard error.
pub fn end(rt: &impl Eprint, about: &About, status: Status) -> ExitCode {
    if status.number() >= Status::Tape.number() {
        let name = about.name;
        let text = status_text(status);
        let _ = eprintln!(rt; "{name}: {text}");
    }
    ExitCode::from(status.number())
}
