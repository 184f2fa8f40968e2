// The words of the command line as text, and the path of the tape where the last of them is one.
ghost use Rattle.std.specs.Prelude.{◌≡◌, ◌≤◌, [], vec_len, IfOk};
ghost use Rattle.std.specs.Str.{IsUtf8};
ghost use Rattle.gier_console.specs.Path.{is_path_of};

use std::alloc::{AllocError, Global};
use std::env::FillError;
use std::rt::Env;

// No right word has more bytes.
const LONGEST_WORD: usize = 64;

// No command has more words, so one word more is wrong, whatever follows. The path of a tape is one of them.
const MOST_WORDS: usize = 11;

// The path of a tape stands behind a word that says what is to be done.
const FEWEST_WORDS_WITH_PATH: usize = 2;

/// No path has more bytes.
pub const LONGEST_PATH: usize = 4096;

/// What stands on the command line.
#[derive(Debug, Drop)]
pub struct CommandLine {
    /// The words for the compiler.
    pub words: Vec<String>,
    /// The path of the tape, which was the last word. Where there is none, the tape is standard input.
    pub tape: Option<String>,
}

/// The command line from the word with the number `first` on. Its last word is the path of the tape where it has the form of
/// one and stands behind another.
pub fn read_command_line(
    env: &impl Env,
    alloc: Global,
    first: usize,
) -> Result<CommandLine, AllocError>
    requires { first ≤ 2 }
{
    read_line_of(env, alloc, first, FEWEST_WORDS_WITH_PATH)
}

/// The command line from the word with the number `first` on, of a program to which no word says what is to be done. Its last
/// word is the path of the tape where it has the form of one.
pub fn read_plain_command_line(
    env: &impl Env,
    alloc: Global,
    first: usize,
) -> Result<CommandLine, AllocError>
    requires { first ≤ 2 }
{
    read_line_of(env, alloc, first, 1)
}

// The command line whose last word may be a path where there are at least so many words.
fn read_line_of(
    env: &impl Env,
    alloc: Global,
    first: usize,
    fewest: usize,
) -> Result<CommandLine, AllocError>
    requires first { first ≤ 2 }
    requires fewest { 1 ≤ fewest }
{
    let mut words = read_arguments(env, alloc, first)?;
    let mut tape = None;
    if words.len() >= fewest {
        tape = read_path(env, alloc, first + words.len() - 1)?;
    }
    if tape.is_some() {
        words.truncate(words.len() - 1);
    }
    Ok(CommandLine { words, tape })
}

// The word with this number, where it is text that has the form of a path.
fn read_path(env: &impl Env, alloc: Global, at: usize) -> Result<Option<String>, AllocError> {
    let mut path = [0u8; LONGEST_PATH];
    let Ok(length) = env.arg(at, &mut path) else {
        return Ok(None);
    };
    let word = text_of(&path[..length]);
    if is_path(word) {
        Ok(Some(String::from_str(alloc, word)?))
    } else {
        Ok(None)
    }
}

/// Whether a word has the form of a path: it has a `/` or a `.`, and no `=`.
pub fn is_path(word: &str) -> bool
    ensures { result ≡ is_path_of word.now }
{
    let bytes = word.as_bytes();
    !bytes.contains(&b'=') && (bytes.contains(&b'/') || bytes.contains(&b'.'))
}

/// The words of the command line from the one with the number `first` on, 1 being the one behind the program's name, as far
/// as they can tell what is asked for. A word that isn't UTF-8, or is longer than any right word, stands as an empty one,
/// which is wrong too.
pub fn read_arguments(
    env: &impl Env,
    alloc: Global,
    first: usize,
) -> Result<Vec<String>, AllocError>
    requires { first ≤ 2 }
    ensures { IfOk result (λ words. vec_len words ≤ 11) }
{
    let mut words = Vec::new(alloc);
    for i in 0..MOST_WORDS {
        let mut bytes = [0u8; LONGEST_WORD];
        match env.arg(first + i, &mut bytes) {
            Ok(length) => words.push(String::from_str(alloc, text_of(&bytes[..length]))?)?,
            Err(FillError::TooLong) => words.push(String::new(alloc))?,
            Err(FillError::NotPresent) => break,
        }
    }
    Ok(words)
}

// The bytes as text, or no text where they are none.
fn text_of(bytes: &[u8]) -> &str
    ensures text { IsUtf8 bytes.now → result.now ≡ bytes.now }
    ensures other { (IsUtf8 bytes.now → ⊥) → result.now ≡ [] }
{
    match str::from_utf8(bytes) {
        Ok(text) => text,
        Err(_) => "",
    }
}
