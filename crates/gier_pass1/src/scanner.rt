// Takes a program byte by byte, with a reader for its words, and tells what each byte gives. Nothing is written here.
ghost use Rattle.std.specs.Prelude.{◌≡◌, ◌<◌, ◌≤◌, ◌+◌, ◌^◌, [], None};
ghost use Rattle.gier_strop.specs.declared.reader.Fed.TheVariants.{More};
ghost use Rattle.gier_symbol.specs.declared.tag.Tag.TheVariants.{TextEnd};
ghost use Rattle.gier_pass1.specs.StepCounts.{IsLetter, IsKnown, HasLines, PreservesCountsAtEnd, PreservesCounts, symbols_in};
ghost use Rattle.gier_pass1.specs.StepCounts.{faults_in, owed_symbols, owed_faults};
ghost use Rattle.gier_pass1.specs.Program.{longest};
ghost use Rattle.gier_pass1.specs.Scan.{depth_of, start_state, here_symbol, at_end};
ghost use Rattle.gier_pass1.specs.Scanning.{IsScanning, HasLetters, ReadsLetters, IfRead, IfBehind, FeedsAny, KeepsLetters};
ghost use Rattle.gier_pass1.specs.Scanning.{EndsWord, EndsStep, TakesByte, ended_step, begun_step};

use crate::state::{State, Step, Token, start_state};
use crate::steps::{at_end, goes, sign_step, taken_step, word_step};
use gier_strop::{Fed, Spelling, WordReader};
use gier_symbol::Tag;

/// Where the reading of a program stands, and the reader of its words.
#[derive(Drop)]
pub(crate) struct Scanner {
    pub(crate) state: State,
    // Before and between words it has read nothing.
    pub(crate) reader: WordReader,
}

/// What a byte gives: what ended before it or with it, and then what it gives by itself.
#[derive(Debug, Clone, Copy, PartialEq, Eq)]
pub(crate) struct ScanResult {
    pub(crate) ended: Token,
    pub(crate) begun: Token,
}

impl Scanner {
    /// Before the first byte.
    pub(crate) fn new() -> Scanner
        ensures state { result.state ≡ start_state }
        ensures scanning { IsScanning result }
        ensures letters { ReadsLetters result.state result.reader [] }
    {
        Scanner {
            state: start_state(),
            reader: WordReader::new(Spelling::Plain),
        }
    }

    /// Takes the next byte.
    pub(crate) fn take(&mut self, byte: u8) -> ScanResult
        requires scanning { IsScanning self.old }
        requires fits { self.old.state.here.at < longest }
        ensures scanning { IsScanning self.new }
        ensures place { self.new.state.here.at ≡ self.old.state.here.at + 1 }
        ensures ended { IsLetter result.ended }
        ensures begun { IsLetter result.begun }
        ensures symbols { symbols_in result.ended + symbols_in result.begun + owed_symbols self.new.state.mode
            ≤ owed_symbols self.old.state.mode + 1 }
        ensures faults { faults_in result.ended + faults_in result.begun + owed_faults self.new.state.mode
            ≤ owed_faults self.old.state.mode + 1 }
        ensures told { IfRead self.old (λ letters. TakesByte self.old letters byte result self.new) }
    {
        let ended = self.ended(Some(byte));
        let begun = self.begun(ended, byte);
        self.state = begun.state.passed(byte);
        ScanResult {
            ended: ended.found,
            begun: begun.found,
        }
    }

    /// Takes the end of the program.
    pub(crate) fn end(&mut self) -> ScanResult
        requires { IsScanning self.old }
        ensures at { self.new.state.here ≡ self.old.state.here }
        ensures ended { IsLetter result.ended }
        ensures begun { result.begun ≡ here_symbol self.old.state TextEnd 0 }
        ensures letter { IsLetter result.begun }
        ensures symbols { symbols_in result.ended ≤ owed_symbols self.old.state.mode }
        ensures faults { faults_in result.ended ≤ owed_faults self.old.state.mode }
        ensures told { IfRead self.old (λ letters. result.ended ≡ at_end (ended_step self.old.state letters None)) }
    {
        let ended = self.ended(None);
        ScanResult {
            ended: at_end(ended),
            begun: ended.state.here_symbol(Tag::TextEnd, 0),
        }
    }

    // Ends the sign or word that was begun, or goes on with it.
    fn ended(&mut self, byte: Option<u8>) -> Step
        requires { IsScanning self.old }
        ensures reader { HasLetters self.new.reader }
        ensures state { self.new.state ≡ self.old.state }
        ensures ends { PreservesCountsAtEnd self.old.state result }
        ensures letter { IsLetter result.found }
        ensures told { IfRead self.old (λ letters. EndsStep self.old.state letters byte result self.new.reader) }
    {
        if self.state.in_word() {
            return self.word_ended(byte);
        }
        sign_step(self.state, byte)
    }

    fn word_ended(&mut self, byte: Option<u8>) -> Step
        requires { IsScanning self.old }
        ensures reader { HasLetters self.new.reader }
        ensures state { self.new.state ≡ self.old.state }
        ensures ends { PreservesCountsAtEnd self.old.state result }
        ensures letter { IsLetter result.found }
        ensures told { IfBehind self.old (λ letters. EndsWord self.old.state letters byte result self.new.reader) }
    {
        match feed(&mut self.reader, byte) {
            Fed::More => goes(self.state),
            fed => {
                self.reader = WordReader::new(self.state.spelling);
                word_step(self.state, fed)
            }
        }
    }

    // Takes the byte, unless it belongs to what ended. The first byte tells in which spelling words are read.
    fn begun(&mut self, ended: Step, byte: u8) -> Step
        requires reader { HasLetters self.old.reader }
        requires lines { HasLines ended.state }
        requires depth { depth_of ended.state.mode < 2 ^ 24 }
        ensures reader { HasLetters self.new.reader }
        ensures state { self.new.state ≡ self.old.state }
        ensures moves { PreservesCounts ended.state result }
        ensures letter { IsLetter result.found }
        ensures step { result ≡ begun_step ended byte }
        ensures told { KeepsLetters ended.state self.old.reader result.state self.new.reader }
    {
        if ended.taken {
            return goes(ended.state);
        }
        let step = taken_step(ended.state, byte);
        if ended.state.is_start() {
            self.reader = WordReader::new(step.state.spelling);
        }
        step
    }
}

// The answer of the reader, which goes on only where the word does.
fn feed(reader: &mut WordReader, byte: Option<u8>) -> Fed
    requires { HasLetters reader.old }
    ensures known { IsKnown result }
    ensures more { result ≡ More → HasLetters reader.new }
    ensures told { FeedsAny reader.old byte result reader.new }
{
    reader.feed(byte)
}
