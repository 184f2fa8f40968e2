// The steps of the reading, each a small function of where it stands and of one byte. They take nothing from a tape and
// write nothing.
ghost use Rattle.std.specs.Prelude.{◌≡◌, ◌<◌, ◌≤◌, ◌+◌, ◌-◌, ◌^◌, IsTrue, IfSome, true};
ghost use Rattle.gier_symbol.specs.Tags.{number_of};
ghost use Rattle.gier_symbol.specs.Texts.{stands_in};
ghost use Rattle.gier_pass1.specs.declared.state.Mode.TheVariants.{AfterPrefix, InWord, InString, InComment, InSkipped};
ghost use Rattle.gier_pass1.specs.declared.state.Mode.TheVariants.{InSkippedWord};
ghost use Rattle.gier_pass1.specs.Scan.{depth_of, goes, stays, sign_step, sign_ended, double_behind, word_step, word_found};
ghost use Rattle.gier_pass1.specs.Scan.{word_wrong, plain_word, comment_word, mode_behind, skipped_word, skipped_on};
ghost use Rattle.gier_pass1.specs.Scan.{fault_of_word, taken_step, first_step, begin_step, one_byte, opens, string_starts};
ghost use Rattle.gier_pass1.specs.Scan.{string_step, string_shut, string_byte, comment_step, skipped_step, at_end};
ghost use Rattle.gier_pass1.specs.StepCounts.{IsLetter, IsKnown, IsOpened, HasLines, PreservesCountsAtEnd, PreservesCounts};
ghost use Rattle.gier_pass1.specs.StepCounts.{is_word_number, symbols_in, faults_in, owed_faults};

use crate::bytes::{DoubleSignPrefix, Kind, alone, double_of, kind_of, starts_word};
use crate::state::{Mode, State, Step, Token};
use gier_strop::Fed;
use gier_symbol::{COMMENT_WORD, Spelling, Tag};
use gier_text::FaultKind;

// The byte is taken and nothing found.
pub(crate) fn goes(state: State) -> Step
    ensures { result ≡ goes state }
{
    Step {
        state,
        found: Token::Nothing,
        taken: true,
    }
}

// The byte doesn't belong here.
fn stays(state: State) -> Step
    ensures { result ≡ stays state }
{
    Step {
        state,
        found: Token::Nothing,
        taken: false,
    }
}

/// Ends the sign that was begun, if there is one, with the next byte or before it or before the end.
pub(crate) fn sign_step(state: State, byte: Option<u8>) -> Step
    requires { HasLines state }
    ensures step { result ≡ sign_step state byte }
    ensures ends { PreservesCountsAtEnd state result }
    ensures letter { IsLetter result.found }
{
    match state.mode {
        Mode::AfterPrefix(opener) => sign_ended(state, opener, byte),
        _ => stays(state),
    }
}

fn sign_ended(state: State, opener: DoubleSignPrefix, byte: Option<u8>) -> Step
    requires lines { HasLines state }
    requires mode { state.mode ≡ AfterPrefix opener }
    ensures step { result ≡ sign_ended state opener byte }
    ensures ends { PreservesCountsAtEnd state result }
    ensures letter { IsLetter result.found }
{
    let next = State {
        mode: Mode::Between,
        may_comment: false,
        ..state
    };
    match double_behind(opener, byte) {
        Some(tag) => Step {
            state: next,
            found: state.began_symbol(tag.number()),
            taken: true,
        },
        None => Step {
            state: next,
            found: state.began_symbol(alone(opener).number()),
            taken: false,
        },
    }
}

fn double_behind(opener: DoubleSignPrefix, byte: Option<u8>) -> Option<Tag>
    ensures sign { result ≡ double_behind opener byte }
    ensures letter { IfSome result (λ tag. IsTrue (stands_in 1 (number_of tag))) }
{
    match byte {
        Some(byte) => double_of(opener, byte),
        None => None,
    }
}

/// Ends the word that is being read, or goes on with it, by the answer of its reader.
pub(crate) fn word_step(state: State, fed: Fed) -> Step
    requires lines { HasLines state }
    requires known { IsKnown fed }
    ensures step { result ≡ word_step state fed }
    ensures ends { PreservesCountsAtEnd state result }
    ensures letter { IsLetter result.found }
{
    match fed {
        Fed::More => goes(state),
        Fed::Word(number) => word_found(state, number, true),
        Fed::Fault => word_wrong(state, true),
        Fed::WordBefore(number) => word_found(state, number, false),
        Fed::FaultBefore => word_wrong(state, false),
    }
}

fn word_found(state: State, number: u16, taken: bool) -> Step
    requires lines { HasLines state }
    requires known { IsTrue (is_word_number number) }
    ensures step { result ≡ word_found state number taken }
    ensures ends { PreservesCountsAtEnd state result }
    ensures letter { IsLetter result.found }
{
    match state.mode {
        Mode::InWord => plain_word(state, number, taken),
        Mode::InSkippedWord => skipped_word(state, number, taken),
        _ => stays(state),
    }
}

// A word outside of what is skipped.
fn plain_word(state: State, number: u16, taken: bool) -> Step
    requires lines { HasLines state }
    requires known { IsTrue (is_word_number number) }
    requires mode { state.mode ≡ InWord }
    ensures step { result ≡ plain_word state number taken }
    ensures ends { PreservesCountsAtEnd state result }
    ensures letter { IsLetter result.found }
{
    if number == COMMENT_WORD {
        return comment_word(state, taken);
    }
    Step {
        state: State {
            mode: mode_behind(number),
            may_comment: number == Tag::Begin.number(),
            ..state
        },
        found: state.began_symbol(number),
        taken,
    }
}

// The comment word is a fault where no comment may begin.
fn comment_word(state: State, taken: bool) -> Step
    requires lines { HasLines state }
    requires mode { state.mode ≡ InWord }
    ensures step { result ≡ comment_word state taken }
    ensures ends { PreservesCountsAtEnd state result }
    ensures letter { IsLetter result.found }
{
    if state.may_comment {
        Step {
            state: State {
                mode: Mode::InComment,
                ..state
            },
            found: Token::Nothing,
            taken,
        }
    } else {
        fault_of_word(state, taken)
    }
}

// What is read behind a word: the end word begins what is skipped.
fn mode_behind(number: u16) -> Mode
    ensures mode { result ≡ mode_behind number }
    ensures depth { depth_of result ≡ 0 }
{
    if number == Tag::End.number() {
        Mode::InSkipped
    } else {
        Mode::Between
    }
}

// A word in what is skipped: the end word and the else word end it.
fn skipped_word(state: State, number: u16, taken: bool) -> Step
    requires lines { HasLines state }
    requires mode { state.mode ≡ InSkippedWord }
    ensures step { result ≡ skipped_word state number taken }
    ensures ends { PreservesCountsAtEnd state result }
    ensures letter { IsLetter result.found }
{
    if number == Tag::End.number() || number == Tag::Else.number() {
        Step {
            state: State {
                mode: mode_behind(number),
                may_comment: false,
                ..state
            },
            found: state.began_symbol(number),
            taken,
        }
    } else {
        skipped_on(state, taken)
    }
}

// A word that doesn't end what is skipped.
fn skipped_on(state: State, taken: bool) -> Step
    requires lines { HasLines state }
    requires mode { state.mode ≡ InSkippedWord }
    ensures step { result ≡ skipped_on state taken }
    ensures ends { PreservesCountsAtEnd state result }
    ensures letter { IsLetter result.found }
{
    Step {
        state: State {
            mode: Mode::InSkipped,
            ..state
        },
        found: Token::Nothing,
        taken,
    }
}

fn word_wrong(state: State, taken: bool) -> Step
    requires { HasLines state }
    ensures step { result ≡ word_wrong state taken }
    ensures ends { PreservesCountsAtEnd state result }
    ensures letter { IsLetter result.found }
{
    match state.mode {
        Mode::InWord => fault_of_word(state, taken),
        Mode::InSkippedWord => skipped_on(state, taken),
        _ => stays(state),
    }
}

fn fault_of_word(state: State, taken: bool) -> Step
    requires lines { HasLines state }
    requires mode { state.mode ≡ InWord }
    ensures step { result ≡ fault_of_word state taken }
    ensures ends { PreservesCountsAtEnd state result }
    ensures letter { IsLetter result.found }
{
    Step {
        state: State {
            mode: Mode::Between,
            may_comment: false,
            ..state
        },
        found: state.began_fault(FaultKind::Word),
        taken,
    }
}

/// Takes a byte that belongs to no sign or word that was begun.
pub(crate) fn taken_step(state: State, byte: u8) -> Step
    requires lines { HasLines state }
    requires depth { depth_of state.mode < 2 ^ 24 }
    ensures step { result ≡ taken_step state byte }
    ensures moves { PreservesCounts state result }
    ensures letter { IsLetter result.found }
    ensures taken { result.taken ≡ true }
{
    match state.mode {
        Mode::Start => first_step(state, byte),
        Mode::InString(depth) => string_step(state, depth, byte),
        Mode::InComment => comment_step(state, byte),
        Mode::InSkipped => skipped_step(state, byte),
        _ => begin_step(state, byte),
    }
}

// The first byte: a `!` tells the quoted spelling.
fn first_step(state: State, byte: u8) -> Step
    requires { HasLines state }
    ensures step { result ≡ first_step state byte }
    ensures moves { PreservesCounts state result }
    ensures letter { IsLetter result.found }
    ensures taken { result.taken ≡ true }
{
    if byte == b'!' {
        goes(State {
            spelling: Spelling::Quoted,
            mode: Mode::Between,
            ..state
        })
    } else {
        begin_step(state, byte)
    }
}

// A byte with which a symbol may begin.
fn begin_step(state: State, byte: u8) -> Step
    requires { HasLines state }
    ensures step { result ≡ begin_step state byte }
    ensures moves { PreservesCounts state result }
    ensures letter { IsLetter result.found }
    ensures taken { result.taken ≡ true }
{
    match kind_of(state.spelling, byte) {
        Kind::Layout => goes(State {
            mode: Mode::Between,
            ..state
        }),
        Kind::Letter => one_byte(state, Tag::Letter, byte),
        Kind::Digit => one_byte(state, Tag::Digit, digit_value(byte)),
        Kind::WordStart => opens(state, Mode::InWord),
        Kind::StringStart => string_starts(state),
        Kind::DoubleSignPrefix(opener) => opens(state, Mode::AfterPrefix(opener)),
        Kind::Sign(tag) => one_byte(state, tag, 0),
        Kind::Other => Step {
            state: State {
                mode: Mode::Between,
                may_comment: false,
                ..state
            },
            found: state.here_fault(FaultKind::Character),
            taken: true,
        },
    }
}

// A symbol of one byte.
fn one_byte(state: State, tag: Tag, value: u8) -> Step
    requires lines { HasLines state }
    requires letter { IsTrue (stands_in 1 (number_of tag)) }
    ensures step { result ≡ one_byte state tag value }
    ensures moves { PreservesCounts state result }
    ensures letter { IsLetter result.found }
    ensures taken { result.taken ≡ true }
{
    Step {
        state: State {
            mode: Mode::Between,
            may_comment: tag.number() == Tag::Semicolon.number(),
            ..state
        },
        found: state.here_symbol(tag, value),
        taken: true,
    }
}

fn digit_value(byte: u8) -> u8
    ensures { result ≡ byte - 48 }
{
    byte.saturating_sub(b'0')
}

// A word or a sign begins here.
fn opens(state: State, mode: Mode) -> Step
    requires lines { HasLines state }
    requires mode { IsOpened mode }
    ensures step { result ≡ opens state mode }
    ensures moves { PreservesCounts state result }
    ensures letter { IsLetter result.found }
    ensures taken { result.taken ≡ true }
{
    goes(State {
        mode,
        began: state.here,
        ..state
    })
}

fn string_starts(state: State) -> Step
    requires { HasLines state }
    ensures step { result ≡ string_starts state }
    ensures moves { PreservesCounts state result }
    ensures letter { IsLetter result.found }
    ensures taken { result.taken ≡ true }
{
    Step {
        state: State {
            mode: Mode::InString(1),
            may_comment: false,
            began: state.here,
            ..state
        },
        found: state.here_symbol(Tag::StringBegin, 0),
        taken: true,
    }
}

// A byte behind the `{` of a string.
fn string_step(state: State, depth: u32, byte: u8) -> Step
    requires lines { HasLines state }
    requires mode { state.mode ≡ InString depth }
    requires depth { depth < 2 ^ 24 }
    ensures step { result ≡ string_step state depth byte }
    ensures moves { PreservesCounts state result }
    ensures letter { IsLetter result.found }
    ensures taken { result.taken ≡ true }
{
    if byte == b'{' {
        return string_byte(state, depth, depth + 1, byte);
    }
    if byte == b'}' {
        return string_shut(state, depth, byte);
    }
    string_byte(state, depth, depth, byte)
}

// The string ends with the `}` that its own `{` waits for.
fn string_shut(state: State, depth: u32, byte: u8) -> Step
    requires lines { HasLines state }
    requires mode { state.mode ≡ InString depth }
    ensures step { result ≡ string_shut state depth byte }
    ensures moves { PreservesCounts state result }
    ensures letter { IsLetter result.found }
    ensures taken { result.taken ≡ true }
{
    if depth <= 1 {
        return Step {
            state: State {
                mode: Mode::Between,
                ..state
            },
            found: state.here_symbol(Tag::StringEnd, 0),
            taken: true,
        };
    }
    string_byte(state, depth, depth - 1, byte)
}

fn string_byte(state: State, depth: u32, next: u32, byte: u8) -> Step
    requires lines { HasLines state }
    requires mode { state.mode ≡ InString depth }
    requires next { next ≤ depth + 1 }
    ensures step { result ≡ string_byte state next byte }
    ensures moves { PreservesCounts state result }
    ensures letter { IsLetter result.found }
    ensures taken { result.taken ≡ true }
{
    Step {
        state: State {
            mode: Mode::InString(next),
            ..state
        },
        found: state.here_symbol(Tag::StringByte, byte),
        taken: true,
    }
}

// A byte of a comment, which ends with the first `;`. Another comment may follow.
fn comment_step(state: State, byte: u8) -> Step
    requires lines { HasLines state }
    requires mode { state.mode ≡ InComment }
    ensures step { result ≡ comment_step state byte }
    ensures moves { PreservesCounts state result }
    ensures letter { IsLetter result.found }
    ensures taken { result.taken ≡ true }
{
    if byte == b';' {
        goes(State {
            mode: Mode::Between,
            ..state
        })
    } else {
        goes(state)
    }
}

// A byte of what is skipped behind an end word, which ends before the first `;`.
fn skipped_step(state: State, byte: u8) -> Step
    requires lines { HasLines state }
    requires mode { state.mode ≡ InSkipped }
    ensures step { result ≡ skipped_step state byte }
    ensures moves { PreservesCounts state result }
    ensures letter { IsLetter result.found }
    ensures taken { result.taken ≡ true }
{
    if byte == b';' {
        return begin_step(state, byte);
    }
    if starts_word(state.spelling, byte) {
        return opens(state, Mode::InSkippedWord);
    }
    goes(state)
}

/// What the end gives, before which this step stands: a string that isn't closed is a fault.
pub(crate) fn at_end(step: Step) -> Token
    requires { IsLetter step.found }
    ensures found { result ≡ at_end step }
    ensures letter { IsLetter result }
    ensures symbols { symbols_in result ≤ symbols_in step.found }
    ensures faults { faults_in result ≤ faults_in step.found + owed_faults step.state.mode }
{
    match step.state.mode {
        Mode::InString(_) => step.state.began_fault(FaultKind::Unclosed),
        _ => step.found,
    }
}
