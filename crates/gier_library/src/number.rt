// How an integer is read byte by byte: where the reader stands, and what a byte does there. It calls no source.
ghost use Rattle.std.specs.Prelude.{◌≡◌, ◌∷◌, ℕ, List, pos, IsTrue, IfSome, IsNone, false};
ghost use Rattle.gier_word.specs.Operations.{InRange, is_in_range};
ghost use Rattle.gier_word.specs.Standard.{is_digit, is_skipped, with_digit, integer_read, sign_read, first_digit_read};
ghost use Rattle.gier_word.specs.Standard.{digits_read};
ghost use Rattle.gier_library.specs.Places.{read_from, read_after, outcome_at_end};

use gier_word::{Alarm, Int40};

/// Where the reader of an integer stands.
#[derive(Drop)]
pub(crate) enum Place {
    /// Before its sign or its first digit.
    Blank,
    /// Behind its sign; whether that is `-`.
    Signed(bool),
    /// Behind a digit: whether the sign is `-`, and the number so far.
    Digits(bool, Int40),
}

/// What a byte does.
#[derive(Drop)]
pub(crate) enum Step {
    /// The reader goes on from there.
    Goes(Place),
    /// The reading is over.
    Stops(Result<Int40, Alarm>),
}

/// What this byte does here.
pub(crate) fn step_at(place: Place, byte: u8) -> Step
    ensures { (rest : List ℕ) → read_from place (byte ∷ rest) ≡ read_after result rest }
{
    match place {
        Place::Blank => first_step(byte),
        Place::Signed(negative) => first_digit(negative, byte),
        Place::Digits(negative, n) => {
            if is_digit(byte) {
                next_digit(negative, n, byte)
            } else {
                Step::Stops(Ok(n))
            }
        }
    }
}

/// What the end of the data does here.
pub(crate) fn outcome_at_end(place: Place) -> Result<Int40, Alarm>
    ensures { result ≡ outcome_at_end place }
{
    match place {
        Place::Digits(_, n) => Ok(n),
        Place::Blank | Place::Signed(_) => Err(Alarm::Data),
    }
}

// A number that is known to be in the range.
pub(crate) fn number(n: i64) -> Int40
    requires { InRange n }
    ensures { result ≡ n }
{
    match Int40::of(n) {
        Some(number) => number,
        None => unreachable!(),
    }
}

fn first_step(byte: u8) -> Step
    ensures { (rest : List ℕ) → integer_read (byte ∷ rest) ≡ read_after result rest }
{
    if is_skipped(byte) {
        return Step::Goes(Place::Blank);
    }
    sign_step(byte)
}

fn sign_step(byte: u8) -> Step
    ensures { (rest : List ℕ) → sign_read byte rest ≡ read_after result rest }
{
    if byte == b'-' {
        return Step::Goes(Place::Signed(true));
    }
    if byte == b'+' {
        return Step::Goes(Place::Signed(false));
    }
    first_digit(false, byte)
}

fn first_digit(negative: bool, byte: u8) -> Step
    ensures { (rest : List ℕ) → first_digit_read negative (byte ∷ rest) ≡ read_after result rest }
{
    if is_digit(byte) {
        return next_digit(negative, number(0), byte);
    }
    Step::Stops(Err(Alarm::Data))
}

fn next_digit(negative: bool, n: Int40, byte: u8) -> Step
    requires { IsTrue (is_digit byte) }
    ensures { (rest : List ℕ) → digits_read negative n (byte ∷ rest) ≡ read_after result rest }
{
    match with_digit(negative, n.get(), byte) {
        Some(more) => Step::Goes(Place::Digits(negative, more)),
        None => Step::Stops(Err(Alarm::Data)),
    }
}

// The number with one more digit, where it stays in the range.
fn with_digit(negative: bool, n: i64, byte: u8) -> Option<Int40>
    requires range { InRange n }
    requires digit { IsTrue (is_digit byte) }
    ensures value { IfSome result (λ more. more ≡ with_digit negative n byte) }
    ensures range { IfSome result (λ more. IsTrue (is_in_range (with_digit negative n byte))) }
    ensures beyond { IsNone result → is_in_range (with_digit negative n byte) ≡ false }
{
    let digit = i64::from(byte - b'0');
    if negative {
        Int40::of(n * 10 - digit)
    } else {
        Int40::of(n * 10 + digit)
    }
}

fn is_digit(byte: u8) -> bool
    ensures { result ≡ is_digit byte }
{
    byte >= b'0' && byte <= b'9'
}

fn is_skipped(byte: u8) -> bool
    ensures { result ≡ is_skipped byte }
{
    matches!(byte, b'\t' | b'\n' | b'\r' | b' ' | b',')
}
