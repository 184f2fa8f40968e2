// What a byte is by itself: layout, a letter, a digit, a sign, or the first byte of a word or a string.
ghost use Rattle.std.specs.Prelude.{◌≡◌, IsTrue, IfSome};
ghost use Rattle.gier_symbol.specs.Tags.{number_of};
ghost use Rattle.gier_symbol.specs.Texts.{stands_in};
ghost use Rattle.gier_pass1.specs.Bytes.{is_layout, is_letter, is_digit, starts_word, opener_of, sign_of, sign_kind, kind_of};
ghost use Rattle.gier_pass1.specs.Bytes.{single_sign, double_of, IsSignOfText};

use gier_symbol::{Spelling, Tag};

/// What a byte is where a symbol may begin.
#[derive(Debug, Clone, Copy, PartialEq, Eq)]
pub(crate) enum Kind {
    Layout,
    Letter,
    Digit,
    /// It begins a word.
    WordStart,
    /// It begins a string.
    StringStart,
    /// A sign that may be the first byte of a double one.
    DoubleSignPrefix(DoubleSignPrefix),
    /// Any other sign.
    Sign(Tag),
    /// None of these.
    Other,
}

/// A sign that may be the first byte of a double one.
#[derive(Debug, Clone, Copy, PartialEq, Eq)]
pub(crate) enum DoubleSignPrefix {
    Less,
    Greater,
    Colon,
}

/// What the byte is in this spelling.
pub(crate) fn kind_of(spelling: Spelling, byte: u8) -> Kind
    ensures kind { result ≡ kind_of spelling byte }
    ensures letter { IsSignOfText result }
{
    if is_layout(byte) {
        return Kind::Layout;
    }
    if is_letter(byte) {
        return Kind::Letter;
    }
    if is_digit(byte) {
        return Kind::Digit;
    }
    if starts_word(spelling, byte) {
        return Kind::WordStart;
    }
    if byte == b'{' {
        return Kind::StringStart;
    }
    sign_kind(byte)
}

// What a byte is that is no layout, letter or digit and begins no word and no string.
fn sign_kind(byte: u8) -> Kind
    ensures kind { result ≡ sign_kind byte }
    ensures letter { IsSignOfText result }
{
    match opener_of(byte) {
        Some(opener) => Kind::DoubleSignPrefix(opener),
        None => match sign_of(byte) {
            Some(tag) => Kind::Sign(tag),
            None => Kind::Other,
        },
    }
}

fn is_layout(byte: u8) -> bool
    ensures { result ≡ is_layout byte }
{
    byte == b'\t' || byte == b'\n' || byte == b'\r' || byte == b' '
}

fn is_letter(byte: u8) -> bool
    ensures { result ≡ is_letter byte }
{
    (b'a' <= byte && byte <= b'z') || (b'A' <= byte && byte <= b'Z')
}

fn is_digit(byte: u8) -> bool
    ensures { result ≡ is_digit byte }
{
    b'0' <= byte && byte <= b'9'
}

/// Whether the byte begins a word in this spelling.
pub(crate) fn starts_word(spelling: Spelling, byte: u8) -> bool
    ensures { result ≡ starts_word spelling byte }
{
    match spelling {
        Spelling::Plain => byte == b'_',
        Spelling::Quoted => byte == b'\'',
    }
}

fn opener_of(byte: u8) -> Option<DoubleSignPrefix>
    ensures { result ≡ opener_of byte }
{
    match byte {
        b'<' => Some(DoubleSignPrefix::Less),
        b'>' => Some(DoubleSignPrefix::Greater),
        b':' => Some(DoubleSignPrefix::Colon),
        _ => None,
    }
}

fn sign_of(byte: u8) -> Option<Tag>
    ensures sign { result ≡ sign_of byte }
    ensures letter { IfSome result (λ tag. IsTrue (stands_in 1 (number_of tag))) }
{
    match byte {
        b'+' => Some(Tag::Plus),
        b'-' => Some(Tag::Minus),
        b'*' => Some(Tag::Times),
        b'^' => Some(Tag::Power),
        b'=' => Some(Tag::Equal),
        b',' => Some(Tag::Comma),
        b';' => Some(Tag::Semicolon),
        b'(' => Some(Tag::LeftParenthesis),
        b')' => Some(Tag::RightParenthesis),
        b'[' => Some(Tag::LeftBracket),
        b']' => Some(Tag::RightBracket),
        _ => None,
    }
}

/// The sign alone.
pub(crate) fn alone(opener: DoubleSignPrefix) -> Tag
    ensures sign { result ≡ single_sign opener }
    ensures letter { IsTrue (stands_in 1 (number_of result)) }
{
    match opener {
        DoubleSignPrefix::Less => Tag::Less,
        DoubleSignPrefix::Greater => Tag::Greater,
        DoubleSignPrefix::Colon => Tag::Colon,
    }
}

/// The double sign that the byte makes of the sign, where it makes one.
pub(crate) fn double_of(opener: DoubleSignPrefix, byte: u8) -> Option<Tag>
    ensures sign { result ≡ double_of opener byte }
    ensures letter { IfSome result (λ tag. IsTrue (stands_in 1 (number_of tag))) }
{
    match opener {
        DoubleSignPrefix::Less => match byte {
            b'=' => Some(Tag::NotGreater),
            b'>' => Some(Tag::NotEqual),
            _ => None,
        },
        DoubleSignPrefix::Greater => match byte {
            b'=' => Some(Tag::NotLess),
            _ => None,
        },
        DoubleSignPrefix::Colon => match byte {
            b'=' => Some(Tag::Becomes),
            _ => None,
        },
    }
}
