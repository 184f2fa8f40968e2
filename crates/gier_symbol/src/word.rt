// The words of a program by their names. How a word is read byte by byte isn't told here.
ghost use Rattle.std.specs.Prelude.{◌≡◌, find};
ghost use Rattle.gier_symbol.specs.Words.{tag_named, word_symbols};
ghost use Rattle.gier_symbol.specs.Tags.{name_of};
ghost use Rattle.std.specs.Str.{bytes_eq};

use crate::Tag;

/// The two spellings of a program.
#[derive(Debug, Clone, Copy, PartialEq, Eq)]
pub enum Spelling {
    /// Words are `_` and lower-case letters, as `_begin`.
    Plain,
    /// Words are upper-case letters between two `'`, as `'BEGIN'`.
    Quoted,
}

// The symbols that are spelled as words.
const WORD_SYMBOLS: [Tag; 28] = [
    Tag::Div,
    Tag::Not,
    Tag::And,
    Tag::Or,
    Tag::Impl,
    Tag::Equiv,
    Tag::True,
    Tag::False,
    Tag::Begin,
    Tag::End,
    Tag::If,
    Tag::Then,
    Tag::Else,
    Tag::For,
    Tag::Step,
    Tag::Until,
    Tag::While,
    Tag::Do,
    Tag::Goto,
    Tag::Integer,
    Tag::Boolean,
    Tag::Array,
    Tag::Switch,
    Tag::Procedure,
    Tag::String,
    Tag::Label,
    Tag::Value,
    Tag::Own,
];

/// The number of the comment word, which is no symbol.
pub const COMMENT_WORD: u16 = 56;

/// The number of the word with this name in lower-case letters, or None where the name is no word's: the tag of its
/// symbol, or `COMMENT_WORD`.
#[tactic(auto, unfolding(crate::specs::Words::tag_named))]
pub fn word_named(name: &[u8]) -> Option<u16>
    ensures { result ≡ tag_named name.now }
{
    if b"comment".as_slice() == name {
        return Some(COMMENT_WORD);
    }
    match symbol_named(name) {
        Some(word) => Some(word.number()),
        None => None,
    }
}

fn symbol_named(name: &[u8]) -> Option<Tag>
    ensures { result ≡ find (λ word. bytes_eq (name_of word) name.now) word_symbols }
{
    WORD_SYMBOLS
        .iter()
        .copied()
        .find(|word| word.name() == name)
}
