// The 40 words of a track as 320 bytes, 8 bytes a word, least significant first. It touches no file.
ghost use Rattle.std.specs.Prelude.{◌≡◌, ◌<◌, ◌≢◌, ◌^◌, ℕ, All, OnOk, get_or};
ghost use Rattle.gier_drum.specs.FileWords.{word_in, Decodes};

use gier_word::Failed;

// How many bytes a word takes.
const WORD_BYTES: usize = 8;

// Words are below this.
const WORD_LIMIT: u64 = 1 << 40;

fn word_of(bytes: &[u8; 320], place: usize) -> u64
    requires { place < 40 }
    ensures { result ≡ word_in bytes.now place }
{
    let at = place * WORD_BYTES;
    u64::from_le_bytes([
        bytes[at],
        bytes[at + 1],
        bytes[at + 2],
        bytes[at + 3],
        bytes[at + 4],
        bytes[at + 5],
        bytes[at + 6],
        bytes[at + 7],
    ])
}

/// The words in these bytes, or a refusal where one is none.
pub(crate) fn decode(bytes: &[u8; 320], into: &mut [u64; 40]) -> Result<(), Failed>
    ensures words { OnOk result (All (λ word. word < 2 ^ 40) into.new) }
    ensures exact { Decodes bytes.now result into.new }
{
    for place in 0..40 {
        let word = word_of(bytes, place);
        if word >= WORD_LIMIT {
            return Err(Failed);
        }
        into[place] = word;
    }
    Ok(())
}

// Puts a word in its place.
fn put_word(word: u64, place: usize, bytes: &mut [u8; 320])
    requires { place < 40 }
    ensures word { word_in bytes.new place ≡ word }
    ensures others { (other : ℕ) → other ≢ place → word_in bytes.new other ≡ word_in bytes.old other }
{
    let at = place * WORD_BYTES;
    let eight = word.to_le_bytes();
    for byte in 0..WORD_BYTES {
        bytes[at + byte] = eight[byte];
    }
}

/// The bytes of these words.
pub(crate) fn encode(words: &[u64; 40], bytes: &mut [u8; 320])
    ensures { (place : ℕ) → place < 40 → word_in bytes.new place ≡ get_or words.now place 0 }
{
    for place in 0..40 {
        put_word(words[place], place, bytes);
    }
}
