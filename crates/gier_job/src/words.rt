// One word of the command line after the first: a setting such as `places=8` or `report=yes`.
// Which settings may stand together is told by command.rt.
ghost use Rattle.std.specs.Prelude.{◌≡◌, ◌<◌, ◌^◌, ℕ, IfSome, Some, IsTrue, decimal, codes};
ghost use Rattle.gier_job.specs.Words.{name_of, is_flag, least_of, greatest_of, value_text, IsPermitted, Makes};
ghost use Rattle.gier_job.specs.declared.words.Key.{Key};
ghost use Rattle.gier_job.specs.declared.words.Setting.{Setting};

use itoa::Buffer;

/// What a word can set.
#[derive(Debug, Clone, Copy, PartialEq, Eq, Default)]
pub enum Key {
    /// The track places, 1 to 64.
    #[default]
    Places,
    /// The permitted steps, 0 to 1,000,000,000,000.
    Steps,
    /// The permitted stack words, 64 to 1,000,000.
    Stack,
    /// Steps, transfers and stack words are printed.
    Report,
    /// The transfers for each number of places are printed.
    Table,
    /// The program is the sample with this number of calls, 0 to 2000.
    Sample,
    /// The cheapest plan of transfers is printed.
    Best,
    /// Where the run stopped is printed.
    Mortem,
}

/// A key with its value; that of a flag is 1.
#[derive(Debug, Clone, Copy, PartialEq, Eq, Default)]
pub struct Setting {
    pub key: Key,
    pub value: u64,
}

impl Key {
    fn is_flag(self) -> bool
        ensures { result ≡ is_flag self }
    {
        matches!(self, Key::Report | Key::Table | Key::Best | Key::Mortem)
    }

    fn least(self) -> u64
        ensures { result ≡ least_of self }
    {
        match self {
            Key::Steps | Key::Sample => 0,
            Key::Stack => 64,
            Key::Places | Key::Report | Key::Table | Key::Best | Key::Mortem => 1,
        }
    }

    fn greatest(self) -> u64
        ensures { result ≡ greatest_of self }
    {
        match self {
            Key::Places => 64,
            Key::Steps => 1_000_000_000_000,
            Key::Stack => 1_000_000,
            Key::Sample => 2000,
            Key::Report | Key::Table | Key::Best | Key::Mortem => 1,
        }
    }
}

/// The setting that a word makes, or None where it makes none.
pub fn read_setting(word: &str) -> Option<Setting>
    ensures some { IfSome result (λ setting. Makes word.now setting) }
    ensures only { (setting : Setting) → Makes word.now setting → result ≡ Some setting }
{
    let (name, text) = word.split_once('=')?;
    let key = key_named(name)?;
    let value = read_value(key, text)?;
    Some(Setting { key, value })
}

fn key_named(name: &str) -> Option<Key>
    ensures some { IfSome result (λ key. name.now ≡ name_of key) }
    ensures only { (key : Key) → name.now ≡ name_of key → result ≡ Some key }
{
    match name {
        "places" => Some(Key::Places),
        "steps" => Some(Key::Steps),
        "stack" => Some(Key::Stack),
        "report" => Some(Key::Report),
        "table" => Some(Key::Table),
        "sample" => Some(Key::Sample),
        "best" => Some(Key::Best),
        "mortem" => Some(Key::Mortem),
        _ => None,
    }
}

fn read_value(key: Key, text: &str) -> Option<u64>
    ensures some { IfSome result (λ n. (text.now ≡ value_text key n) × IsPermitted key n) }
    ensures only { (n : ℕ) → text.now ≡ value_text key n → IsPermitted key n → result ≡ Some n }
{
    let value = if key.is_flag() {
        read_yes(text)?
    } else {
        read_number(text)?
    };
    if key.least() <= value && value <= key.greatest() {
        Some(value)
    } else {
        None
    }
}

fn read_yes(text: &str) -> Option<u64>
    ensures some { IfSome result (λ n. (text.now ≡ codes "yes") × (n ≡ 1)) }
    ensures only { text.now ≡ codes "yes" → result ≡ Some 1 }
{
    if text == "yes" { Some(1) } else { None }
}

// A number as it is printed: digits, and no zero before others.
fn read_number(text: &str) -> Option<u64>
    ensures some { IfSome result (λ n. text.now ≡ decimal n) }
    ensures only { (n : ℕ) → n < 2 ^ 64 → text.now ≡ decimal n → result ≡ Some n }
{
    match text.parse::<u64>() {
        Ok(n) => {
            if Buffer::new().format(n) == text {
                return Some(n);
            }
            None
        }
        Err(_) => None,
    }
}
