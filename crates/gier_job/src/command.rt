// The command: what all words together ask for. One word alone is read by words.rt.
ghost use Rattle.std.specs.Prelude.{◌≡◌, ◌≢◌, ◌↔◌, Bool, IfOk, IfErr, IfSome, IsNone, IsTrue, Some, map, All};
ghost use Rattle.std.specs.String.{string_bytes};
ghost use Rattle.gier_job.specs.Words.{IsPermitted, Makes};
ghost use Rattle.gier_job.specs.declared.command.Command.{Command};
ghost use Rattle.gier_job.specs.declared.words.Setting.{Setting};
ghost use Rattle.gier_job.specs.Command.{MayStand, NotGiven, plain_command, with_key, with_settings, IsFew, IsWithin};
ghost use Rattle.gier_job.specs.Command.{IsCommand, IsFirstWrong, mode_word};

use crate::words::{Key, Setting, read_setting};
use arrayvec::ArrayVec;
use gier_runner::Settings;

/// What the words of the command line ask for.
#[derive(Debug, Clone, Copy, PartialEq, Eq)]
pub struct Command {
    /// The program is checked and not run.
    pub check: bool,
    /// The limits of the run.
    pub settings: Settings,
    /// Steps, transfers and stack words are printed.
    pub report: bool,
    /// The transfers for 1 to 64 places are printed.
    pub table: bool,
    /// The program is the sample with this number of calls, at most 2000.
    pub sample: Option<u16>,
    /// The cheapest plan of transfers is printed.
    pub best: bool,
    /// Where the run stopped is printed.
    pub mortem: bool,
}

// As many settings as there are keys.
const KEYS: usize = 8;

/// The command that the words give, or the number of the first wrong word, from 1.
///
/// Word 1 is `check` or `run`. After `run` may stand, in any order and each at most once, `places=` 1 to 64 (else 8),
/// `steps=` 0 to 1000000000000 (else 10000000), `stack=` 64 to 1000000 (else 20000), `report=yes`, `table=yes`,
/// `sample=` 0 to 2000, `best=yes` and `mortem=yes`; after `check` only `sample=`. Numbers have no leading zero.
/// An empty list has the wrong word 1.
pub fn read_words(words: &[String]) -> Result<Command, u32>
    ensures command { IfOk result (λ command. IsCommand (map string_bytes words.now) command) }
    ensures only { IfOk result (λ command. (other : Command) → IsCommand (map string_bytes words.now) other → other ≡ command) }
    ensures few { IfOk result (λ command. IsFew command.sample) }
    ensures within { IfOk result (λ command. IsWithin command.settings) }
    ensures wrong { IfErr result (λ number. IsFirstWrong (map string_bytes words.now) number) }
{
    let Some((first, rest)) = words.split_first() else {
        return Err(1);
    };
    let Some(check) = read_mode(first.as_str()) else {
        return Err(1);
    };
    let mut given = ArrayVec::<Setting, KEYS>::new();
    for word in rest {
        match next_setting(check, given.as_slice(), word.as_str()) {
            Some(setting) => given.push(setting),
            None => return Err(given.len() as u32 + 2),
        }
    }
    Ok(command_of(check, given.as_slice()))
}

// Whether the first word is `check`, or None where it is neither that nor `run`.
fn read_mode(word: &str) -> Option<bool>
    ensures some { IfSome result (λ check. word.now ≡ mode_word check) }
    ensures none { IsNone result → (check : Bool) → word.now ≢ mode_word check }
{
    match word {
        "check" => Some(true),
        "run" => Some(false),
        _ => None,
    }
}

// The setting that a word makes where it may stand behind those that are given.
fn next_setting(check: bool, given: &[Setting], word: &str) -> Option<Setting>
    ensures some { IfSome result (λ s. Makes word.now s × MayStand check s.key × NotGiven s.key given.now) }
    ensures same { IfSome result (λ s. (t : Setting) → Makes word.now t → Some s ≡ Some t) }
    ensures none { IsNone result → (t : Setting) → Makes word.now t → MayStand check t.key → NotGiven t.key given.now → ⊥ }
{
    let setting = read_setting(word)?;
    if may_follow(check, given, setting.key) {
        Some(setting)
    } else {
        None
    }
}

fn may_follow(check: bool, given: &[Setting], key: Key) -> bool
    ensures { IsTrue result ↔ (MayStand check key × NotGiven key given.now) }
{
    may_stand(check, key) && is_free(given, key)
}

fn may_stand(check: bool, key: Key) -> bool
    ensures { IsTrue result ↔ MayStand check key }
{
    !check || key == Key::Sample
}

fn is_free(given: &[Setting], key: Key) -> bool
    ensures { IsTrue result ↔ NotGiven key given.now }
{
    given.iter().all(|setting| setting.key != key)
}

fn command_of(check: bool, settings: &[Setting]) -> Command
    requires { All (λ s. IsPermitted s.key s.value) settings.now }
    ensures made { result ≡ with_settings (plain_command check) settings.now }
    ensures few { IsFew result.sample }
    ensures within { IsWithin result.settings }
{
    let mut command = plain(check);
    for setting in settings {
        set(&mut command, *setting);
    }
    command
}

fn plain(check: bool) -> Command
    ensures { result ≡ plain_command check }
{
    Command {
        check,
        settings: Settings {
            places: 8,
            steps: 10_000_000,
            stack: 20_000,
        },
        report: false,
        table: false,
        sample: None,
        best: false,
        mortem: false,
    }
}

fn set(command: &mut Command, setting: Setting)
    requires { IsPermitted setting.key setting.value }
    ensures made { command.new ≡ with_key command.old setting.key setting.value }
    ensures few { IsFew command.old.sample → IsFew command.new.sample }
    ensures within { IsWithin command.old.settings → IsWithin command.new.settings }
{
    match setting.key {
        Key::Places => command.settings.places = setting.value as u8,
        Key::Steps => command.settings.steps = setting.value,
        Key::Stack => command.settings.stack = setting.value as u32,
        Key::Report => command.report = true,
        Key::Table => command.table = true,
        Key::Sample => command.sample = Some(setting.value as u16),
        Key::Best => command.best = true,
        Key::Mortem => command.mortem = true,
    }
}
