// The list of words: labels, switches and procedures of the program are numbered from 0, all other labels from `FIRST_OTHER` up.
// The words of both kinds stand side by side, so the list grows, and memory is touched, only as far as the greatest number whose
// word was set.
ghost use Rattle.std.specs.Prelude.{◌≡◌, ◌≢◌, ◌<◌, ◌≤◌, ◌+◌, ◌-◌, ◌*◌, ◌^◌, ℕ, [], length};
ghost use Rattle.gier_text.specs.TablesModel.{tables_model};
ghost use Rattle.gier_text.specs.Lists.{list_at};
ghost use Rattle.gier_labels.specs.Labels.{HasLabels, KeepsOthers, part_of, word_of};
ghost use Rattle.gier_tree.specs.Complete.{place_of};

use gier_text::Tables;

/// The first number of a label that the program doesn't declare.
pub const FIRST_OTHER: u64 = 1 << 23;

const LABELS: u8 = 0;

// An entry is the word of a declared label, and that of another one.
const WIDTH: u8 = 2;

const DECLARED: u8 = 0;

const OTHER: u8 = 1;

fn part_of(number: u64) -> u8
    ensures { result ≡ part_of number }
{
    if number < FIRST_OTHER {
        DECLARED
    } else {
        OTHER
    }
}

fn place_of(number: u64) -> u64
    ensures { result ≡ place_of number }
{
    if number < FIRST_OTHER {
        number
    } else {
        number - FIRST_OTHER
    }
}

/// Opens the words as the first list of the tables, for `room` numbers of each kind.
pub fn open(tables: &mut Tables, room: u32)
    requires none { (tables_model tables.old).lists ≡ [] }
    requires fits { (tables_model tables.old).used + 2 * room ≤ 62 * (tables_model tables.old).limit + 4092 }
    ensures labels { HasLabels room (tables_model tables.new) }
    ensures none { (number : ℕ) → word_of (tables_model tables.new) number ≡ 0 }
    ensures lists { length (tables_model tables.new).lists ≡ 1 }
    ensures used { (tables_model tables.new).used ≡ (tables_model tables.old).used + 2 * room }
    ensures limit { (tables_model tables.new).limit ≡ (tables_model tables.old).limit }
    ensures faults { (tables_model tables.new).faults ≡ (tables_model tables.old).faults }
{
    tables.list(WIDTH, room);
}

/// The word of the label with this number, or 0 where none was set.
pub fn word(tables: &Tables, number: u64) -> u64
    requires labels { (room : ℕ) × HasLabels room (tables_model tables.now) }
    ensures value { result ≡ word_of (tables_model tables.now) number }
    ensures small { result < 2 ^ 40 }
{
    let place = place_of(number);
    if place < u64::from(tables.len(LABELS)) {
        tables.word(LABELS, place as u32, part_of(number))
    } else {
        0
    }
}

// Fills the list with zeros as far as this place.
fn reach(tables: &mut Tables, place: u32, room: u32)
    requires labels { HasLabels room (tables_model tables.old) }
    requires place { place < room }
    ensures labels { HasLabels room (tables_model tables.new) }
    ensures others { KeepsOthers (tables_model tables.old) (tables_model tables.new) }
    ensures words { (number : ℕ) → word_of (tables_model tables.new) number ≡ word_of (tables_model tables.old) number }
    ensures reached { place < (list_at (tables_model tables.new).lists 0).count }
{
    for _turn in tables.len(LABELS)..place + 1 {
        tables.push(LABELS, &[0, 0]);
    }
}

/// Sets the word of the label with this number. Of a number that there is no room for nothing is kept.
pub fn set_word(tables: &mut Tables, number: u64, word: u64, room: u32)
    requires labels { HasLabels room (tables_model tables.old) }
    requires small { word < 2 ^ 40 }
    ensures labels { HasLabels room (tables_model tables.new) }
    ensures set { place_of number < room → word_of (tables_model tables.new) number ≡ word }
    ensures unset { room ≤ place_of number → word_of (tables_model tables.new) number ≡ word_of (tables_model tables.old) number }
    ensures rest { (label : ℕ) → label ≢ number
        → word_of (tables_model tables.new) label ≡ word_of (tables_model tables.old) label }
    ensures others { KeepsOthers (tables_model tables.old) (tables_model tables.new) }
{
    let place = place_of(number);
    if place < u64::from(room) {
        reach(tables, place as u32, room);
        tables.set_word(LABELS, place as u32, part_of(number), word);
    }
}
