// Reads the word of a row from the drum.
ghost use Rattle.std.specs.Prelude.{◌≡◌, ◌<◌, ◌+◌, ◌/◌, ◌^◌, ℕ, List, IfOk, Some};
ghost use Rattle.gier_word.specs.Cause.{HasCause};
ghost use Rattle.gier_rows.specs.Rows.{IsRow, word_on};

use crate::row::Row;
use gier_drum::Drum;
use gier_limits::WORDS_ON_TRACK;
use gier_order::Object;
use gier_symbol::Symbol;
use gier_word::Failed;

/// The row of the word that stands at this address of an object on the drum. The symbol is the one that stands for the word in the
/// text of orders. `Failed` comes only where the drum's count of faults rose.
pub fn read_row<D: Drum>(
    object: &Object,
    address: u32,
    symbol: Symbol,
    drum: &mut D,
) -> Result<Row, Failed>
    requires fits { object.now.first_track + address / 40 < 2 ^ 32 }
    requires in_room { object.now.first_track + address / 40 < D.room drum.old }
    ensures row { (tracks : List (List ℕ)) → D.tracks drum.old ≡ Some tracks
        → IfOk result (IsRow address (word_on tracks object.now.first_track address) symbol) }
    ensures room { D.room drum.new ≡ D.room drum.old }
    ensures tracks { D.tracks drum.new ≡ D.tracks drum.old }
    ensures cause { HasCause (D.faults drum.old) (D.faults drum.new) result }
{
    let mut words = [0; 40];
    match drum.read(object.first_track + address / WORDS_ON_TRACK, &mut words) {
        Ok(()) => Ok(Row::of(address, words[(address % WORDS_ON_TRACK) as usize], symbol)),
        Err(failed) => Err(failed),
    }
}
