// Prints a row of a listing: `  6  JUMP 14      line 2    track 0 word 6`.
ghost use Rattle.gier_word.specs.Cause.{HasCause};

use crate::line::Line;
use crate::row::{Row, Shown};
use gier_io::Sink;
use gier_order::{Fields, Operation, Order};
use gier_word::Failed;

// Addresses have so many digits or more.
const ADDRESS_WIDTH: usize = 3;

// Where the line begins behind an order, and the track behind the line.
const LINE_COLUMN: usize = 18;

const TRACK_COLUMN: usize = 28;

/// Prints a row; `label` tells whether a label stands there. `Failed` comes only where the printer's count of faults rose.
pub(crate) fn put_row<K: Sink>(row: Row, label: bool, out: &mut K) -> Result<(), Failed>
    ensures { HasCause (K.faults out.old) (K.faults out.new) result }
{
    let mut line = Line::new();
    line.number_in(u64::from(row.address), ADDRESS_WIDTH);
    line.text(if label { b": " } else { b"  " });
    add_content(&mut line, row.shown);
    line.fill(LINE_COLUMN);
    line.text(b"line ");
    line.number(u64::from(row.line));
    line.fill(TRACK_COLUMN);
    line.text(b"track ");
    line.number(u64::from(row.track));
    line.text(b" word ");
    line.number(u64::from(row.place));
    line.text(b"\n");
    line.put(out)
}

fn add_content(line: &mut Line, shown: Shown) {
    match shown {
        Shown::Decoded(order) => add_order(line, order),
        Shown::Bare(word) => add_word(line, word),
    }
}

fn add_word(line: &mut Line, word: u64) {
    line.text(b"word ");
    line.number(word);
}

// The name of an order and the fields that it uses. One without a name is shown by its number.
fn add_order(line: &mut Line, order: Order) {
    let Some(operation) = Operation::of(order.op) else {
        add_word(line, u64::from(order.op));
        return;
    };
    line.text(operation.name().as_bytes());
    match operation.fields() {
        Fields::Both => {
            add_field(line, b" ", u64::from(order.level));
            add_field(line, b", ", u64::from(order.address));
        }
        Fields::Level => add_field(line, b" ", u64::from(order.level)),
        Fields::Address => add_field(line, b" ", u64::from(order.address)),
        Fields::Neither => {}
    }
}

fn add_field(line: &mut Line, before: &[u8], number: u64) {
    line.text(before);
    line.number(number);
}
