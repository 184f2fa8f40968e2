// The state of the pass, and the few things that it does to its tables: write, add a fault, open and close.
ghost use Rattle.std.specs.Prelude.{◌≡◌, ◌≤◌, ◌+◌, ◌*◌, IsTrue};
ghost use Rattle.gier_symbol.specs.Symbols.{IsSymbol};
ghost use Rattle.gier_text.specs.Potential.{is_numbered};
ghost use Rattle.gier_text.specs.TablesModel.{tables_model};
ghost use Rattle.gier_pass6.specs.StateInvariants.{IsWritable};

use crate::open::{LAST_WORD, Location};
use crate::places::{Context, PendingName};
use crate::types::ValueType;
use gier_limits::FIRST_OWN_NAME;
use gier_symbol::{Symbol, Tag, stands_in};
use gier_text::{Fault, FaultKind, Tables, is_name, put};
use std::cmp;

/// The list of symbols that wait to be written.
pub(crate) const OUTBOX: u8 = 0;

const LAST_LINE: u32 = (1 << 24) - 1;

/// What the pass keeps beside the weight of what it has taken.
#[derive(Debug, Drop)]
pub(crate) struct State {
    // How many bytes the program has.
    pub(crate) bytes: u32,
    // How much of the weight that was taken may still be written.
    pub(crate) potential_left: u32,
    // How many symbols were taken, and the line of the last one.
    pub(crate) read: u32,
    pub(crate) line: u32,
    // The type of the operand that ended last.
    pub(crate) value: ValueType,
    pub(crate) held: PendingName,
    pub(crate) at: Context,
    // The identifier of an entry that has no description yet.
    pub(crate) entry: Option<u64>,
    // How many formals the procedure's head has so far.
    pub(crate) formals: u32,
}

/// The greatest weight of text 5 of a program of so many bytes, which is also the room of most lists.
pub(crate) fn room(bytes: u32) -> u32
    requires { bytes ≤ 524288 }
    ensures { result ≡ 8 * bytes + 64 }
{
    8 * bytes + 64
}

/// The room of the list of numbered places: an entry and its description weigh 2.
pub(crate) fn numbered_room(bytes: u32) -> u32
    requires { bytes ≤ 524288 }
    ensures { result ≡ 4 * bytes + 32 }
{
    4 * bytes + 32
}

// Names in text 6 have numbers below the bytes and this, and own quantities from this on.
const STANDARD: u64 = 64;

// Whether the value of an identifier is the number of one.
fn is_numbered(bytes: u32, s: Symbol) -> bool
    ensures { result ≡ is_numbered 6 bytes s }
{
    let bytes = u64::from(bytes);
    !is_name(s.tag)
        || s.value < bytes + STANDARD
        || (FIRST_OWN_NAME <= s.value && s.value < FIRST_OWN_NAME + bytes + 1)
}

// Whether a symbol is one of text 6.
fn is_writable(bytes: u32, s: Symbol) -> bool
    requires symbol { IsSymbol s }
    ensures { IsTrue result → IsWritable bytes s }
{
    stands_in(6, s.tag) && is_numbered(bytes, s)
}

impl State {
    ghost use Rattle.gier_pass6.specs.StateInvariants.{StateInvariant, PreservesState};

    // The place of a symbol that is being taken.
    pub(crate) fn here(&self, s: Symbol) -> Location {
        Location {
            position: self.read,
            line: s.line,
        }
    }

    // The place of the symbol before it.
    pub(crate) fn before(&self) -> Location {
        Location {
            position: self.read.saturating_sub(1),
            line: self.line,
        }
    }

    // Adds a fault. A program has no more faults than bytes and an end.
    pub(crate) fn raise(&self, tables: &mut Tables, kind: FaultKind, spot: Location)
        requires ready { StateInvariant self.now (tables_model tables.old) }
        ensures { PreservesState self.now (tables_model tables.old) self.now (tables_model tables.new) }
    {
        if tables.faults() <= self.bytes {
            tables.add_fault(Fault {
                position: spot.position,
                line: spot.line,
                kind,
            });
        }
    }

    // Writes a symbol.
    pub(crate) fn write(&mut self, tables: &mut Tables, s: Symbol)
        requires ready { StateInvariant self.old (tables_model tables.old) }
        requires symbol { IsSymbol s }
        ensures { PreservesState self.old (tables_model tables.old) self.new (tables_model tables.new) }
    {
        if self.potential_left > 0 && is_writable(self.bytes, s) {
            self.potential_left -= 1;
            put(tables, OUTBOX, s);
        }
    }

    // Writes a symbol that stands behind operands.
    pub(crate) fn give(&mut self, tables: &mut Tables, tag: Tag, value: u64, line: u32)
        requires ready { StateInvariant self.old (tables_model tables.old) }
        ensures { PreservesState self.old (tables_model tables.old) self.new (tables_model tables.new) }
    {
        self.write(
            tables,
            Symbol::new(tag, cmp::min(value, LAST_WORD), cmp::min(line, LAST_LINE)),
        );
    }
}
