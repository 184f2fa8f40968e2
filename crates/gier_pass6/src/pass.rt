// The pass: what it has taken, and how it is driven.
ghost use Rattle.std.specs.Prelude.{◌≡◌, ◌≤◌, ◌+◌, ◌*◌, []};
ghost use Rattle.gier_symbol.specs.Symbols.{IsSymbol};
ghost use Rattle.gier_text.specs.Potential.{IsWithinPotential, potential_of};
ghost use Rattle.gier_text.specs.TablesModel.{tables_model, fresh};
ghost use Rattle.gier_pass6.specs.Invariant.{PassInvariant};

use crate::heads::{NAMES, WORD_WIDTH};
use crate::open::STACK_WIDTH;
use crate::places::{Context, PendingName};
use crate::state::{OUTBOX, State, numbered_room, room};
use crate::types::ValueType;
use gier_limits::STANDARD_NAMES;
use gier_symbol::{Alphabet, Coded, Symbol, Tag};
use gier_text::{OUTBOX_WIDTH, Pass, PassStop, Tables, Text, flush};
use gier_word::Odd;

/// Pass 6: takes text 5 forward, and writes text 6.
///
/// Its tables hold what is open and what was declared, and a fault for each symbol at which types or uses are wrong.
#[derive(Debug, Drop)]
pub struct Pass6 {
    // What the symbols that were taken weigh together.
    potential: u32,
    work: State,
}

impl Pass6 {
    /// The pass over text 5 of a program of so many bytes. The tables must be cleared and hold no fault.
    pub fn open(tables: &mut Tables, bytes: u32) -> Pass6
        requires cleared { tables_model tables.old ≡ fresh (tables_model tables.old).limit }
        requires bytes { bytes ≤ (tables_model tables.old).limit }
        ensures stands { PassInvariant result (tables_model tables.new) [] [] }
        ensures bytes { result.work.bytes ≡ bytes }
        ensures faults { (tables_model tables.new).faults ≡ [] }
        ensures limit { (tables_model tables.new).limit ≡ (tables_model tables.old).limit }
    {
        tables.list(OUTBOX_WIDTH, room(bytes));
        tables.list(STACK_WIDTH, room(bytes));
        tables.list(WORD_WIDTH, bytes + STANDARD_NAMES);
        tables.list(WORD_WIDTH, numbered_room(bytes));
        tables.list(WORD_WIDTH, room(bytes));
        for _turn in 0..bytes + STANDARD_NAMES {
            tables.push(NAMES, &[0]);
        }
        Pass6 {
            potential: 0,
            work: State {
                bytes,
                potential_left: 0,
                read: 0,
                line: 0,
                value: ValueType::Unknown,
                held: PendingName::Nothing,
                at: Context::Operand,
                entry: None,
                formals: 0,
            },
        }
    }
}

// What a symbol of text 5 weighs: a used identifier may be a call.
fn potential_of(s: Symbol) -> u32
    ensures { result ≡ potential_of 5 s.tag }
{
    if s.tag == Tag::Used.number() { 2 } else { 1 }
}

impl Pass for Pass6 {
    type In = Coded<5>;

    type Out = Coded<6>;

    const GROWTH: u32 = 8;

    ghost use Rattle.std.proofs.Common.{arith};

    ghost GROWTH = { 8 };

    ghost stands = { λ pass tables read written. PassInvariant pass (tables_model tables) read written };

    ghost relates = { λ pass tables read written. IsWithinPotential 6 pass.work.bytes written };

    ghost expects = { λ pass list. IsWithinPotential 5 pass.work.bytes list };

    ghost most = { λ pass. 8 * pass.work.bytes + 64 };

    fn take<T: Text>(
        &mut self,
        s: Coded<5>,
        store: &mut T::Store,
        out: &mut T,
        tables: &mut Tables,
    ) -> Result<(), PassStop> {
        let symbol = s.symbol();
        let potential = potential_of(symbol);
        if potential > room(self.work.bytes) - self.potential {
            let [word, _] = symbol.code();
            return Err(PassStop::Spoilt(Odd {
                place: u64::from(self.work.read),
                word,
            }));
        }
        self.potential += potential;
        self.work.potential_left += potential;
        self.work.step(tables, symbol);
        flush(store, out, tables, OUTBOX)
    }

    fn end<T: Text>(
        &mut self,
        store: &mut T::Store,
        out: &mut T,
        tables: &mut Tables,
    ) -> Result<(), PassStop> {
        flush(store, out, tables, OUTBOX)
    }

    ghost slow = { Prim.omega arith };

    ghost letters = { λ pass list h. h.letters };
}
