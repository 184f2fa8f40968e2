// The pass: how much it may still write, and how it is driven.
ghost use Rattle.std.specs.Prelude.{◌≡◌, ◌≤◌, ◌+◌, ◌*◌, []};
ghost use Rattle.gier_symbol.specs.Symbols.{IsSymbol};
ghost use Rattle.gier_text.specs.Potential.{IsShort, IsWithinPotential};
ghost use Rattle.gier_text.specs.TablesModel.{tables_model, fresh};
ghost use Rattle.gier_pass7.specs.Invariant.{PassInvariant};

use crate::kinds::ValueType;
use crate::lists::{STACK_WIDTH, SYMBOL_WIDTH, WORD_WIDTH, outbox_room, record_room, room};
use crate::names::PendingName;
use crate::send::send;
use crate::state::State;
use gier_limits::{FIRST_NEW_LABEL, capacity};
use gier_symbol::{Alphabet, Coded};
use gier_text::{Pass, PassStop, Tables, Text};

/// Pass 7: takes text 6 forward, and writes text 7.
///
/// Its tables hold what is open, what was declared, and orders that may still change.
#[derive(Debug, Drop)]
pub struct Pass7 {
    // How many symbols may still be written.
    left: u32,
    work: State,
}

fn start(bytes: u32) -> State
    ensures { result.bytes ≡ bytes }
{
    State {
        bytes,
        free: 0,
        high_water: 0,
        level: 0,
        label: FIRST_NEW_LABEL,
        number: 0,
        address: 0,
        room: 0,
        words: 0,
        line: 0,
        open_patches: 0,
        full: false,
        value: ValueType::Unknown,
        held: PendingName::Nothing,
        entry: false,
        recording: false,
        text_at: 0,
        text_label: 0,
        text_length: 0,
        text_word: 0,
    }
}

impl Pass7 {
    /// The pass over text 6 of a program of so many bytes. The tables must be cleared and hold no fault.
    pub fn open(tables: &mut Tables, bytes: u32) -> Pass7
        requires cleared { tables_model tables.old ≡ fresh (tables_model tables.old).limit }
        requires bytes { bytes ≤ (tables_model tables.old).limit }
        ensures stands { PassInvariant result (tables_model tables.new) [] [] }
        ensures bytes { result.work.bytes ≡ bytes }
        ensures faults { (tables_model tables.new).faults ≡ [] }
        ensures limit { (tables_model tables.new).limit ≡ (tables_model tables.old).limit }
    {
        tables.list(SYMBOL_WIDTH, outbox_room(bytes));
        tables.list(SYMBOL_WIDTH, record_room(bytes));
        tables.list(STACK_WIDTH, room(bytes));
        tables.list(WORD_WIDTH, room(bytes));
        tables.list(WORD_WIDTH, room(bytes));
        tables.list(WORD_WIDTH, room(bytes));
        Pass7 {
            left: capacity(bytes),
            work: start(bytes),
        }
    }
}

impl Pass for Pass7 {
    type In = Coded<6>;

    type Out = Coded<7>;

    const GROWTH: u32 = 24;

    ghost use Rattle.std.proofs.Common.{arith};

    ghost GROWTH = { 24 };

    ghost stands = { λ pass tables read written. PassInvariant pass (tables_model tables) read written };

    ghost relates = { λ pass tables read written. IsShort 7 pass.work.bytes written };

    ghost expects = { λ pass list. IsWithinPotential 6 pass.work.bytes list };

    ghost most = { λ pass. 24 * pass.work.bytes + 64 };

    fn take<T: Text>(
        &mut self,
        s: Coded<6>,
        store: &mut T::Store,
        out: &mut T,
        tables: &mut Tables,
    ) -> Result<(), PassStop> {
        self.work.step(tables, s.symbol());
        if self.work.open_patches > 0 {
            return Ok(());
        }
        match send(self.work.bytes, store, out, tables, self.left) {
            Ok(left) => {
                self.left = left;
                Ok(())
            }
            Err(stop) => Err(stop),
        }
    }

    fn end<T: Text>(
        &mut self,
        store: &mut T::Store,
        out: &mut T,
        tables: &mut Tables,
    ) -> Result<(), PassStop> {
        match send(self.work.bytes, store, out, tables, self.left) {
            Ok(left) => {
                self.left = left;
                Ok(())
            }
            Err(stop) => Err(stop),
        }
    }

    ghost slow = { Prim.omega arith };

    ghost letters = { λ pass list h. h.letters };
}
