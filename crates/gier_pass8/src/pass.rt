// The pass: how much it has taken, and how it is driven.
ghost use Rattle.std.specs.Prelude.{◌≡◌, ◌≤◌, ◌+◌, ◌*◌, []};
ghost use Rattle.gier_text.specs.TablesModel.{tables_model, fresh};
ghost use Rattle.gier_text.specs.Potential.{IsShort};
ghost use Rattle.gier_pass8.specs.Invariant.{Relates, PassInvariant};

use crate::step::{NEED_WIDTH, State, room};
use gier_limits::capacity;
use gier_symbol::{Alphabet, Coded};
use gier_text::{Pass, PassStop, Tables, Text, write_any};
use gier_word::Odd;

/// Pass 8: takes text 7 backward, and writes text 8 from its end.
///
/// Its tables hold what is known of labels, and what activations need.
#[derive(Debug, Drop)]
pub struct Pass8 {
    // How many symbols were taken.
    taken: u32,
    work: State,
}

impl Pass8 {
    /// The pass over text 7 of a program of so many bytes. The tables must be cleared and hold no fault.
    pub fn open(tables: &mut Tables, bytes: u32) -> Pass8
        requires cleared { tables_model tables.old ≡ fresh (tables_model tables.old).limit }
        requires bytes { bytes ≤ (tables_model tables.old).limit }
        ensures stands { PassInvariant result (tables_model tables.new) [] [] }
        ensures bytes { result.work.bytes ≡ bytes }
        ensures faults { (tables_model tables.new).faults ≡ [] }
        ensures limit { (tables_model tables.new).limit ≡ (tables_model tables.old).limit }
    {
        gier_labels::open(tables, room(bytes));
        tables.list(NEED_WIDTH, room(bytes));
        Pass8 {
            taken: 0,
            work: State { bytes, place: 0 },
        }
    }
}

impl Pass for Pass8 {
    type In = Coded<7>;

    type Out = Coded<8>;

    const GROWTH: u32 = 24;

    ghost use Rattle.std.proofs.Common.{arith};

    ghost GROWTH = { 24 };

    ghost stands = { λ pass tables read written. PassInvariant pass (tables_model tables) read written };

    ghost relates = { λ pass tables read written. Relates pass.work.bytes read written };

    ghost expects = { λ pass list. IsShort 7 pass.work.bytes list };

    ghost most = { λ pass. 24 * pass.work.bytes + 64 };

    fn take<T: Text>(
        &mut self,
        s: Coded<7>,
        store: &mut T::Store,
        out: &mut T,
        tables: &mut Tables,
    ) -> Result<(), PassStop> {
        let symbol = s.symbol();
        if self.taken >= capacity(self.work.bytes) {
            let [word, _] = symbol.code();
            return Err(PassStop::Spoilt(Odd {
                place: u64::from(self.taken),
                word,
            }));
        }
        self.taken += 1;
        let written = self.work.step(tables, symbol);
        write_any(store, out, written)
    }

    fn end<T: Text>(
        &mut self,
        _store: &mut T::Store,
        _out: &mut T,
        _tables: &mut Tables,
    ) -> Result<(), PassStop> {
        Ok(())
    }

    ghost slow = { Prim.omega arith };

    ghost letters = { λ pass list h. h.letters };
}
