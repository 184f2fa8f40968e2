// The pass: what it knows of the place in which it stands, and how much it has taken.
ghost use Rattle.std.specs.Prelude.{◌≡◌, ◌≤◌, ◌+◌, ◌*◌, ◌&&◌, [], nat_le};
ghost use Rattle.gier_text.specs.Potential.{IsWithinPotential, is_numbered, potential_of};
ghost use Rattle.gier_text.specs.TablesModel.{tables_model, fresh as fresh_tables};
ghost use Rattle.gier_pass4.specs.Invariant.{PassInvariant};

use crate::lists::{Lists, OUT};
use crate::marks::ParseState;
use crate::owns::{Frame, Owned};
use gier_symbol::{Alphabet, Coded, Symbol, Tag};
use gier_text::{Pass, PassStop, Tables, Text, flush, is_name};
use gier_word::Odd;

/// Pass 4: takes text 3 backward, and writes text 4 from its end.
///
/// Its tables hold eight lists, and no fault.
#[derive(Debug, Drop)]
pub struct Pass4 {
    pub(crate) lists: Lists,
    // What the symbols that were taken weigh.
    pub(crate) taken: u32,
    pub(crate) place: ParseState,
    pub(crate) frame: Frame,
    pub(crate) owned: Owned,
    // The number of the heading that is being read, or was read last; 0 where there was none.
    pub(crate) heading: u32,
}

// What a symbol of text 3 weighs.
fn potential_of(tag: u16) -> u32
    ensures value { result ≡ potential_of 3 tag }
    ensures few { result ≤ 6 }
{
    if tag == Tag::Declaring.number() {
        6
    } else if tag == Tag::TextEnd.number() {
        5
    } else if tag == Tag::Identifier.number() || tag == Tag::Formal.number() {
        4
    } else {
        1
    }
}

impl Pass4 {
    /// The pass over text 3 of a program of so many bytes. The tables must be cleared and hold no fault.
    pub fn open(tables: &mut Tables, bytes: u32) -> Pass4
        requires cleared { tables_model tables.old ≡ fresh_tables (tables_model tables.old).limit }
        requires bytes { bytes ≤ (tables_model tables.old).limit }
        ensures stands { PassInvariant result (tables_model tables.new) [] [] }
        ensures bytes { result.lists.bytes ≡ bytes }
        ensures faults { (tables_model tables.new).faults ≡ [] }
        ensures limit { (tables_model tables.new).limit ≡ (tables_model tables.old).limit }
    {
        Pass4 {
            lists: Lists::open(tables, bytes),
            taken: 0,
            place: ParseState::Statements,
            frame: Frame::Nothing,
            owned: Owned::No,
            heading: 0,
        }
    }

    // Whether a text with the symbol may be one that the pass is meant for.
    fn may_take(&self, s: Symbol) -> bool
        requires few { self.now.taken ≤ 8 * self.now.lists.bytes + 64 }
        requires bytes { self.now.lists.bytes ≤ 524288 }
        ensures { result ≡ (nat_le (self.now.taken + potential_of 3 s.tag) (8 * self.now.lists.bytes + 64)
            && is_numbered 3 self.now.lists.bytes s) }
    {
        let light = self.taken + potential_of(s.tag) <= self.lists.most_weight();
        light && (!is_name(s.tag) || s.value < u64::from(self.lists.most_names()))
    }
}

impl Pass for Pass4 {
    type In = Coded<3>;

    type Out = Coded<4>;

    const GROWTH: u32 = 8;

    ghost use Rattle.std.proofs.Common.{arith};

    ghost GROWTH = { 8 };

    ghost stands = { λ pass tables read written. PassInvariant pass (tables_model tables) read written };

    ghost relates = { λ pass tables read written. IsWithinPotential 4 pass.lists.bytes written };

    ghost expects = { λ pass list. IsWithinPotential 3 pass.lists.bytes list };

    ghost most = { λ pass. 8 * pass.lists.bytes + 64 };

    fn take<T: Text>(
        &mut self,
        s: Coded<3>,
        store: &mut T::Store,
        out: &mut T,
        tables: &mut Tables,
    ) -> Result<(), PassStop> {
        let symbol = s.symbol();
        if !self.may_take(symbol) {
            let [word, _] = symbol.code();
            return Err(PassStop::Spoilt(Odd {
                place: u64::from(self.taken),
                word,
            }));
        }
        self.taken += potential_of(symbol.tag);
        self.step(symbol, tables);
        if self.owned == Owned::Unknown {
            return Ok(());
        }
        flush(store, out, tables, OUT)
    }

    fn end<T: Text>(
        &mut self,
        _store: &mut T::Store,
        _out: &mut T,
        _tables: &mut Tables,
    ) -> Result<(), PassStop> {
        Ok(())
    }

    ghost slow = { Prim.omega arith };

    ghost letters = { λ pass list h. h.letters };
}
