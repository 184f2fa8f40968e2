// The pass: its fields, and how much was taken.
ghost use Rattle.std.specs.Prelude.{◌≡◌, ◌≤◌, ◌+◌, ◌*◌, ◌^◌, []};
ghost use Rattle.gier_symbol.specs.Texts.{is_tag_of};
ghost use Rattle.gier_text.specs.Potential.{IsWithinPotential, potential_of};
ghost use Rattle.gier_text.specs.TablesModel.{tables_model, fresh};
ghost use Rattle.gier_pass5.specs.Entries.{AddsMore};
ghost use Rattle.gier_pass5.specs.Lists.{HasLists, entry_count, entry_room, row_count};
ghost use Rattle.gier_pass5.specs.Invariant.{PassInvariant, Relates};

use crate::entries::{self, SymbolEntry};
use crate::kinds::{FIRST_STANDARD, STANDARDS};
use crate::outbox::{OUTBOX, OUTBOX_ROOM};
use crate::places::Counters;
use crate::{index, scopes};
use gier_symbol::{Alphabet, Coded, Symbol, Tag};
use gier_text::{OUTBOX_WIDTH, Pass, PassStop, Tables, Text, flush};
use gier_word::Odd;

/// Pass 5: takes text 4 in the order of the source, and writes text 5.
///
/// Its tables hold the symbols that wait, the live entries, the open scopes and the index of identifiers, and the faults of scopes.
#[derive(Debug, Drop)]
pub struct Pass5 {
    pub(crate) bytes: u32,
    // What the symbols that were taken weigh.
    pub(crate) taken: u32,
    // Where the symbol stands among those that may have faults.
    pub(crate) position: u32,
    pub(crate) counters: Counters,
    // The entry whose description is still to come.
    pub(crate) entry: Option<Symbol>,
    // Between the open mark of a procedure declaration and its body.
    pub(crate) in_heading: bool,
    pub(crate) in_bound: bool,
    // The level of the block or procedure that has just begun is above the greatest one.
    pub(crate) too_deep: bool,
}

// What a used identifier weighs: it may become three symbols, and a fourth later.
const USE_WEIGHT: u32 = 4;

/// Whether a symbol is of this kind.
pub(crate) fn is(kind: Tag, s: Symbol) -> bool
    ensures { result ≡ is_tag_of kind s.tag }
{
    s.tag == kind.number()
}

/// What a symbol of the text weighs.
pub(crate) fn potential_of(s: Symbol) -> u32
    ensures { result ≡ potential_of 4 s.tag }
{
    if is(Tag::Identifier, s) {
        USE_WEIGHT
    } else {
        1
    }
}

impl Pass5 {
    /// The pass over text 4 of a program of so many bytes. The tables must be cleared and hold no fault.
    pub fn open(tables: &mut Tables, bytes: u32) -> Pass5
        requires cleared { tables_model tables.old ≡ fresh (tables_model tables.old).limit }
        requires bytes { bytes ≤ (tables_model tables.old).limit }
        ensures stands { PassInvariant result (tables_model tables.new) [] [] }
        ensures bytes { result.bytes ≡ bytes }
        ensures faults { (tables_model tables.new).faults ≡ [] }
        ensures limit { (tables_model tables.new).limit ≡ (tables_model tables.old).limit }
    {
        tables.list(OUTBOX_WIDTH, OUTBOX_ROOM);
        entries::open(tables, bytes);
        scopes::open(tables, bytes);
        index::open(tables, bytes);
        add_standard(tables, bytes);
        Pass5 {
            bytes,
            taken: 0,
            position: 0,
            counters: Counters {
                address: 0,
                number: 0,
            },
            entry: None,
            in_heading: false,
            in_bound: false,
            too_deep: false,
        }
    }

    // What a text of the program weighs at most.
    fn greatest(&self) -> u32
        requires { self.now.bytes ≤ 524288 }
        ensures { result ≡ 8 * self.now.bytes + 64 }
    {
        8 * self.bytes + 64
    }
}

// Adds the standard identifiers to the outermost scope.
fn add_standard(tables: &mut Tables, bytes: u32)
    requires lists { HasLists (tables_model tables.old) }
    requires bytes { bytes ≤ 2 ^ 19 }
    requires rows { row_count (tables_model tables.old) ≡ 2 * bytes + 65 }
    requires room { entry_count (tables_model tables.old) + 8 ≤ entry_room (tables_model tables.old) }
    ensures { AddsMore 8 (tables_model tables.old) (tables_model tables.new) }
{
    for number in 0..STANDARDS {
        let told = SymbolEntry {
            kind: FIRST_STANDARD.number() + u64::from(number),
            place: 0,
            count: 0,
            own: None,
        };
        entries::add(tables, index::row_of(u64::from(number), bytes), 0, told);
    }
}

impl Pass for Pass5 {
    type In = Coded<4>;

    type Out = Coded<5>;

    const GROWTH: u32 = 8;

    ghost use Rattle.std.proofs.Common.{arith};

    ghost GROWTH = { 8 };

    ghost stands = { λ pass tables read written. PassInvariant pass (tables_model tables) read written };

    ghost relates = { λ pass tables read written. Relates pass read written };

    ghost expects = { λ pass list. IsWithinPotential 4 pass.bytes list };

    ghost most = { λ pass. 8 * pass.bytes + 64 };

    fn take<T: Text>(
        &mut self,
        s: Coded<4>,
        store: &mut T::Store,
        out: &mut T,
        tables: &mut Tables,
    ) -> Result<(), PassStop> {
        let symbol = s.symbol();
        if self.taken + potential_of(symbol) > self.greatest() {
            let [word, _] = symbol.code();
            return Err(PassStop::Spoilt(Odd {
                place: u64::from(self.taken),
                word,
            }));
        }
        self.step(symbol, tables);
        flush(store, out, tables, OUTBOX)
    }

    fn end<T: Text>(
        &mut self,
        _store: &mut T::Store,
        _out: &mut T,
        _tables: &mut Tables,
    ) -> Result<(), PassStop> {
        Ok(())
    }

    ghost slow = { Prim.omega arith };

    ghost letters = { λ pass list h. h.letters };
}
