// The pass: which run it is in, what waits, and how many symbols it has taken.
ghost use Rattle.std.specs.Prelude.{◌≡◌, ◌≤◌, ◌<◌, ◌+◌, ◌*◌, ◌++◌, ◌∷◌, [], List, length, All, IsTrue};
ghost use Rattle.gier_symbol.specs.declared.symbol.Symbol.{Symbol};
ghost use Rattle.gier_symbol.specs.Assembly.{Lexeme as RunOf, runs};
ghost use Rattle.gier_symbol.specs.Symbols.{IsSymbol};
ghost use Rattle.gier_symbol.specs.Texts.{stands_in};
ghost use Rattle.gier_text.specs.TablesModel.{tables_model, fresh};
ghost use Rattle.gier_pass2.specs.Letters.{IsWritable, ends, end_in, is_end};
ghost use Rattle.gier_pass2.specs.Exact.{IsExact};
ghost use Rattle.gier_pass2.specs.Progress.{IsDoing, Follows};
ghost use Rattle.gier_pass2.specs.TokensGiven.{buffered};
ghost use Rattle.gier_pass2.specs.ParameterComma.{symbols_of};
ghost use Rattle.gier_pass2.specs.Lexemes.{lexeme_symbols};
ghost use Rattle.gier_pass2.specs.Spelled.{IsSpelled};
ghost use Rattle.gier_pass2.specs.Invariant.{TablesInvariant, HasRun, PassInvariant, Relates, IsTextOne, Closes, symbols_pending};

use crate::commas::{PendingComma, feed, give};
use crate::names;
use crate::runs::{Lexeme, begun, ended, goes_on, grown, is_none};
use crate::token_buffer::TokenBuffer;
use crate::writing::write_all;
use gier_symbol::{Alphabet, Coded, Symbol};
use gier_text::{Pass, PassStop, Tables, Text};
use gier_word::Odd;

/// Pass 2: takes text 1 forward, and writes text 2.
///
/// Its tables hold one list, and a fault for each number that is too large.
#[derive(Debug, Drop)]
pub struct Pass2 {
    // How many bytes the program has, and how many symbols were taken.
    bytes: u32,
    read: u32,
    // How many identifiers have a number.
    known: u32,
    run: Lexeme,
    waiting: PendingComma,
}

impl Pass2 {
    /// The pass over text 1 of a program of so many bytes. The tables must be cleared and hold no fault.
    #[tactic(auto, using(crate::proofs::ProgressSteps::follows_none))]
    pub fn open(tables: &mut Tables, bytes: u32) -> Pass2
        requires cleared { tables_model tables.old ≡ fresh (tables_model tables.old).limit }
        requires bytes { bytes ≤ (tables_model tables.old).limit }
        ensures stands { PassInvariant result (tables_model tables.new) [] [] }
        ensures bytes { result.bytes ≡ bytes }
        ensures faults { (tables_model tables.new).faults ≡ [] }
        ensures limit { (tables_model tables.new).limit ≡ (tables_model tables.old).limit }
    {
        let known = names::open(tables, bytes);
        Pass2 {
            bytes,
            read: 0,
            known,
            run: Lexeme::Nothing,
            waiting: PendingComma::Nothing,
        }
    }

    // Ends the run, and gives what is known then to be no part of a comma.
    fn finish(&mut self, tables: &mut Tables) -> TokenBuffer
        requires run { HasRun self.old (tables_model tables.old) }
        requires inner { ends (symbols_of self.old.waiting) ≡ 0 }
        ensures ready { TablesInvariant self.new (tables_model tables.new) }
        ensures limit { (tables_model tables.new).limit ≡ (tables_model tables.old).limit }
        ensures read { self.new.read ≡ self.old.read }
        ensures bytes { self.new.bytes ≡ self.old.bytes }
        ensures run { lexeme_symbols self.new.run ≡ 0 }
        ensures few { length (buffered result) + length (symbols_of self.new.waiting) ≤ symbols_pending self.old }
        ensures writable { All (IsWritable self.old.bytes) (buffered result) }
        ensures of_bytes { result.bytes ≡ self.old.bytes }
        ensures no_end { ends (buffered result) + ends (symbols_of self.new.waiting) ≡ 0 }
        ensures doing { (done : List RunOf) → (pending written : List Symbol)
            → IsDoing self.old (tables_model tables.old) done pending written
            → IsDoing self.new (tables_model tables.new) (done ++ runs pending 0) [] (written ++ buffered result) }
    {
        let mut ready = TokenBuffer::none(self.bytes);
        if let Some(word) = ended(self.run, tables, &mut self.known) {
            self.waiting = feed(self.waiting, word.symbol, word.plain, &mut ready);
        }
        self.run = Lexeme::Nothing;
        ready
    }

    // Takes a symbol, and gives what is to be written then.
    fn step(&mut self, s: Symbol, tables: &mut Tables) -> TokenBuffer
        requires stands { HasRun self.old (tables_model tables.old) }
        requires inner { ends (symbols_of self.old.waiting) ≡ 0 }
        requires more { self.old.read ≤ self.old.bytes }
        requires symbol { IsSymbol s }
        requires letter { IsTrue (stands_in 1 s.tag) }
        ensures stands { HasRun self.new (tables_model tables.new) }
        ensures limit { (tables_model tables.new).limit ≡ (tables_model tables.old).limit }
        ensures read { self.new.read ≡ self.old.read + 1 }
        ensures bytes { self.new.bytes ≡ self.old.bytes }
        ensures few { length (buffered result) + symbols_pending self.new ≤ symbols_pending self.old + 1 }
        ensures writable { All (IsWritable self.old.bytes) (buffered result) }
        ensures of_bytes { result.bytes ≡ self.old.bytes }
        ensures inner { ends (symbols_of self.new.waiting) ≡ 0 }
        ensures ends { ends (buffered result) ≡ end_in (is_end s) }
        ensures last { IsTrue (is_end s) → Closes (buffered result) × (symbols_pending self.new ≡ 0) }
        ensures follows { (read written : List Symbol) → Follows self.old (tables_model tables.old) read written → IsSpelled s
            → Follows self.new (tables_model tables.new) (read ++ s ∷ []) (written ++ buffered result) }
    {
        if goes_on(self.run, s) {
            self.run = grown(self.run, s, tables);
            self.read += 1;
            return TokenBuffer::none(self.bytes);
        }
        let mut ready = self.finish(tables);
        self.run = begun(s, self.read, tables);
        self.read += 1;
        if is_none(self.run) {
            self.waiting = feed(self.waiting, s, false, &mut ready);
        }
        ready
    }

    // Gives all that is left.
    fn rest(&mut self, tables: &mut Tables) -> TokenBuffer
        requires run { HasRun self.old (tables_model tables.old) }
        requires inner { ends (symbols_of self.old.waiting) ≡ 0 }
        ensures few { length (buffered result) ≤ symbols_pending self.old }
        ensures limit { (tables_model tables.new).limit ≡ (tables_model tables.old).limit }
        ensures no_end { ends (buffered result) ≡ 0 }
        ensures exact { (read written : List Symbol) → Follows self.old (tables_model tables.old) read written
            → IsExact (tables_model tables.new) read (written ++ buffered result) }
        ensures writable { All (IsWritable self.old.bytes) (buffered result) }
        ensures of_bytes { result.bytes ≡ self.old.bytes }
        ensures read { self.new.read ≡ self.old.read }
        ensures bytes { self.new.bytes ≡ self.old.bytes }
    {
        let mut ready = self.finish(tables);
        give(self.waiting, &mut ready);
        self.waiting = PendingComma::Nothing;
        ready
    }
}

impl Pass for Pass2 {
    type In = Coded<1>;

    type Out = Coded<2>;

    const GROWTH: u32 = 1;

    ghost use Rattle.std.proofs.Common.{arith};

    ghost GROWTH = { 1 };

    ghost stands = { λ pass tables read written. PassInvariant pass (tables_model tables) read written };

    ghost relates = { λ pass tables read written. Relates pass (tables_model tables) read written };

    ghost expects = { λ pass list. IsTextOne pass.bytes list };

    ghost most = { λ pass. 1 * pass.bytes + 64 };

    fn take<T: Text>(
        &mut self,
        s: Coded<1>,
        store: &mut T::Store,
        out: &mut T,
        tables: &mut Tables,
    ) -> Result<(), PassStop> {
        let symbol = s.symbol();
        if self.read > self.bytes {
            let [word, _] = symbol.code();
            return Err(PassStop::Spoilt(Odd {
                place: u64::from(self.read),
                word,
            }));
        }
        let ready = self.step(symbol, tables);
        write_all(store, out, ready.as_slice())
    }

    fn end<T: Text>(
        &mut self,
        store: &mut T::Store,
        out: &mut T,
        tables: &mut Tables,
    ) -> Result<(), PassStop> {
        let ready = self.rest(tables);
        write_all(store, out, ready.as_slice())
    }

    ghost slow = { Prim.omega arith };

    ghost letters = { λ pass list h. h.letters };
}
