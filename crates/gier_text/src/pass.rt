// What a pass is: it takes the symbols of one text one by one and writes those of another. No pass stands here.
ghost use Rattle.std.specs.Prelude.{◌≡◌, ◌≤◌, ◌++◌, ◌∷◌, [], ℕ, List, All, OnOk, IsErrOf, IsTrue, false};
ghost use Rattle.gier_word.specs.Cause.{HasRisen};
ghost use Rattle.gier_symbol.specs.declared.symbol.Symbol.{Symbol};
ghost use Rattle.gier_text.specs.declared.tables.Tables.{Tables};
ghost use Rattle.gier_text.specs.declared.pass.PassStop.TheVariants.{Drum, Memory, Full};
ghost use Rattle.gier_text.specs.TablesModel.{tables_model};
ghost use Rattle.gier_text.specs.Log.{Logged};
ghost use Rattle.gier_text.specs.Passes.{InvariantHolds, Expected, ExpectedWhole, HasLess, SpoiltIf};
ghost use Rattle.gier_text.specs.View.{WritesAll, IsFull, IsPlacedAs, KeepsTracks, KeepsOthers};

use crate::{Tables, Text};
use gier_symbol::Alphabet;
use gier_word::Odd;

/// Why a pass stopped. Pass, texts and tables may only be dropped then.
#[derive(Debug, Clone, Copy, PartialEq, Eq)]
pub enum PassStop {
    /// The store failed, and its count of faults rose.
    Drum,
    /// There is not enough memory.
    Memory,
    /// The output holds its capacity.
    Full,
    /// A symbol that can't stand there, or words that are no symbol's code.
    Spoilt(Odd),
}

/// A pass over a text. It keeps what it needs in a few fields and in the lists of tables.
pub trait Pass {
    /// The letters that it takes.
    type In: Alphabet;

    /// The letters that it writes.
    type Out: Alphabet;

    /// How many symbols it writes at most for each byte of the program, at most 24.
    const GROWTH: u32;

    ghost GROWTH: { ℕ };

    /// What holds when these symbols were taken and those written.
    ghost stands: { Self → Tables → List Symbol → List Symbol → Type 0 };

    /// What holds at the end.
    ghost relates: { Self → Tables → List Symbol → List Symbol → Type 0 };

    /// Which lists it is meant for.
    ghost expects: { Self → List Symbol → Type 0 };

    /// How many symbols it writes at most over a list that it is meant for.
    ghost most: { Self → ℕ };

    /// Takes the next symbol.
    fn take<T: Text>(
        &mut self,
        s: Self::In,
        store: &mut T::Store,
        out: &mut T,
        tables: &mut Tables,
    ) -> Result<(), PassStop>
        requires stands { InvariantHolds (stands self.old tables.old) (T.view out.old store.old) }
        requires writing { (T.view out.old store.old).rewound ≡ false }
        requires placed { T.end_track out.old ≤ T.room store.old }
        ensures ok { OnOk result ((ws : List Symbol) × WritesAll (T.view out.old store.old) ws (T.view out.new store.new)
            × ((read written : List Symbol) → stands self.old tables.old read written
            → stands self.new tables.new (read ++ Self.In.symbol_of s ∷ []) (written ++ ws))) }
        ensures logged { Logged (T.view out.old store.old) (T.view out.new store.new) (T.journal store.old) (T.journal store.new) }
        ensures place { IsPlacedAs T.first_track T.end_track out.old out.new }
        ensures room { T.room store.new ≡ T.room store.old }
        ensures tracks { KeepsTracks (T.first_track out.old) (T.end_track out.old) (T.tracks store.old) (T.tracks store.new) }
        ensures kept { KeepsOthers T.view T.first_track T.end_track out.old store.old store.new }
        ensures later { T.faults store.old ≤ T.faults store.new }
        ensures failed { IsErrOf result Drum → HasRisen (T.faults store.old) (T.faults store.new) }
        ensures memory { IsErrOf result Memory → IsTrue T.grows }
        ensures full { IsErrOf result Full → IsFull (T.view out.new store.new) }
        ensures sound { Expected (stands self.old tables.old) (expects self.old) (T.view out.old store.old)
            (Self.In.symbol_of s ∷ []) → SpoiltIf result ⊥ }
        ensures roomy { Expected (stands self.old tables.old) (expects self.old) (T.view out.old store.old)
            (Self.In.symbol_of s ∷ []) → IsErrOf result Full → HasLess (T.view out.old store.old) (most self.old) }
        ensures bounded { Expected (stands self.old tables.old) (expects self.old) (T.view out.old store.old)
            (Self.In.symbol_of s ∷ []) → OnOk result ((T.view out.new store.new).count ≤ most self.old) }
        ensures limit { (tables_model tables.new).limit ≡ (tables_model tables.old).limit }
        ensures still_most { most self.new ≡ most self.old }
        ensures still_expects { (list : List Symbol) → expects self.old list → expects self.new list };

    /// Takes the end.
    fn end<T: Text>(
        &mut self,
        store: &mut T::Store,
        out: &mut T,
        tables: &mut Tables,
    ) -> Result<(), PassStop>
        requires stands { InvariantHolds (stands self.old tables.old) (T.view out.old store.old) }
        requires writing { (T.view out.old store.old).rewound ≡ false }
        requires placed { T.end_track out.old ≤ T.room store.old }
        ensures ok { OnOk result ((ws : List Symbol) × WritesAll (T.view out.old store.old) ws (T.view out.new store.new)
            × ((read written : List Symbol) → stands self.old tables.old read written
            → relates self.new tables.new read (written ++ ws))) }
        ensures logged { Logged (T.view out.old store.old) (T.view out.new store.new) (T.journal store.old) (T.journal store.new) }
        ensures place { IsPlacedAs T.first_track T.end_track out.old out.new }
        ensures room { T.room store.new ≡ T.room store.old }
        ensures tracks { KeepsTracks (T.first_track out.old) (T.end_track out.old) (T.tracks store.old) (T.tracks store.new) }
        ensures kept { KeepsOthers T.view T.first_track T.end_track out.old store.old store.new }
        ensures later { T.faults store.old ≤ T.faults store.new }
        ensures failed { IsErrOf result Drum → HasRisen (T.faults store.old) (T.faults store.new) }
        ensures memory { IsErrOf result Memory → IsTrue T.grows }
        ensures full { IsErrOf result Full → IsFull (T.view out.new store.new) }
        ensures sound { ExpectedWhole (stands self.old tables.old) (expects self.old) (T.view out.old store.old)
            → SpoiltIf result ⊥ }
        ensures roomy { ExpectedWhole (stands self.old tables.old) (expects self.old) (T.view out.old store.old)
            → IsErrOf result Full → HasLess (T.view out.old store.old) (most self.old) }
        ensures bounded { ExpectedWhole (stands self.old tables.old) (expects self.old) (T.view out.old store.old)
            → OnOk result ((T.view out.new store.new).count ≤ most self.old) }
        ensures limit { (tables_model tables.new).limit ≡ (tables_model tables.old).limit }
        ensures still_most { most self.new ≡ most self.old };

    /// It writes at most 24 symbols for each byte.
    ghost slow: { GROWTH ≤ 24 };

    /// Each symbol of a list that it is meant for is a letter.
    ghost letters: { (pass : Self) (list : List Symbol) → expects pass list → All (λ s. IsTrue (Self.In.has s)) list };
}
