// What a text is: symbols that are first written, then read forward or backward. No text is made here.
ghost use Rattle.std.specs.Prelude.{◌≡◌, ◌<◌, ◌≤◌, ◌↔◌, ℕ, List, IfOk, OnOk, IsErrOf, IsTrue, false, true, Bool, Option};
ghost use Rattle.gier_drum.specs.declared.drum.Entry.{Entry};
ghost use Rattle.gier_word.specs.Cause.{HasRisen};
ghost use Rattle.gier_symbol.specs.Symbols.{IsSymbol};
ghost use Rattle.gier_text.specs.declared.text.TextStop.TheVariants.{Failed, Full, Memory};
ghost use Rattle.gier_text.specs.Stops.{NotSpoilt, SpoiltOnly, IsSymbolOrEnd};
ghost use Rattle.gier_text.specs.Log.{Logged};
ghost use Rattle.gier_text.specs.View.{View, IsFull, Writes, Rewinds, Reads, KeepsOthers, KeepsAll, IsPlacedAs, KeepsTracks};
ghost use Rattle.gier_text.specs.View.{SameTracks};

use gier_symbol::Symbol;
use gier_word::Odd;

/// The direction in which a text is read.
#[derive(Debug, Clone, Copy, PartialEq, Eq)]
pub enum Way {
    Forward,
    Backward,
}

/// Why a call on a text was refused. The text may only be dropped then.
#[derive(Debug, Clone, Copy, PartialEq, Eq)]
pub enum TextStop {
    /// The store failed, and its count of faults rose.
    Failed,
    /// There is not enough memory.
    Memory,
    /// The text holds its capacity.
    Full,
    /// The two words that were read are no symbol's code.
    Spoilt(Odd),
}

/// Symbols that are first written, then rewound, then read.
///
/// Read forward a text gives the list that was written, read backward its reverse, and then None for good.
pub trait Text {
    /// Where the symbols are kept.
    type Store;

    /// What a text is over a store.
    ghost view: { Self → Self.Store → View };

    /// The first track of a text, and the one behind its last.
    ghost first_track: { Self → ℕ };

    ghost end_track: { Self → ℕ };

    /// How many tracks the store has.
    ghost room: { Self.Store → ℕ };

    /// The words of the store's tracks, where they are told.
    ghost tracks: { Self.Store → Option (List (List ℕ)) };

    /// The reads and writes of the store so far, where they are told.
    ghost journal: { Self.Store → Option (List Entry) };

    /// How often the store has failed.
    ghost faults: { Self.Store → ℕ };

    /// Whether a call may want memory.
    ghost grows: { Bool };

    /// Appends a symbol.
    fn write_next(&mut self, store: &mut Self::Store, s: Symbol) -> Result<(), TextStop>
        requires symbol { IsSymbol s }
        requires writing { (view self.old store.old).rewound ≡ false }
        requires placed { end_track self.old ≤ room store.old }
        ensures written { OnOk result (Writes (view self.old store.old) s (view self.new store.new)) }
        ensures logged { Logged (view self.old store.old) (view self.new store.new) (journal store.old) (journal store.new) }
        ensures place { IsPlacedAs first_track end_track self.old self.new }
        ensures room { room store.new ≡ room store.old }
        ensures tracks { KeepsTracks (first_track self.old) (end_track self.old) (tracks store.old) (tracks store.new) }
        ensures kept { KeepsOthers view first_track end_track self.old store.old store.new }
        ensures later { faults store.old ≤ faults store.new }
        ensures failed { IsErrOf result Failed → HasRisen (faults store.old) (faults store.new) }
        ensures memory { IsErrOf result Memory → IsTrue grows }
        ensures full { IsErrOf result Full ↔ IsFull (view self.old store.old) }
        ensures stays_full { IsErrOf result Full → IsFull (view self.new store.new) }
        ensures sound { NotSpoilt result };

    /// Ends the writing; from now on the text is read in this way.
    fn rewind(&mut self, store: &mut Self::Store, way: Way) -> Result<(), TextStop>
        requires writing { (view self.old store.old).rewound ≡ false }
        requires placed { end_track self.old ≤ room store.old }
        ensures rewound { OnOk result (Rewinds (view self.old store.old) way (view self.new store.new)) }
        ensures logged { Logged (view self.old store.old) (view self.new store.new) (journal store.old) (journal store.new) }
        ensures place { IsPlacedAs first_track end_track self.old self.new }
        ensures room { room store.new ≡ room store.old }
        ensures tracks { KeepsTracks (first_track self.old) (end_track self.old) (tracks store.old) (tracks store.new) }
        ensures kept { KeepsOthers view first_track end_track self.old store.old store.new }
        ensures later { faults store.old ≤ faults store.new }
        ensures failed { IsErrOf result Failed → HasRisen (faults store.old) (faults store.new) }
        ensures memory { IsErrOf result Memory → IsTrue grows }
        ensures full { IsErrOf result Full → ⊥ }
        ensures sound { NotSpoilt result };

    /// Gives the next symbol, or None exactly where as many were read as the text holds.
    fn read_next(&mut self, store: &mut Self::Store) -> Result<Option<Symbol>, TextStop>
        requires reading { (view self.old store.old).rewound ≡ true }
        requires placed { end_track self.old ≤ room store.old }
        ensures given { IfOk result (λ s. Reads (view self.old store.old) s (view self.new store.new)) }
        ensures symbol { IfOk result IsSymbolOrEnd }
        ensures logged { Logged (view self.old store.old) (view self.new store.new) (journal store.old) (journal store.new) }
        ensures place { IsPlacedAs first_track end_track self.old self.new }
        ensures room { room store.new ≡ room store.old }
        ensures tracks { tracks store.new ≡ tracks store.old }
        ensures kept { KeepsAll view store.old store.new }
        ensures later { faults store.old ≤ faults store.new }
        ensures failed { IsErrOf result Failed → HasRisen (faults store.old) (faults store.new) }
        ensures memory { IsErrOf result Memory → IsTrue grows }
        ensures full { IsErrOf result Full → ⊥ }
        ensures spoilt { SpoiltOnly (view self.old store.old) result };

    /// The tracks of a text run from the first one on.
    ghost runs: { (t : Self) → first_track t ≤ end_track t };

    /// What a text is depends on the text and its own tracks alone.
    ghost own: { (t : Self) (old new : Self.Store) → SameTracks (first_track t) (end_track t) (tracks old) (tracks new)
        → view t new ≡ view t old };
}
