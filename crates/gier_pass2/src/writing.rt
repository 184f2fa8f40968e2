// Writes the symbols that a step gives.
ghost use Rattle.std.specs.Prelude.{◌≡◌, ◌≤◌, ◌+◌, ℕ, All, OnOk, IsErrOf, IsTrue, false, length};
ghost use Rattle.gier_word.specs.Cause.{HasRisen};
ghost use Rattle.gier_text.specs.declared.pass.PassStop.TheVariants.{Drum, Memory, Full};
ghost use Rattle.gier_text.specs.Log.{Logged};
ghost use Rattle.gier_text.specs.Passes.{HasLess, SpoiltIf};
ghost use Rattle.gier_text.specs.View.{WritesAll, IsFull, IsPlacedAs, KeepsTracks, KeepsOthers};
ghost use Rattle.gier_pass2.specs.Letters.{IsWritable};

use gier_symbol::Symbol;
use gier_text::{PassStop, Text, write};

/// Writes the symbols in order. It stops at the first that is refused.
pub(crate) fn write_all<T: Text>(
    store: &mut T::Store,
    out: &mut T,
    symbols: &[Symbol],
) -> Result<(), PassStop>
    requires symbols { (bytes : ℕ) × All (IsWritable bytes) symbols.now }
    requires writing { (T.view out.old store.old).rewound ≡ false }
    requires placed { T.end_track out.old ≤ T.room store.old }
    ensures written { OnOk result (WritesAll (T.view out.old store.old) symbols.now (T.view out.new store.new)) }
    ensures logged { Logged (T.view out.old store.old) (T.view out.new store.new) (T.journal store.old) (T.journal store.new) }
    ensures place { IsPlacedAs T.first_track T.end_track out.old out.new }
    ensures room { T.room store.new ≡ T.room store.old }
    ensures tracks { KeepsTracks (T.first_track out.old) (T.end_track out.old) (T.tracks store.old) (T.tracks store.new) }
    ensures kept { KeepsOthers T.view T.first_track T.end_track out.old store.old store.new }
    ensures later { T.faults store.old ≤ T.faults store.new }
    ensures failed { IsErrOf result Drum → HasRisen (T.faults store.old) (T.faults store.new) }
    ensures memory { IsErrOf result Memory → IsTrue T.grows }
    ensures full { IsErrOf result Full → IsFull (T.view out.new store.new) }
    ensures roomy { IsErrOf result Full
        → HasLess (T.view out.old store.old) ((T.view out.old store.old).count + length symbols.now) }
    ensures sound { SpoiltIf result ⊥ }
{
    for symbol in symbols {
        write(store, out, *symbol)?;
    }
    Ok(())
}
