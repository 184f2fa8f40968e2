// Hands each symbol of a text to a pass, and then the end.
ghost use Rattle.std.specs.Prelude.{◌≡◌, ◌≤◌, ◌⊎◌, [], ℕ, List, OnOk, IsErrOf, IsTrue, false, true, Some};
ghost use Rattle.gier_word.specs.Cause.{HasRisen};
ghost use Rattle.gier_symbol.specs.declared.symbol.Symbol.{Symbol};
ghost use Rattle.gier_symbol.specs.Symbols.{IsSymbol};
ghost use Rattle.gier_text.specs.declared.pass.PassStop.TheVariants.{Drum, Memory, Full};
ghost use Rattle.gier_text.specs.declared.text.TextStop.TheVariants.{Failed as TextFailed, Memory as TextMemory, Full as TextFull};
ghost use Rattle.gier_text.specs.TablesModel.{tables_model};
ghost use Rattle.gier_text.specs.Log.{Logged};
ghost use Rattle.gier_text.specs.Drive.{LogsBoth, IsReadWhole, pass_stop_of, at_symbol, SpoiltAs, NamesLastRead};
ghost use Rattle.gier_text.specs.Passes.{HasLess, SpoiltIf};
ghost use Rattle.gier_text.specs.View.{WritesAll, Writes, IsFull, IsEmpty, IsUnread, IsLeft, IsPlacedAs, Apart, KeepsTracks};
ghost use Rattle.gier_text.specs.View.{KeepsOthers};

use crate::{Pass, PassStop, Tables, Text, TextStop, Way};
use gier_symbol::{Alphabet, Symbol};
use gier_word::Odd;

/// What the stop of a text is for a pass.
pub fn pass_stop(stop: TextStop) -> PassStop
    ensures { result ≡ pass_stop_of stop }
{
    match stop {
        TextStop::Failed => PassStop::Drum,
        TextStop::Memory => PassStop::Memory,
        TextStop::Full => PassStop::Full,
        TextStop::Spoilt(odd) => PassStop::Spoilt(odd),
    }
}

/// Writes a symbol for a pass.
pub fn write<T: Text>(store: &mut T::Store, out: &mut T, s: Symbol) -> Result<(), PassStop>
    requires symbol { IsSymbol s }
    requires writing { (T.view out.old store.old).rewound ≡ false }
    requires placed { T.end_track out.old ≤ T.room store.old }
    ensures written { OnOk result (Writes (T.view out.old store.old) s (T.view out.new store.new)) }
    ensures logged { Logged (T.view out.old store.old) (T.view out.new store.new) (T.journal store.old) (T.journal store.new) }
    ensures place { IsPlacedAs T.first_track T.end_track out.old out.new }
    ensures room { T.room store.new ≡ T.room store.old }
    ensures tracks { KeepsTracks (T.first_track out.old) (T.end_track out.old) (T.tracks store.old) (T.tracks store.new) }
    ensures kept { KeepsOthers T.view T.first_track T.end_track out.old store.old store.new }
    ensures later { T.faults store.old ≤ T.faults store.new }
    ensures failed { IsErrOf result Drum → HasRisen (T.faults store.old) (T.faults store.new) }
    ensures memory { IsErrOf result Memory → IsTrue T.grows }
    ensures full { IsErrOf result Full → IsFull (T.view out.old store.old) }
    ensures stays_full { IsErrOf result Full → IsFull (T.view out.new store.new) }
    ensures sound { SpoiltIf result ⊥ }
{
    match out.write_next(store, s) {
        Ok(()) => Ok(()),
        Err(stop) => Err(pass_stop(stop)),
    }
}

// A full output is told as the symbol that was read last.
fn stop_at(odd: Odd, stop: PassStop) -> PassStop
    ensures { result ≡ at_symbol odd stop }
{
    match stop {
        PassStop::Drum => PassStop::Drum,
        PassStop::Memory => PassStop::Memory,
        PassStop::Full => PassStop::Spoilt(odd),
        PassStop::Spoilt(other) => PassStop::Spoilt(other),
    }
}

/// Hands each symbol of the input to the pass, and then the end. It rewinds neither text.
///
/// It never answers Full: where the output is full it answers Spoilt with the symbol that was read last, or with
/// place 0 and word 0 before the first.
pub fn drive<P: Pass, T: Text>(
    pass: &mut P,
    store: &mut T::Store,
    input: &mut T,
    way: Way,
    output: &mut T,
    tables: &mut Tables,
) -> Result<(), PassStop>
    requires input_placed { T.end_track input.old ≤ T.room store.old }
    requires output_placed { T.end_track output.old ≤ T.room store.old }
    requires apart { Apart (T.first_track input.old) (T.end_track input.old) (T.first_track output.old) (T.end_track output.old) }
    requires unread { IsUnread (T.view input.old store.old) way }
    requires empty { IsEmpty (T.view output.old store.old) }
    requires stands { P.stands pass.old tables.old [] [] }
    ensures relates { OnOk result ((read written : List Symbol) × IsLeft (T.view input.old store.old) read
        × WritesAll (T.view output.old store.old) written (T.view output.new store.new)
        × P.relates pass.new tables.new read written) }
    ensures done { OnOk result (IsReadWhole (T.view input.old store.old) (T.view input.new store.new)) }
    ensures logged { LogsBoth (T.view input.old store.old) (T.view input.new store.new) (T.view output.old store.old)
        (T.view output.new store.new) (T.journal store.old) (T.journal store.new) }
    ensures input_place { IsPlacedAs T.first_track T.end_track input.old input.new }
    ensures output_place { IsPlacedAs T.first_track T.end_track output.old output.new }
    ensures room { T.room store.new ≡ T.room store.old }
    ensures tracks { KeepsTracks (T.first_track output.old) (T.end_track output.old) (T.tracks store.old) (T.tracks store.new) }
    ensures kept { KeepsOthers T.view T.first_track T.end_track output.old store.old store.new }
    ensures later { T.faults store.old ≤ T.faults store.new }
    ensures failed { IsErrOf result Drum → HasRisen (T.faults store.old) (T.faults store.new) }
    ensures memory { IsErrOf result Memory → IsTrue T.grows }
    ensures full { IsErrOf result Full → ⊥ }
    ensures spoilt { (all : List Symbol) → (T.view input.old store.old).left ≡ Some all → P.expects pass.old all
        → SpoiltIf result (HasLess (T.view output.old store.old) (P.most pass.old)) }
    ensures last { (all : List Symbol) → (T.view input.old store.old).left ≡ Some all → P.expects pass.old all
        → SpoiltAs result (NamesLastRead (T.view input.old store.old) (T.view input.new store.new)) }
    ensures bounded { (all : List Symbol) → (T.view input.old store.old).left ≡ Some all → P.expects pass.old all
        → OnOk result ((T.view output.new store.new).count ≤ P.most pass.old) }
    ensures limit { (tables_model tables.new).limit ≡ (tables_model tables.old).limit }
    ensures most { P.most pass.new ≡ P.most pass.old }
{
    let mut place = 0u64;
    let mut last = Odd { place: 0, word: 0 };
    loop {
        let s = match input.read_next(store) {
            Ok(Some(s)) => s,
            Ok(None) => break,
            Err(stop) => return Err(pass_stop(stop)),
        };
        let [word, _] = s.code();
        last = Odd { place, word };
        place = place.saturating_add(1);
        let letter = match P::In::of(s) {
            Some(letter) => letter,
            None => return Err(PassStop::Spoilt(last)),
        };
        match pass.take(letter, store, output, tables) {
            Ok(()) => {}
            Err(stop) => return Err(stop_at(last, stop)),
        }
    }
    match pass.end(store, output, tables) {
        Ok(()) => Ok(()),
        Err(stop) => Err(stop_at(last, stop)),
    }
}
