// Writing what waits in the outbox. Entries that were left free aren't written, nor is what goes past the greatest length of a
// text.
ghost use Rattle.std.specs.Prelude.{◌≡◌, ◌≤◌, ◌<◌, ◌+◌, ◌*◌, ◌-◌, [], length, IfOk, IfSome, IsErrOf, IsTrue, false};
ghost use Rattle.gier_word.specs.Cause.{HasRisen};
ghost use Rattle.gier_symbol.specs.Symbols.{IsSymbol};
ghost use Rattle.gier_symbol.specs.Texts.{stands_in};
ghost use Rattle.gier_text.specs.declared.pass.PassStop.TheVariants.{Drum, Memory, Full};
ghost use Rattle.gier_text.specs.TablesModel.{tables_model};
ghost use Rattle.gier_text.specs.Log.{Logged};
ghost use Rattle.gier_text.specs.Outbox.{if_any};
ghost use Rattle.gier_text.specs.Passes.{HasLess, SpoiltIf};
ghost use Rattle.gier_text.specs.View.{IsFull, IsPlacedAs, KeepsTracks, KeepsOthers};
ghost use Rattle.gier_pass7.specs.StateInvariants.{HasLists, PreservesTables};
ghost use Rattle.gier_pass7.specs.SendProgress.{IsLetter, Sends};

use crate::lists::{OUTBOX, forget, head_at, len, value_at};
use gier_symbol::{Symbol, stands_in};
use gier_text::{PassStop, Tables, Text, write_any};

// The symbol that waits at this place, where there is one and some may still be written.
fn waiting_at(bytes: u32, tables: &Tables, at: u64, left: u32) -> Option<Symbol>
    requires ready { HasLists bytes (tables_model tables.now) }
    ensures symbol { IfSome result IsSymbol }
    ensures letter { IfSome result IsLetter }
    ensures few { length (if_any result) ≤ left }
{
    if left == 0 {
        return None;
    }
    let symbol = Symbol::decode([head_at(bytes, tables, at), value_at(bytes, tables, at)]);
    match symbol {
        Some(s) if stands_in(TEXT, s.tag) => Some(s),
        _ => None,
    }
}

// The text that is written.
const TEXT: usize = 7;

// How many may be written behind it.
fn less(left: u32, symbol: Option<Symbol>) -> u32
    requires { length (if_any symbol) ≤ left }
    ensures { result + length (if_any symbol) ≡ left }
{
    match symbol {
        Some(_) => left - 1,
        None => left,
    }
}

/// Writes what waits, but not more than so many symbols, and leaves the outbox empty. Gives how many may still be written.
pub(crate) fn send<T: Text>(
    bytes: u32,
    store: &mut T::Store,
    out: &mut T,
    tables: &mut Tables,
    left: u32,
) -> Result<u32, PassStop>
    requires ready { HasLists bytes (tables_model tables.old) }
    requires writing { (T.view out.old store.old).rewound ≡ false }
    requires placed { T.end_track out.old ≤ T.room store.old }
    ensures written { IfOk result (Sends left (T.view out.old store.old) (T.view out.new store.new)) }
    ensures lists { PreservesTables bytes (tables_model tables.old) bytes (tables_model tables.new) }
    ensures logged { Logged (T.view out.old store.old) (T.view out.new store.new) (T.journal store.old) (T.journal store.new) }
    ensures place { IsPlacedAs T.first_track T.end_track out.old out.new }
    ensures room { T.room store.new ≡ T.room store.old }
    ensures tracks { KeepsTracks (T.first_track out.old) (T.end_track out.old) (T.tracks store.old) (T.tracks store.new) }
    ensures kept { KeepsOthers T.view T.first_track T.end_track out.old store.old store.new }
    ensures later { T.faults store.old ≤ T.faults store.new }
    ensures failed { IsErrOf result Drum → HasRisen (T.faults store.old) (T.faults store.new) }
    ensures memory { IsErrOf result Memory → IsTrue T.grows }
    ensures full { IsErrOf result Full → IsFull (T.view out.new store.new) }
    ensures roomy { IsErrOf result Full → HasLess (T.view out.old store.old) ((T.view out.old store.old).count + left) }
    ensures sound { SpoiltIf result ⊥ }
{
    let mut rest = left;
    for at in 0..len(bytes, tables, OUTBOX) {
        let symbol = waiting_at(bytes, tables, at, rest);
        match write_any(store, out, symbol) {
            Ok(()) => {}
            Err(stop) => return Err(stop),
        }
        rest = less(rest, symbol);
    }
    forget(bytes, tables, OUTBOX);
    Ok(rest)
}
