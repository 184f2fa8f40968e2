// Symbols that a pass has found and not yet written: they wait in a list of the tables, in order.
ghost use Rattle.std.specs.Prelude.{◌≡◌, ◌≤◌, ◌<◌, ◌+◌, ◌*◌, ◌++◌, ◌∷◌, [], length, OnOk, IfSome, IsErrOf, IsTrue, false};
ghost use Rattle.gier_word.specs.Cause.{HasRisen};
ghost use Rattle.gier_symbol.specs.Symbols.{IsSymbol, code_of};
ghost use Rattle.gier_text.specs.declared.pass.PassStop.TheVariants.{Drum, Memory, Full};
ghost use Rattle.gier_text.specs.TablesModel.{tables_model, with_list, with_at};
ghost use Rattle.gier_text.specs.Lists.{list_at, with_entry, cut_to};
ghost use Rattle.gier_text.specs.Log.{Logged};
ghost use Rattle.gier_text.specs.Outbox.{outbox_symbols, symbol_at, if_any};
ghost use Rattle.gier_text.specs.Passes.{HasLess, SpoiltIf};
ghost use Rattle.gier_text.specs.View.{WritesAll, IsFull, IsPlacedAs, KeepsTracks, KeepsOthers};

use crate::{PassStop, Tables, Text, write};
use gier_symbol::Symbol;

/// How many words a waiting symbol takes.
pub const OUTBOX_WIDTH: u8 = 2;

/// Puts a symbol behind those that wait in the list.
pub fn put(tables: &mut Tables, list: u8, s: Symbol)
    requires open { list < length (tables_model tables.old).lists }
    requires width { (list_at (tables_model tables.old).lists list).width ≡ 2 }
    requires room { (list_at (tables_model tables.old).lists list).count < (list_at (tables_model tables.old).lists list).capacity }
    requires symbol { IsSymbol s }
    ensures put { tables_model tables.new
        ≡ with_at (tables_model tables.old) list (with_entry (list_at (tables_model tables.old).lists list) (code_of s)) }
    ensures waits { outbox_symbols (list_at (tables_model tables.new).lists list)
        ≡ outbox_symbols (list_at (tables_model tables.old).lists list) ++ s ∷ [] }
{
    tables.push(list, &s.code());
}

/// Writes all that waits in the list, in order, and leaves the list empty. It stops at the first that is refused.
pub fn flush<T: Text>(
    store: &mut T::Store,
    out: &mut T,
    tables: &mut Tables,
    list: u8,
) -> Result<(), PassStop>
    requires open { list < length (tables_model tables.old).lists }
    requires width { (list_at (tables_model tables.old).lists list).width ≡ 2 }
    requires writing { (T.view out.old store.old).rewound ≡ false }
    requires placed { T.end_track out.old ≤ T.room store.old }
    ensures written { OnOk result (WritesAll (T.view out.old store.old)
        (outbox_symbols (list_at (tables_model tables.old).lists list)) (T.view out.new store.new)) }
    ensures emptied { OnOk result (tables_model tables.new
        ≡ with_at (tables_model tables.old) list (cut_to (list_at (tables_model tables.old).lists list) 0)) }
    ensures limit { (tables_model tables.new).limit ≡ (tables_model tables.old).limit }
    ensures logged { Logged (T.view out.old store.old) (T.view out.new store.new) (T.journal store.old) (T.journal store.new) }
    ensures place { IsPlacedAs T.first_track T.end_track out.old out.new }
    ensures room { T.room store.new ≡ T.room store.old }
    ensures tracks { KeepsTracks (T.first_track out.old) (T.end_track out.old) (T.tracks store.old) (T.tracks store.new) }
    ensures kept { KeepsOthers T.view T.first_track T.end_track out.old store.old store.new }
    ensures later { T.faults store.old ≤ T.faults store.new }
    ensures failed { IsErrOf result Drum → HasRisen (T.faults store.old) (T.faults store.new) }
    ensures memory { IsErrOf result Memory → IsTrue T.grows }
    ensures full { IsErrOf result Full → IsFull (T.view out.new store.new) }
    ensures roomy { IsErrOf result Full
        → HasLess (T.view out.old store.old)
        ((T.view out.old store.old).count + length (outbox_symbols (list_at (tables_model tables.old).lists list))) }
    ensures sound { SpoiltIf result ⊥ }
{
    for at in 0..tables.len(list) {
        match write_any(store, out, waiting_at(tables, list, at)) {
            Ok(()) => {}
            Err(stop) => return Err(stop),
        }
    }
    tables.cut(list, 0);
    Ok(())
}

/// Writes the symbol, where there is one.
pub fn write_any<T: Text>(
    store: &mut T::Store,
    out: &mut T,
    symbol: Option<Symbol>,
) -> Result<(), PassStop>
    requires symbol { IfSome symbol IsSymbol }
    requires writing { (T.view out.old store.old).rewound ≡ false }
    requires placed { T.end_track out.old ≤ T.room store.old }
    ensures written { OnOk result (WritesAll (T.view out.old store.old) (if_any symbol) (T.view out.new store.new)) }
    ensures logged { Logged (T.view out.old store.old) (T.view out.new store.new) (T.journal store.old) (T.journal store.new) }
    ensures place { IsPlacedAs T.first_track T.end_track out.old out.new }
    ensures room { T.room store.new ≡ T.room store.old }
    ensures tracks { KeepsTracks (T.first_track out.old) (T.end_track out.old) (T.tracks store.old) (T.tracks store.new) }
    ensures kept { KeepsOthers T.view T.first_track T.end_track out.old store.old store.new }
    ensures later { T.faults store.old ≤ T.faults store.new }
    ensures failed { IsErrOf result Drum → HasRisen (T.faults store.old) (T.faults store.new) }
    ensures memory { IsErrOf result Memory → IsTrue T.grows }
    ensures full { IsErrOf result Full → IsFull (T.view out.new store.new) }
    ensures full_before { IsErrOf result Full → IsFull (T.view out.old store.old) × (0 < length (if_any symbol)) }
    ensures sound { SpoiltIf result ⊥ }
{
    match symbol {
        Some(symbol) => write(store, out, symbol),
        None => Ok(()),
    }
}

/// The symbol that waits at this place of the list.
pub fn waiting_at(tables: &Tables, list: u8, at: u32) -> Option<Symbol>
    requires open { list < length (tables_model tables.now).lists }
    requires width { (list_at (tables_model tables.now).lists list).width ≡ 2 }
    requires entry { at < (list_at (tables_model tables.now).lists list).count }
    ensures value { result ≡ symbol_at (list_at (tables_model tables.now).lists list) at }
    ensures symbol { IfSome result IsSymbol }
{
    Symbol::decode([tables.word(list, at, 0), tables.word(list, at, 1)])
}
