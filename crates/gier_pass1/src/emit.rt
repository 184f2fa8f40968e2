// Writes the symbols that were found, and adds the faults to the tables.
ghost use Rattle.std.specs.Prelude.{◌≡◌, ◌≤◌, ◌<◌, ◌+◌, ◌++◌, length, OnOk, IsErrOf, IsTrue, false};
ghost use Rattle.gier_word.specs.Cause.{HasRisen};
ghost use Rattle.gier_text.specs.declared.pass.PassStop.TheVariants.{Drum, Memory, Full};
ghost use Rattle.gier_text.specs.TablesModel.{tables_model};
ghost use Rattle.gier_text.specs.Passes.{HasLess, SpoiltIf};
ghost use Rattle.gier_text.specs.View.{IsFull};
ghost use Rattle.gier_pass1.specs.StepCounts.{IsLetter, symbols_in, faults_in};
ghost use Rattle.gier_pass1.specs.Puts.{Frame, Puts, AddsFaults, letters_in};
ghost use Rattle.gier_pass1.specs.TapeListing.{AddsFound, AddsFounds};

use crate::scanner::ScanResult;
use crate::state::Token;
use gier_text::{PassStop, Tables, Text, write};

/// Writes what a byte or the end gives.
pub(crate) fn put<T: Text>(
    founds: ScanResult,
    store: &mut T::Store,
    out: &mut T,
    tables: &mut Tables,
) -> Result<(), PassStop>
    requires ended { IsLetter founds.ended }
    requires begun { IsLetter founds.begun }
    requires writing { (T.view out.old store.old).rewound ≡ false }
    requires placed { T.end_track out.old ≤ T.room store.old }
    requires room { length (tables_model tables.old).faults + (faults_in founds.ended + faults_in founds.begun)
        ≤ (tables_model tables.old).limit + 1 }
    ensures puts { OnOk result (Puts (letters_in founds.ended ++ letters_in founds.begun) (T.view out.old store.old)
        (T.view out.new store.new) (T.journal store.old) (T.journal store.new)) }
    ensures counted { OnOk result ((T.view out.new store.new).count
        ≡ (T.view out.old store.old).count + (symbols_in founds.ended + symbols_in founds.begun)) }
    ensures tables { AddsFaults (tables_model tables.old) (tables_model tables.new)
        (faults_in founds.ended + faults_in founds.begun) }
    ensures added { OnOk result (AddsFounds (tables_model tables.old).faults founds.ended founds.begun
        (tables_model tables.new).faults) }
    ensures frame { Frame T.view T.first_track T.end_track T.room T.tracks T.faults out.old store.old out.new store.new }
    ensures failed { IsErrOf result Drum → HasRisen (T.faults store.old) (T.faults store.new) }
    ensures memory { IsErrOf result Memory → IsTrue T.grows }
    ensures full { IsErrOf result Full → IsFull (T.view out.new store.new) }
    ensures roomy { IsErrOf result Full
        → HasLess (T.view out.old store.old)
        ((T.view out.old store.old).count + (symbols_in founds.ended + symbols_in founds.begun)) }
    ensures sound { SpoiltIf result ⊥ }
{
    emit(founds.ended, store, out, tables)?;
    emit(founds.begun, store, out, tables)
}

fn emit<T: Text>(
    found: Token,
    store: &mut T::Store,
    out: &mut T,
    tables: &mut Tables,
) -> Result<(), PassStop>
    requires letter { IsLetter found }
    requires writing { (T.view out.old store.old).rewound ≡ false }
    requires placed { T.end_track out.old ≤ T.room store.old }
    requires room { length (tables_model tables.old).faults + faults_in found ≤ (tables_model tables.old).limit + 1 }
    ensures puts { OnOk result (Puts (letters_in found) (T.view out.old store.old) (T.view out.new store.new)
        (T.journal store.old) (T.journal store.new)) }
    ensures counted { OnOk result ((T.view out.new store.new).count ≡ (T.view out.old store.old).count + symbols_in found) }
    ensures tables { AddsFaults (tables_model tables.old) (tables_model tables.new) (faults_in found) }
    ensures added { AddsFound (tables_model tables.old).faults found (tables_model tables.new).faults }
    ensures frame { Frame T.view T.first_track T.end_track T.room T.tracks T.faults out.old store.old out.new store.new }
    ensures failed { IsErrOf result Drum → HasRisen (T.faults store.old) (T.faults store.new) }
    ensures memory { IsErrOf result Memory → IsTrue T.grows }
    ensures full { IsErrOf result Full → IsFull (T.view out.new store.new) }
    ensures roomy { IsErrOf result Full → HasLess (T.view out.old store.old) ((T.view out.old store.old).count + symbols_in found) }
    ensures sound { SpoiltIf result ⊥ }
{
    match found {
        Token::Nothing => Ok(()),
        Token::Written(symbol) => write(store, out, symbol),
        Token::LexError(fault) => {
            tables.add_fault(fault);
            Ok(())
        }
    }
}
