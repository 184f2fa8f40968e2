// A text is turned, a pass is driven over it, and a fault that it finds ends the front.
ghost use Rattle.std.specs.Prelude.{◌≡◌, ◌≤◌, ◌<◌, ◌+◌, ◌*◌, [], ℕ, List, length, OnOk, IsErrOf, IsTrue, true, false, Some};
ghost use Rattle.std.specs.Prelude.{is_some};
ghost use Rattle.gier_word.specs.Cause.{HasRisen};
ghost use Rattle.gier_drum.specs.View.{drum_view, KeepsDrum, StaysTold};
ghost use Rattle.gier_symbol.specs.declared.symbol.Symbol.{Symbol};
ghost use Rattle.gier_text.specs.declared.tables.Tables.{Tables};
ghost use Rattle.gier_text.specs.declared.text.Way.{Way};
ghost use Rattle.gier_text.specs.TablesModel.{tables_model, fresh};
ghost use Rattle.gier_text.specs.Turned.{CanDrive, GoesOn};
ghost use Rattle.gier_text.specs.View.{IsPlacedAs, in_way};
ghost use Rattle.gier_front.specs.declared.stop.FrontStop.TheVariants.{Errors, Read, Drum as DrumStop};
ghost use Rattle.gier_front.specs.Passes.{IsToldAs, IsNothing, AreClean, Drives, IfDriven};
ghost use Rattle.gier_front.specs.Stops.{NotSpoilt};

use crate::stop::{FrontStop, of_pass, of_text};
use gier_text::{Pass, Tables, Text, Way, drive};

/// A pass of the front: the way in which it reads, and the kinds of lists that it reads and writes.
pub(crate) trait PassContract: Pass {
    /// The bytes of the program.
    ghost bytes_of: { Self → ℕ };

    /// The lists that it is handed, in the order in which they were written.
    ghost wants: { ℕ → List Symbol → Type 0 };

    /// The lists that it writes.
    ghost gives: { ℕ → List Symbol → Type 0 };

    ghost reads: { Way };

    /// The pass over a text of a program of so many bytes, with cleared tables.
    fn start(tables: &mut Tables, bytes: u32) -> Self
        requires cleared { tables_model tables.old ≡ fresh (tables_model tables.old).limit }
        requires bytes { bytes ≤ (tables_model tables.old).limit }
        ensures stands { Self.stands result tables.new [] [] }
        ensures bytes { bytes_of result ≡ bytes }
        ensures limit { (tables_model tables.new).limit ≡ (tables_model tables.old).limit };

    /// The way in which it reads.
    fn way() -> Way
        ensures { result ≡ reads };

    /// It is meant for what it is handed.
    ghost expected: { (pass : Self) (list : List Symbol) → wants (bytes_of pass) list → Self.expects pass (in_way reads list) };

    /// What it writes over such a list.
    ghost given: { (pass : Self) (tables : Tables) (list written : List Symbol) → wants (bytes_of pass) list
        → Self.relates pass tables (in_way reads list) written → gives (bytes_of pass) written };

    /// A text has room for what it writes.
    ghost roomy: { (pass : Self) → Self.most pass ≤ 24 * bytes_of pass + 64 };

    /// Its bound tells the bytes.
    ghost same: { (a b : Self) → Self.most a ≡ Self.most b → bytes_of a ≡ bytes_of b };
}

/// Turns the input, which was just written, and drives a pass over it, which writes the output.
pub(crate) fn run_pass<P: PassContract + Drop, T: Text>(
    bytes: u32,
    store: &mut T::Store,
    input: &mut T,
    output: &mut T,
    tables: &mut Tables,
) -> Result<(), FrontStop>
    requires clean { AreClean bytes (tables_model tables.old) }
    requires can { CanDrive T.view T.first_track T.end_track T.room input.old output.old store.old }
    ensures goes_on { OnOk result (GoesOn (T.view output.old store.old) (T.view output.new store.new)) }
    ensures gives { IsToldAs (P.wants bytes) (T.view input.old store.old).held
        → IsToldAs IsNothing (T.view output.old store.old).held
        → OnOk result (IsToldAs (P.gives bytes) (T.view output.new store.new).held) }
    ensures driven { (list : List Symbol) → (T.view input.old store.old).held ≡ Some list
        → IsToldAs IsNothing (T.view output.old store.old).held
        → IfDriven result (Drives P.bytes_of P.relates bytes (in_way P.reads list) tables.new (T.view output.new store.new).held) }
    ensures clean { OnOk result (AreClean bytes (tables_model tables.new)) }
    ensures limit { (tables_model tables.new).limit ≡ (tables_model tables.old).limit }
    ensures input_place { IsPlacedAs T.first_track T.end_track input.old input.new }
    ensures output_place { IsPlacedAs T.first_track T.end_track output.old output.new }
    ensures keeps { KeepsDrum StaysTold (drum_view T.room T.tracks T.journal T.faults store.old)
        (drum_view T.room T.tracks T.journal T.faults store.new) }
    ensures errors { IsErrOf result Errors → 0 < length (tables_model tables.new).faults }
    ensures read { IsErrOf result Read → ⊥ }
    ensures drum { IsErrOf result DrumStop → HasRisen (T.faults store.old) (T.faults store.new) }
    ensures sound { T.grows ≡ false → IsToldAs (P.wants bytes) (T.view input.old store.old).held
        → (T.view output.old store.old).capacity ≡ Some (24 * bytes + 64) → NotSpoilt result }
{
    tables.clear();
    match input.rewind(store, P::way()) {
        Ok(()) => {}
        Err(stop) => return Err(of_text(stop)),
    }
    let mut pass = P::start(tables, bytes);
    match drive(&mut pass, store, input, P::way(), output, tables) {
        Ok(()) => no_faults(tables),
        Err(stop) => Err(of_pass(stop)),
    }
}

/// Errors exactly where the tables hold a fault.
pub(crate) fn no_faults(tables: &Tables) -> Result<(), FrontStop>
    ensures none { OnOk result ((tables_model tables.now).faults ≡ []) }
    ensures errors { IsErrOf result Errors → 0 < length (tables_model tables.now).faults }
    ensures read { IsErrOf result Read → ⊥ }
    ensures drum { IsErrOf result DrumStop → ⊥ }
    ensures sound { NotSpoilt result }
{
    if tables.faults() == 0 {
        Ok(())
    } else {
        Err(FrontStop::Errors)
    }
}
