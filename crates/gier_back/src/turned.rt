// A text is turned, and a pass of the back is driven over it.
ghost use Rattle.std.specs.Prelude.{◌≡◌, [], List, OnOk, false, Some};
ghost use Rattle.gier_drum.specs.View.{drum_view};
ghost use Rattle.gier_symbol.specs.declared.symbol.Symbol.{Symbol};
ghost use Rattle.gier_text.specs.TablesModel.{tables_model};
ghost use Rattle.gier_text.specs.Turned.{CanDrive};
ghost use Rattle.gier_text.specs.View.{in_way};
ghost use Rattle.gier_back.specs.Passes.{Passes, Writes, Stays, HasRoom};
ghost use Rattle.gier_back.specs.Stops.{OnlyDrum};

use gier_text::{Pass, PassStop, Tables, Text, Way, drive, pass_stop};

/// Turns the input, which was written or found, and drives a pass over it, which writes the output.
pub(crate) fn drive_turned<P: Pass, T: Text>(
    pass: &mut P,
    way: Way,
    store: &mut T::Store,
    input: &mut T,
    output: &mut T,
    tables: &mut Tables,
) -> Result<(), PassStop>
    requires stands { P.stands pass.old tables.old [] [] }
    requires can { CanDrive T.view T.first_track T.end_track T.room input.old output.old store.old }
    ensures passed { Passes T.view T.first_track T.end_track
        (drum_view T.room T.tracks T.journal T.faults) input.old output.old store.old
        output.new store.new result }
    ensures writes { (list : List Symbol) → (T.view input.old store.old).held ≡ Some list
        → (T.view output.old store.old).held ≡ Some []
        → OnOk result (Writes (P.relates pass.new tables.new (in_way way list)) (T.view output.new store.new)) }
    ensures stays { OnOk result (Stays T.view T.first_track T.end_track input.old store.old way store.new) }
    ensures most { P.most pass.new ≡ P.most pass.old }
    ensures limit { (tables_model tables.new).limit ≡ (tables_model tables.old).limit }
    ensures sound { T.grows ≡ false → (list : List Symbol) → (T.view input.old store.old).held ≡ Some list
        → P.expects pass.old (in_way way list)
        → HasRoom (T.view output.old store.old) (P.most pass.old) → OnlyDrum result }
{
    match input.rewind(store, way) {
        Ok(()) => {}
        Err(stop) => return Err(pass_stop(stop)),
    }
    drive(pass, store, input, way, output, tables)
}
