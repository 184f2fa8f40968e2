// Adds the faults of scopes.
ghost use Rattle.std.specs.Prelude.{◌≤◌};
ghost use Rattle.gier_text.specs.TablesModel.{tables_model};
ghost use Rattle.gier_pass5.specs.Faults.{AddsWhereRoom, Judges};
ghost use Rattle.gier_pass5.specs.Lists.{HasLists};

use gier_text::{Fault, FaultKind, Tables};

/// Adds a fault. A program of so many bytes has at most so many; any behind one more are dropped.
pub(crate) fn add(tables: &mut Tables, bytes: u32, fault: Fault)
    requires lists { HasLists (tables_model tables.old) }
    requires bytes { bytes ≤ (tables_model tables.old).limit }
    ensures adds { AddsWhereRoom bytes (tables_model tables.old) fault (tables_model tables.new) }
    ensures judges { Judges bytes (tables_model tables.old) (tables_model tables.new) }
{
    if tables.faults() <= bytes {
        tables.add_fault(fault);
    }
}
