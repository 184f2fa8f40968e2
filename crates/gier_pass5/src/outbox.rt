// The symbols that wait to be written.
ghost use Rattle.std.specs.Prelude.{◌<◌, ◌∷◌, []};
ghost use Rattle.gier_symbol.specs.Symbols.{IsSymbol};
ghost use Rattle.gier_text.specs.TablesModel.{tables_model};
ghost use Rattle.gier_pass5.specs.Lists.{HasLists, Emits, out_of};

use gier_symbol::Symbol;
use gier_text::{Tables, put};

/// The list of symbols that wait to be written.
pub(crate) const OUTBOX: u8 = 0;

/// As many symbols as one step writes at most.
pub(crate) const OUTBOX_ROOM: u32 = 3;

/// Puts a symbol behind those that wait.
pub(crate) fn emit(tables: &mut Tables, s: Symbol)
    requires lists { HasLists (tables_model tables.old) }
    requires room { (out_of (tables_model tables.old)).count < (out_of (tables_model tables.old)).capacity }
    requires symbol { IsSymbol s }
    ensures { Emits (tables_model tables.old) (s ∷ []) (tables_model tables.new) }
{
    put(tables, OUTBOX, s);
}
