// What is written for a used identifier.
ghost use Rattle.std.specs.Prelude.{◌≡◌, ◌≤◌, ◌<◌, ◌+◌, ◌^◌};
ghost use Rattle.gier_text.specs.TablesModel.{tables_model};
ghost use Rattle.gier_text.specs.Lists.{list_at, word_at};
ghost use Rattle.gier_tree.specs.Kinds.{kind_number};
ghost use Rattle.gier_tree.specs.declared.kind.Kind.TheVariants.{Undeclared};
ghost use Rattle.gier_pass5.specs.Lists.{HasLists, Emits, out_of, entry_count};
ghost use Rattle.gier_pass5.specs.Uses.{symbols_of};

use crate::binding::Binding;
use crate::entries::{self, Field};
use crate::kinds::has_count;
use crate::outbox::emit;
use gier_symbol::{Symbol, Tag};
use gier_text::Tables;
use gier_tree::Kind;

/// What an identifier without a declaration means: it has no kind and no place.
pub(crate) fn nothing() -> Binding
    ensures kind { result.kind ≡ kind_number Undeclared }
    ensures place { result.place ≡ 0 }
    ensures count { result.count ≡ 0 }
{
    Binding {
        kind: Kind::Undeclared.number(),
        place: 0,
        count: 0,
    }
}

/// What an identifier with this entry means.
pub(crate) fn meant_by(tables: &Tables, entry: u32) -> Binding
    requires lists { HasLists (tables_model tables.now) }
    requires entry { entry < entry_count (tables_model tables.now) }
    ensures kind { result.kind ≡ word_at (list_at (tables_model tables.now).lists 1) entry 2 }
    ensures place { result.place ≡ word_at (list_at (tables_model tables.now).lists 1) entry 3 }
    ensures count { result.count ≡ word_at (list_at (tables_model tables.now).lists 1) entry 4 }
{
    Binding {
        kind: entries::get(tables, entry, Field::Kind),
        place: entries::get(tables, entry, Field::Place),
        count: entries::get(tables, entry, Field::Count),
    }
}

/// Puts description, place and, where the kind has one, count of a used identifier.
pub(crate) fn put_use(meant: Binding, line: u32, tables: &mut Tables)
    requires lists { HasLists (tables_model tables.old) }
    requires room { (out_of (tables_model tables.old)).count + 3 ≤ (out_of (tables_model tables.old)).capacity }
    requires line { line < 2 ^ 24 }
    ensures { Emits (tables_model tables.old) (symbols_of meant line) (tables_model tables.new) }
{
    emit(tables, Symbol::new(Tag::Used, meant.kind, line));
    emit(tables, Symbol::new(Tag::Place, meant.place, line));
    if has_count(meant.kind) {
        emit(tables, Symbol::new(Tag::Count, meant.count, line));
    }
}
