// What one symbol of the text does: what is written for it.
ghost use Rattle.std.specs.Prelude.{◌≡◌, ◌≤◌, ◌<◌, ◌+◌, ◌*◌, ◌^◌, [], Some, None, IfSome, IsTrue};
ghost use Rattle.gier_symbol.specs.Symbols.{IsSymbol};
ghost use Rattle.gier_symbol.specs.Texts.{stands_in};
ghost use Rattle.gier_text.specs.Potential.{potential_of};
ghost use Rattle.gier_text.specs.TablesModel.{tables_model};
ghost use Rattle.gier_pass5.specs.declared.binding.Binding.{Binding};
ghost use Rattle.gier_pass5.specs.Entries.{Adds};
ghost use Rattle.gier_pass5.specs.Faults.{Judges};
ghost use Rattle.gier_pass5.specs.Lists.{HasLists, Keeps, out_of, entry_count, entry_room, row_count};
ghost use Rattle.gier_pass5.specs.Invariant.{StateInvariant, TakingInvariant};
ghost use Rattle.gier_pass5.specs.Steps.{Steps, Takes, entry_and_description};
ghost use Rattle.gier_pass5.specs.Uses.{symbols_of};

use crate::binding::Binding;
use crate::entries::{self, Field, SymbolEntry};
use crate::outbox::emit;
use crate::pass::{Pass5, is, potential_of};
use crate::uses::{meant_by, nothing, put_use};
use crate::{index, places, scopes};
use gier_symbol::{Symbol, Tag};
use gier_text::{FaultKind, Tables};
use gier_tree::Kind;

// Counts are at most this.
const GREATEST_COUNT: u64 = (1 << 40) - 1;

impl Pass5 {
    /// Takes a symbol, and puts what is to be written then.
    pub(crate) fn step(&mut self, s: Symbol, tables: &mut Tables)
        requires ready { StateInvariant self.old (tables_model tables.old) }
        requires empty { (out_of (tables_model tables.old)).count ≡ 0 }
        requires light { self.old.taken + potential_of 4 s.tag ≤ 8 * self.old.bytes + 64 }
        requires symbol { IsSymbol s }
        requires letter { IsTrue (stands_in 4 s.tag) }
        ensures { Steps self.old (tables_model tables.old) s self.new (tables_model tables.new) }
    {
        self.taken += potential_of(s);
        self.position = self.position.saturating_add(1);
        if is(Tag::Identifier, s) {
            self.take_use(s, tables);
            return;
        }
        if is(Tag::Entry, s) {
            self.entry = Some(s);
            return;
        }
        if is(Tag::Description, s) {
            self.take_description(s, tables);
            return;
        }
        if is(Tag::OwnEntry, s) {
            self.take_own(s, tables);
            return;
        }
        self.heed(s, tables);
        emit(tables, s);
    }

    /// The innermost entry of an identifier.
    pub(crate) fn entry_of(&self, number: u64, tables: &Tables) -> Option<u32>
        requires { StateInvariant self.now (tables_model tables.now) }
        ensures { IfSome result (λ entry. entry < entry_count (tables_model tables.now)) }
    {
        entries::innermost(tables, index::row_of(number, self.bytes)?)
    }

    // A used identifier is written as what it means.
    fn take_use(&self, s: Symbol, tables: &mut Tables)
        requires taking { TakingInvariant self.now (tables_model tables.old) }
        requires empty { (out_of (tables_model tables.old)).count ≡ 0 }
        requires symbol { IsSymbol s }
        ensures { (meant : Binding) × Takes self.now (tables_model tables.old) self.now (tables_model tables.new)
            (symbols_of meant s.line) }
    {
        let meant = self.meant(s, tables);
        put_use(meant, s.line, tables);
    }

    // What a used identifier means; that it isn't declared, or is local to the block whose bound it stands in, is a fault.
    fn meant(&self, s: Symbol, tables: &mut Tables) -> Binding
        requires { TakingInvariant self.now (tables_model tables.old) }
        ensures { Judges self.now.bytes (tables_model tables.old) (tables_model tables.new) }
    {
        let Some(entry) = self.entry_of(s.value, tables) else {
            self.fault(s.line, FaultKind::NotDeclared, tables);
            return nothing();
        };
        if self.in_bound && is_innermost(entry, tables) {
            self.fault(s.line, FaultKind::LocalInBound, tables);
        }
        meant_by(tables, entry)
    }

    // Behind an entry the description of its identifier; else that of a formal of the last entry's procedure.
    fn take_description(&mut self, s: Symbol, tables: &mut Tables)
        requires taking { TakingInvariant self.old (tables_model tables.old) }
        requires empty { (out_of (tables_model tables.old)).count ≡ 0 }
        requires symbol { IsSymbol s }
        ensures takes { Takes self.old (tables_model tables.old) self.new (tables_model tables.new)
            (entry_and_description self.old.entry s) }
        ensures entry { self.new.entry ≡ None }
    {
        match self.entry {
            Some(entry) => {
                self.add_described(entry, s.value, tables);
                emit(tables, entry);
            }
            None => count_formal(tables),
        }
        emit(tables, s);
    }

    // Adds the entry that was read with its kind.
    fn add_described(&mut self, entry: Symbol, kind: u64, tables: &mut Tables)
        requires taking { TakingInvariant self.old (tables_model tables.old) }
        requires entry { self.old.entry ≡ Some entry }
        requires kind { kind < 2 ^ 40 }
        ensures adds { Adds (tables_model tables.old) (tables_model tables.new) }
        ensures entry { self.new.entry ≡ None }
        ensures bytes { self.new.bytes ≡ self.old.bytes }
        ensures taken { self.new.taken ≡ self.old.taken }
    {
        let level = scopes::level(tables, scopes::innermost(tables));
        let place = places::place(&mut self.counters, kind, level);
        let told = SymbolEntry {
            kind,
            place,
            count: 0,
            own: None,
        };
        self.add_entry(entry, told, tables);
        self.entry = None;
    }

    // An own quantity in its old place: it is what it is in the block around the program.
    fn take_own(&mut self, s: Symbol, tables: &mut Tables)
        requires taking { TakingInvariant self.old (tables_model tables.old) }
        requires empty { (out_of (tables_model tables.old)).count ≡ 0 }
        ensures takes { Takes self.old (tables_model tables.old) self.new (tables_model tables.new) [] }
        ensures entry { self.new.entry ≡ None }
    {
        if let Some(entry) = self.entry {
            let told = told_by(self.entry_of(s.value, tables), tables);
            self.add_entry(entry, told, tables);
            self.entry = None;
        }
    }

    fn add_entry(&self, entry: Symbol, told: SymbolEntry, tables: &mut Tables)
        requires lists { HasLists (tables_model tables.old) }
        requires bytes { self.now.bytes ≤ 524288 }
        requires rows { row_count (tables_model tables.old) ≡ 2 * self.now.bytes + 65 }
        requires room { entry_count (tables_model tables.old) < entry_room (tables_model tables.old) }
        ensures { Adds (tables_model tables.old) (tables_model tables.new) }
    {
        let first = scopes::first(tables, scopes::innermost(tables));
        entries::add(tables, index::row_of(entry.value, self.bytes), first, told);
    }
}

/// Whether an entry is one of the innermost scope.
pub(crate) fn is_innermost(entry: u32, tables: &Tables) -> bool
    requires { HasLists (tables_model tables.now) }
{
    entry >= scopes::first(tables, scopes::innermost(tables))
}

/// The entry that was added last.
pub(crate) fn last_entry(tables: &Tables) -> Option<u32>
    requires { HasLists (tables_model tables.now) }
    ensures { IfSome result (λ entry. entry < entry_count (tables_model tables.now)) }
{
    entries::count(tables).checked_sub(1)
}

// One formal more of the last entry's procedure.
fn count_formal(tables: &mut Tables)
    requires { HasLists (tables_model tables.old) }
    ensures { Keeps (tables_model tables.old) (tables_model tables.new) }
{
    if let Some(entry) = last_entry(tables) {
        let count = entries::get(tables, entry, Field::Count);
        entries::set(tables, entry, Field::Count, (count + 1).min(GREATEST_COUNT));
    }
}

// What the entry of an own quantity in its old place tells.
fn told_by(own: Option<u32>, tables: &Tables) -> SymbolEntry
    requires lists { HasLists (tables_model tables.now) }
    requires own { IfSome own (λ entry. entry < entry_count (tables_model tables.now)) }
{
    match own {
        Some(entry) => SymbolEntry {
            kind: entries::get(tables, entry, Field::Kind),
            place: entries::get(tables, entry, Field::Place),
            count: entries::get(tables, entry, Field::Count),
            own,
        },
        None => SymbolEntry {
            kind: Kind::Undeclared.number(),
            place: 0,
            count: 0,
            own,
        },
    }
}
