// What is noted of the symbols that are written as they are: declaring places, formals, marks, and heads of blocks and procedures.
ghost use Rattle.std.specs.Prelude.{◌≤◌, ◌<◌, ◌^◌, IfSome};
ghost use Rattle.gier_symbol.specs.Symbols.{IsSymbol};
ghost use Rattle.gier_text.specs.TablesModel.{tables_model};
ghost use Rattle.gier_pass5.specs.Faults.{AddsWhereRoom, Judges};
ghost use Rattle.gier_pass5.specs.Lists.{HasLists, entry_count, scope_count};
ghost use Rattle.gier_pass5.specs.Invariant.{StateInvariant, TakingInvariant, PreservesState};

use crate::entries::{self, Field};
use crate::kinds::{Class, class_at};
use crate::marks::is_scope;
use crate::pass::Pass5;
use crate::places::{self, BLOCK_START, PROCEDURE_START};
use crate::step::{is_innermost, last_entry};
use crate::{faults, scopes};
use gier_symbol::{Symbol, Tag};
use gier_text::{Fault, FaultKind, Tables};
use gier_tree::{Construct, Kind};

const GREATEST_LEVEL: u8 = 255;

const GREATEST_LINE: u64 = (1 << 24) - 1;

impl Pass5 {
    /// Notes what a symbol tells that is written as it is.
    pub(crate) fn heed(&mut self, s: Symbol, tables: &mut Tables)
        requires taking { TakingInvariant self.old (tables_model tables.old) }
        requires symbol { IsSymbol s }
        ensures { PreservesState self.old (tables_model tables.old) self.new (tables_model tables.new) }
    {
        match Tag::of(s.tag) {
            Some(Tag::Count) => self.heed_count(s.value, tables),
            Some(Tag::Declaring) => self.heed_declaring(s, tables),
            Some(Tag::Formal) => self.heed_formal(s, tables),
            Some(Tag::ValueListed) => self.heed_listed(s, Field::Valued, tables),
            Some(Tag::Specified) => self.heed_listed(s, Field::Specified, tables),
            Some(Tag::OpenMark) => self.heed_open(s.value, tables),
            Some(Tag::ShutMark) => self.heed_shut(s.value, tables),
            Some(Tag::Begin) | Some(Tag::Procedure) => self.heed_head(s.line, tables),
            Some(Tag::Semicolon) => self.heed_semicolon(tables),
            _ => {}
        }
    }

    /// Adds a fault at the symbol that was taken last.
    pub(crate) fn fault(&self, line: u32, kind: FaultKind, tables: &mut Tables)
        requires { StateInvariant self.now (tables_model tables.old) }
        ensures adds { AddsWhereRoom self.now.bytes (tables_model tables.old)
            (record { position = self.now.position; line = line; kind = kind }) (tables_model tables.new) }
        ensures judges { Judges self.now.bytes (tables_model tables.old) (tables_model tables.new) }
    {
        let fault = Fault {
            position: self.position,
            line,
            kind,
        };
        faults::add(tables, self.bytes, fault);
    }

    // The dimensions of the last entry's array.
    fn heed_count(&mut self, count: u64, tables: &mut Tables)
        requires taking { TakingInvariant self.old (tables_model tables.old) }
        requires count { count < 2 ^ 40 }
        ensures { PreservesState self.old (tables_model tables.old) self.new (tables_model tables.new) }
    {
        if let Some(entry) = last_entry(tables) {
            entries::set(tables, entry, Field::Count, count);
        }
        let words = places::of_dimensions(count);
        self.counters.address = places::behind(self.counters.address, words);
    }

    // The declaring place of the next entry.
    fn heed_declaring(&self, s: Symbol, tables: &mut Tables)
        requires taking { TakingInvariant self.now (tables_model tables.old) }
        requires symbol { IsSymbol s }
        ensures { Judges self.now.bytes (tables_model tables.old) (tables_model tables.new) }
    {
        let scope = self.declaring_scope(tables);
        if let Some(entry) = scopes::pass_next(tables, scope) {
            entries::set(tables, entry, Field::Line, u64::from(s.line));
            if entries::is_second(tables, entry) {
                self.fault(s.line, FaultKind::DeclaredTwice, tables);
            }
        }
    }

    // In a heading the procedure is declared, which the scope around it has.
    fn declaring_scope(&self, tables: &Tables) -> u32
        requires { HasLists (tables_model tables.now) }
        ensures { result < scope_count (tables_model tables.now) }
    {
        if self.in_heading {
            scopes::around(tables)
        } else {
            scopes::innermost(tables)
        }
    }

    fn heed_formal(&self, s: Symbol, tables: &mut Tables)
        requires taking { TakingInvariant self.now (tables_model tables.old) }
        ensures { Judges self.now.bytes (tables_model tables.old) (tables_model tables.new) }
    {
        let scope = scopes::innermost(tables);
        if let Some(entry) = scopes::pass_next(tables, scope) {
            if entries::is_second(tables, entry) {
                self.fault(s.line, FaultKind::DeclaredTwice, tables);
            } else if entries::get(tables, entry, Field::Kind) == Kind::Undeclared.number() {
                self.fault(s.line, FaultKind::NotSpecified, tables);
            }
        }
    }

    // A place in the value list or in the specifications, as the part tells.
    fn heed_listed(&self, s: Symbol, part: Field, tables: &mut Tables)
        requires taking { TakingInvariant self.now (tables_model tables.old) }
        ensures { Judges self.now.bytes (tables_model tables.old) (tables_model tables.new) }
    {
        let Some(entry) = self.formal_of(s.value, tables) else {
            self.fault(s.line, FaultKind::NotFormal, tables);
            return;
        };
        if entries::get(tables, entry, part) != 0 {
            self.fault(s.line, FaultKind::SpecifiedTwice, tables);
        }
        entries::set(tables, entry, part, 1);
    }

    // The formal of the innermost scope with this number.
    fn formal_of(&self, number: u64, tables: &Tables) -> Option<u32>
        requires { StateInvariant self.now (tables_model tables.now) }
        ensures { IfSome result (λ entry. entry < entry_count (tables_model tables.now)) }
    {
        let entry = self.entry_of(number, tables)?;
        let kind = entries::get(tables, entry, Field::Kind);
        if is_innermost(entry, tables) && class_at(kind) == Class::Formal {
            Some(entry)
        } else {
            None
        }
    }

    // The open mark of the construct with this number.
    fn heed_open(&mut self, number: u64, tables: &mut Tables)
        requires taking { TakingInvariant self.old (tables_model tables.old) }
        ensures { PreservesState self.old (tables_model tables.old) self.new (tables_model tables.new) }
    {
        let Some(construct) = Construct::of(number) else {
            return;
        };
        match construct {
            Construct::ProcedureBody => self.in_heading = false,
            Construct::Bound => self.in_bound = true,
            _ => {}
        }
        if is_scope(construct) {
            self.enter(construct, tables);
        }
    }

    // Opens the scope of a construct. All but controlled statements have a level of their own.
    fn enter(&mut self, construct: Construct, tables: &mut Tables)
        requires taking { TakingInvariant self.old (tables_model tables.old) }
        ensures { PreservesState self.old (tables_model tables.old) self.new (tables_model tables.new) }
    {
        let around = scopes::innermost(tables);
        let level = scopes::level(tables, around);
        self.in_heading = construct == Construct::ProcedureDeclaration;
        self.counters.address = first_address(construct, around, tables);
        if construct == Construct::ControlledStatement {
            scopes::enter(tables, level);
        } else {
            self.too_deep = level == GREATEST_LEVEL;
            scopes::enter(tables, level.saturating_add(1));
        }
    }

    // The shut mark of the construct with this number.
    fn heed_shut(&mut self, number: u64, tables: &mut Tables)
        requires taking { TakingInvariant self.old (tables_model tables.old) }
        ensures { PreservesState self.old (tables_model tables.old) self.new (tables_model tables.new) }
    {
        let Some(construct) = Construct::of(number) else {
            return;
        };
        if construct == Construct::Bound {
            self.in_bound = false;
        }
        if is_scope(construct) {
            scopes::leave(tables);
        }
    }

    // The first `_begin` or `_procedure` behind a mark is that of the block or procedure whose level may be too great.
    fn heed_head(&mut self, line: u32, tables: &mut Tables)
        requires taking { TakingInvariant self.old (tables_model tables.old) }
        ensures { PreservesState self.old (tables_model tables.old) self.new (tables_model tables.new) }
    {
        if self.too_deep {
            self.fault(line, FaultKind::Level, tables);
            self.too_deep = false;
        }
    }

    // Own declarations stood before a `;` where the next entries are those of own quantities.
    fn heed_semicolon(&mut self, tables: &mut Tables)
        requires taking { TakingInvariant self.old (tables_model tables.old) }
        ensures { PreservesState self.old (tables_model tables.old) self.new (tables_model tables.new) }
    {
        let scope = scopes::innermost(tables);
        let Some(first) = scopes::next(tables, scope) else {
            return;
        };
        for entry in first..entries::count(tables) {
            if entries::get(tables, entry, Field::Own) == 0 {
                return;
            }
            self.heed_own(entry, tables);
            scopes::pass_next(tables, scope);
        }
    }

    // The declaring place of an own quantity, which has a position of its own.
    fn heed_own(&mut self, entry: u32, tables: &mut Tables)
        requires taking { TakingInvariant self.old (tables_model tables.old) }
        requires entry { entry < entry_count (tables_model tables.old) }
        ensures heeds { PreservesState self.old (tables_model tables.old) self.new (tables_model tables.new) }
        ensures judges { Judges self.old.bytes (tables_model tables.old) (tables_model tables.new) }
    {
        if entries::is_second(tables, entry) {
            self.fault(own_line(entry, tables), FaultKind::DeclaredTwice, tables);
        }
        self.position = self.position.saturating_add(1);
    }
}

// The first address in the scope of a construct, which stands in this one.
fn first_address(construct: Construct, around: u32, tables: &Tables) -> u64
    requires lists { HasLists (tables_model tables.now) }
    requires scope { around < scope_count (tables_model tables.now) }
    ensures { result < 2 ^ 24 }
{
    match construct {
        Construct::Block => BLOCK_START,
        Construct::ProcedureDeclaration => PROCEDURE_START + words_of_value(around, tables),
        _ => 0,
    }
}

// How many words the value takes of the procedure whose declaration comes next in the scope.
fn words_of_value(scope: u32, tables: &Tables) -> u64
    requires lists { HasLists (tables_model tables.now) }
    requires scope { scope < scope_count (tables_model tables.now) }
    ensures { result ≤ 1 }
{
    match scopes::next(tables, scope) {
        Some(entry) if class_at(entries::get(tables, entry, Field::Kind)) == Class::Function => 1,
        _ => 0,
    }
}

// The line on which an own quantity is declared.
fn own_line(entry: u32, tables: &Tables) -> u32
    requires lists { HasLists (tables_model tables.now) }
    requires entry { entry < entry_count (tables_model tables.now) }
    ensures { result < 2 ^ 24 }
{
    match entries::own_entry(tables, entry) {
        Some(own) => entries::get(tables, own, Field::Line).min(GREATEST_LINE) as u32,
        None => 0,
    }
}
