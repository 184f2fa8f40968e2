// The lookahead: labels, and words of which it isn't known yet what they begin; behind it may stand an identifier that may be
// a label. And the symbols that are ready to be written.
ghost use Rattle.std.specs.Prelude.{◌≡◌, ◌≤◌, ◌<◌, ◌+◌, ◌^◌, ◌++◌, ◌∷◌, [], length, IfSome};
ghost use Rattle.gier_symbol.specs.Symbols.{IsSymbol};
ghost use Rattle.gier_text.specs.TablesModel.{tables_model};
ghost use Rattle.gier_text.specs.Outbox.{symbol_at, if_any};
ghost use Rattle.gier_text3.specs.PurePass.{first_line, name_symbols};
ghost use Rattle.gier_pass3.specs.Lists.{ListsInvariant, AddsReady, AddsLookahead, EmptiesLookahead, lookahead_in, ready_in};
ghost use Rattle.gier_pass3.specs.Lists.{lookahead_by, ready_by};

use gier_symbol::Symbol;
use gier_text::{Tables, put};

/// The list of symbols that are looked ahead.
pub const LOOKAHEAD: u8 = 1;

/// The list of symbols that are ready to be written.
pub const READY: u8 = 2;

/// Makes a symbol ready to be written.
pub fn ready(tables: &mut Tables, s: Symbol)
    requires lists { ListsInvariant (tables_model tables.old) }
    requires room { length (ready_by (tables_model tables.old)) < (ready_in (tables_model tables.old)).capacity }
    requires symbol { IsSymbol s }
    ensures { AddsReady (s ∷ []) (tables_model tables.old) (tables_model tables.new) }
{
    put(tables, READY, s);
}

/// Puts a symbol behind the lookahead.
pub fn add_lookahead(tables: &mut Tables, s: Symbol)
    requires lists { ListsInvariant (tables_model tables.old) }
    requires room { length (lookahead_by (tables_model tables.old)) < (lookahead_in (tables_model tables.old)).capacity }
    requires symbol { IsSymbol s }
    ensures { AddsLookahead (s ∷ []) (tables_model tables.old) (tables_model tables.new) }
{
    put(tables, LOOKAHEAD, s);
}

fn lookahead_at(tables: &Tables, at: u32) -> Option<Symbol>
    requires lists { ListsInvariant (tables_model tables.now) }
    requires at { at < (lookahead_in (tables_model tables.now)).count }
    ensures value { result ≡ symbol_at (lookahead_in (tables_model tables.now)) at }
    ensures symbol { IfSome result IsSymbol }
{
    Symbol::decode([tables.word(LOOKAHEAD, at, 0), tables.word(LOOKAHEAD, at, 1)])
}

/// The line of the first symbol of the lookahead, or another line where there is none.
pub fn first_line(tables: &Tables, name: Option<Symbol>, other: u32) -> u32
    requires lists { ListsInvariant (tables_model tables.now) }
    requires name { IfSome name IsSymbol }
    requires other { other < 2 ^ 24 }
    ensures small { result < 2 ^ 24 }
    ensures value { result ≡ first_line (lookahead_by (tables_model tables.now)) name other }
{
    if tables.len(LOOKAHEAD) == 0 {
        return name_line(name, other);
    }
    match lookahead_at(tables, 0) {
        Some(symbol) => symbol.line,
        None => other,
    }
}

fn name_line(name: Option<Symbol>, other: u32) -> u32
    requires name { IfSome name IsSymbol }
    requires other { other < 2 ^ 24 }
    ensures small { result < 2 ^ 24 }
    ensures value { result ≡ first_line [] name other }
{
    match name {
        Some(symbol) => symbol.line,
        None => other,
    }
}

/// Makes the lookahead ready, and the identifier, if any, behind it.
pub fn ready_all(tables: &mut Tables, name: Option<Symbol>)
    requires lists { ListsInvariant (tables_model tables.old) }
    requires name { IfSome name IsSymbol }
    requires room { length (ready_by (tables_model tables.old)) + length (lookahead_by (tables_model tables.old))
        + length (name_symbols name) ≤ (ready_in (tables_model tables.old)).capacity }
    ensures { EmptiesLookahead (ready_by (tables_model tables.old) ++ lookahead_by (tables_model tables.old) ++ name_symbols name)
        (tables_model tables.old) (tables_model tables.new) }
{
    ready_lookahead(tables);
    if let Some(symbol) = name {
        ready(tables, symbol);
    }
}

#[tactic(auto, using(crate::proofs::LookaheadReady::one_more, crate::proofs::LookaheadReady::still_fewer))]
fn ready_lookahead(tables: &mut Tables)
    requires lists { ListsInvariant (tables_model tables.old) }
    requires room { length (ready_by (tables_model tables.old)) + length (lookahead_by (tables_model tables.old))
        ≤ (ready_in (tables_model tables.old)).capacity }
    ensures { EmptiesLookahead (ready_by (tables_model tables.old) ++ lookahead_by (tables_model tables.old))
        (tables_model tables.old) (tables_model tables.new) }
{
    for at in 0..tables.len(LOOKAHEAD) {
        ready_at(tables, at);
    }
    tables.cut(LOOKAHEAD, 0);
}

fn ready_at(tables: &mut Tables, at: u32)
    requires lists { ListsInvariant (tables_model tables.old) }
    requires at { at < (lookahead_in (tables_model tables.old)).count }
    requires room { length (ready_by (tables_model tables.old))
        + length (if_any (symbol_at (lookahead_in (tables_model tables.old)) at)) ≤ (ready_in (tables_model tables.old)).capacity }
    ensures { AddsReady (if_any (symbol_at (lookahead_in (tables_model tables.old)) at))
        (tables_model tables.old) (tables_model tables.new) }
{
    if let Some(symbol) = lookahead_at(tables, at) {
        ready(tables, symbol);
    }
}
