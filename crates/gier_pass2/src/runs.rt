// Runs of letters and digits, of which each is one identifier or one number.
ghost use Rattle.std.specs.Prelude.{◌≡◌, ◌≤◌, ◌<◌, ◌+◌, ◌*◌, ◌^◌, ◌++◌, ◌∷◌, [], ℕ, List, length, IsTrue, IfSome, min, false, true};
ghost use Rattle.gier_symbol.specs.declared.symbol.Symbol.{Symbol};
ghost use Rattle.gier_symbol.specs.Assembly.{Lexeme as RunOf};
ghost use Rattle.gier_symbol.specs.Symbols.{IsSymbol};
ghost use Rattle.gier_text.specs.TablesModel.{tables_model};
ghost use Rattle.gier_text.specs.Lists.{list_at};
ghost use Rattle.gier_pass2.specs.declared.runs.Lexeme.TheVariants.{Nothing};
ghost use Rattle.gier_pass2.specs.Progress.{IsEndedRun};
ghost use Rattle.gier_pass2.specs.Letters.{is_end, IsWritable};
ghost use Rattle.gier_pass2.specs.Names.{HasNodes, KeepsNodes, node_count};
ghost use Rattle.gier_pass2.specs.Reading.{IsReading, begun_by};
ghost use Rattle.gier_pass2.specs.Lexemes.{IsRun, EndsAs, lexeme_symbols, goes_on, begins, Values};
ghost use Rattle.gier_pass2.specs.Spelled.{IsSpelled};
ghost use Rattle.gier_pass2.specs.ParameterComma.{is_kind};

use crate::names;
use gier_symbol::{Symbol, Tag};
use gier_text::{Fault, FaultKind, Tables};
use std::cmp;

/// The identifier or number that is being read.
#[derive(Debug, Clone, Copy, PartialEq, Eq)]
pub(crate) enum Lexeme {
    Nothing,
    /// `node` is that of the letters and digits so far; `plain` tells that there are letters only.
    Name {
        node: u32,
        line: u32,
        plain: bool,
    },
    /// The value so far; `position` is how many symbols came before the number.
    Number {
        value: u64,
        line: u32,
        position: u32,
    },
}

/// What a run gave at its end; `plain` tells an identifier of letters only.
#[derive(Debug, Clone, Copy)]
pub(crate) struct AssembledToken {
    pub(crate) symbol: Symbol,
    pub(crate) plain: bool,
}

// The least number that is too large; larger ones are kept as this one.
const TOO_LARGE: u64 = 1 << 39;

fn is(kind: Tag, s: Symbol) -> bool
    ensures { result ≡ is_kind kind s }
{
    s.tag == kind.number()
}

/// Whether no run is read.
pub(crate) fn is_none(run: Lexeme) -> bool
    ensures none { result ≡ true → lexeme_symbols run ≡ 0 }
    ensures some { result ≡ false → lexeme_symbols run ≡ 1 }
{
    match run {
        Lexeme::Nothing => true,
        Lexeme::Name { .. } => false,
        Lexeme::Number { .. } => false,
    }
}

/// Whether the run has the symbol too.
pub(crate) fn goes_on(run: Lexeme, s: Symbol) -> bool
    ensures { result ≡ goes_on run s }
{
    match run {
        Lexeme::Nothing => false,
        Lexeme::Name { .. } => is(Tag::Letter, s) || is(Tag::Digit, s),
        Lexeme::Number { .. } => is(Tag::Digit, s),
    }
}

fn with_digit(value: u64, digit: u64) -> u64
    requires value { value ≤ 2 ^ 39 }
    requires digit { digit < 2 ^ 40 }
    ensures { result ≡ min (10 * value + digit) (2 ^ 39) }
{
    cmp::min(10 * value + digit, TOO_LARGE)
}

/// The run with one symbol more.
pub(crate) fn grown(run: Lexeme, s: Symbol, tables: &mut Tables) -> Lexeme
    requires nodes { HasNodes (tables_model tables.old) }
    requires run { IsRun run (node_count (tables_model tables.old)) }
    requires symbol { IsSymbol s }
    requires goes_on { IsTrue (goes_on run s) }
    requires room { node_count (tables_model tables.old) < (list_at (tables_model tables.old).lists 0).capacity }
    requires small { (list_at (tables_model tables.old).lists 0).capacity < 2 ^ 32 }
    ensures kept { KeepsNodes (tables_model tables.old) (tables_model tables.new) }
    ensures few { node_count (tables_model tables.new) ≤ node_count (tables_model tables.old) + 1 }
    ensures run { IsRun result (node_count (tables_model tables.new)) }
    ensures running { lexeme_symbols result ≡ lexeme_symbols run }
    ensures reads { (known : ℕ) → (read : ℕ) → (done : List RunOf) → (pending : List Symbol)
        → IsReading (tables_model tables.old) known run read done pending → IsSpelled s
        → IsReading (tables_model tables.new) known result (read + 1) done (pending ++ s ∷ []) }
{
    match run {
        Lexeme::Nothing => Lexeme::Nothing,
        Lexeme::Name { node, line, plain } => Lexeme::Name {
            node: names::step(tables, node, s),
            line,
            plain: plain && is(Tag::Letter, s),
        },
        Lexeme::Number {
            value,
            line,
            position,
        } => Lexeme::Number {
            value: with_digit(value, s.value),
            line,
            position,
        },
    }
}

/// The run that the symbol begins, if any.
pub(crate) fn begun(s: Symbol, position: u32, tables: &mut Tables) -> Lexeme
    requires nodes { HasNodes (tables_model tables.old) }
    requires symbol { IsSymbol s }
    requires room { node_count (tables_model tables.old) < (list_at (tables_model tables.old).lists 0).capacity }
    requires small { (list_at (tables_model tables.old).lists 0).capacity < 2 ^ 32 }
    ensures kept { KeepsNodes (tables_model tables.old) (tables_model tables.new) }
    ensures few { node_count (tables_model tables.new) ≤ node_count (tables_model tables.old) + 1 }
    ensures run { IsRun result (node_count (tables_model tables.new)) }
    ensures running { lexeme_symbols result ≡ begins s }
    ensures reads { (known : ℕ) → (done : List RunOf) → IsReading (tables_model tables.old) known Nothing position done []
        → IsSpelled s
        → IsReading (tables_model tables.new) known result (position + 1) done (begun_by s) }
{
    if is(Tag::Letter, s) {
        return Lexeme::Name {
            node: names::first(tables, s),
            line: s.line,
            plain: true,
        };
    }
    if is(Tag::Digit, s) {
        return Lexeme::Number {
            value: with_digit(0, s.value),
            line: s.line,
            position,
        };
    }
    Lexeme::Nothing
}

// The value of a number; one that is too large is a fault.
fn valued(value: u64, line: u32, position: u32, tables: &mut Tables) -> u64
    requires value { value ≤ 2 ^ 39 }
    requires room { length (tables_model tables.old).faults < (tables_model tables.old).limit + 1 }
    ensures small { result < 2 ^ 39 }
    ensures valued { Values value line position (tables_model tables.old) result (tables_model tables.new) }
{
    if value < TOO_LARGE {
        return value;
    }
    tables.add_fault(Fault {
        position,
        line,
        kind: FaultKind::Number,
    });
    0
}

/// What the run gives at its end. A number that is too large is a fault.
pub(crate) fn ended(run: Lexeme, tables: &mut Tables, known: &mut u32) -> Option<AssembledToken>
    requires nodes { HasNodes (tables_model tables.old) }
    requires run { IsRun run (node_count (tables_model tables.old)) }
    requires few { known.old + 1 < 2 ^ 32 }
    requires room { length (tables_model tables.old).faults + lexeme_symbols run ≤ (tables_model tables.old).limit + 1 }
    ensures nodes { HasNodes (tables_model tables.new) }
    ensures same { node_count (tables_model tables.new) ≡ node_count (tables_model tables.old) }
    ensures capacity { (list_at (tables_model tables.new).lists 0).capacity ≡ (list_at (tables_model tables.old).lists 0).capacity }
    ensures limit { (tables_model tables.new).limit ≡ (tables_model tables.old).limit }
    ensures faults { length (tables_model tables.new).faults ≤ length (tables_model tables.old).faults + lexeme_symbols run }
    ensures few { known.new ≤ known.old + lexeme_symbols run }
    ensures ends { EndsAs run result }
    ensures writable { IfSome result (λ word. (bytes : ℕ) → known.new ≤ bytes + 64 → IsWritable bytes word.symbol) }
    ensures no_end { IfSome result (λ word. is_end word.symbol ≡ false) }
    ensures reads { (read : ℕ) → (done : List RunOf) → (pending : List Symbol)
        → IsReading (tables_model tables.old) known.old run read done pending
        → IsEndedRun (tables_model tables.new) known.new read done pending result }
{
    match run {
        Lexeme::Nothing => None,
        Lexeme::Name { node, line, plain } => {
            let number = names::number(tables, node, known);
            Some(AssembledToken {
                symbol: Symbol::new(Tag::Identifier, number, line),
                plain,
            })
        }
        Lexeme::Number {
            value,
            line,
            position,
        } => {
            let value = valued(value, line, position, tables);
            Some(AssembledToken {
                symbol: Symbol::new(Tag::Number, value, line),
                plain: false,
            })
        }
    }
}
