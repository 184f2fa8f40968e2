// The stack of what is wanted next, a list of the tables. The next grammar symbol is last.
ghost use Rattle.std.specs.Prelude.{◌≡◌, ◌≤◌, ◌<◌, ◌+◌, ◌*◌, ◌/◌, ◌^◌, ◌%◌, ◌∷◌, length, IfSome, Some};
ghost use Rattle.gier_text.specs.TablesModel.{tables_model};
ghost use Rattle.gier_grammar.specs.GrammarSymbols.{credit_at, credit_of, credits};
ghost use Rattle.gier_grammar.specs.Productions.{right_side_of, left_after};
ghost use Rattle.gier_grammar.specs.declared.grammar_symbol.GrammarSymbol.{GrammarSymbol};
ghost use Rattle.gier_pass3.specs.Grammar.{StackInvariant, IsAbove, AreAbove, Pops, all_above, item_at, wanted_above, wanted_in};
ghost use Rattle.gier_pass3.specs.Grammar.{word_of};
ghost use Rattle.gier_pass3.specs.Lists.{ListsInvariant, PreservesQueues, stack_in, depth, credit};
ghost use Rattle.gier_pass3.specs.Refinement.{PopsStackEntry, entries_in};
ghost use Rattle.gier_grammar.specs.StackEntries.{above, entry};

use gier_grammar::{GrammarSymbol, Production, StackEntry};
use gier_text::Tables;

/// The list that is the stack.
pub const STACK: u8 = 0;

/// How many words an entry takes.
pub const STACK_WIDTH: u8 = 1;

// What the number of pairs of constants that are left is multiplied by in an entry's word.
const LEFT: u64 = 256;

// How many pairs of constants a segment of own arrays may have behind the first.
const MORE_PAIRS: u64 = 29;

// What a word of the stack stands for.
fn unfold(word: u64) -> Option<StackEntry>
    requires { word < 2 ^ 40 }
    ensures credit { IfSome result (λ wanted. credit_of wanted.symbol ≡ credit_at (word % 256)) }
    ensures small { IfSome result (λ wanted. wanted.left < 2 ^ 32) }
    ensures wanted { (item : GrammarSymbol) → item_at (word % 256) ≡ Some item → result
        ≡ Some (record { symbol = item; left = word / 256 }) }
{
    match GrammarSymbol::of(word % LEFT) {
        Some(item) => Some(StackEntry {
            symbol: item,
            left: word / LEFT,
        }),
        None => None,
    }
}

/// Takes the next entry away, or gives None where the stack is empty.
pub fn pop(tables: &mut Tables) -> Option<StackEntry>
    requires lists { ListsInvariant (tables_model tables.old) }
    ensures queues { PreservesQueues (tables_model tables.old) (tables_model tables.new) }
    ensures less { IfSome result (λ wanted. depth (tables_model tables.new) < depth (tables_model tables.old)) }
    ensures paid { IfSome result
        (λ wanted. credit (tables_model tables.new) + credit_of wanted.symbol ≤ credit (tables_model tables.old)) }
    ensures small { IfSome result (λ wanted. wanted.left < 2 ^ 32) }
    ensures depth { depth (tables_model tables.new) ≤ depth (tables_model tables.old) }
    ensures credit { credit (tables_model tables.new) ≤ credit (tables_model tables.old) }
    ensures read { StackInvariant (tables_model tables.old)
        → Pops (wanted_in (tables_model tables.old)) result (tables_model tables.new) }
    ensures entries { StackInvariant (tables_model tables.old)
        → PopsStackEntry (entries_in (tables_model tables.old)) result (tables_model tables.new) }
{
    let depth = tables.len(STACK);
    if depth == 0 {
        return None;
    }
    let word = tables.word(STACK, depth - 1, 0);
    tables.cut(STACK, depth - 1);
    unfold(word)
}

/// Puts the right side of the production on the stack. `left` is how many pairs of constants could follow where it was applied.
#[tactic(auto, using(crate::proofs::Credits::credits_back))]
pub fn push_right_side(tables: &mut Tables, production: Production, left: u64)
    requires lists { ListsInvariant (tables_model tables.old) }
    requires room { depth (tables_model tables.old) + length (right_side_of production)
        ≤ (stack_in (tables_model tables.old)).capacity }
    requires small { left < 2 ^ 32 }
    ensures queues { PreservesQueues (tables_model tables.old) (tables_model tables.new) }
    ensures depth { depth (tables_model tables.new) ≡ depth (tables_model tables.old) + length (right_side_of production) }
    ensures credit { credit (tables_model tables.new) ≡ credit (tables_model tables.old) + credits (right_side_of production) }
    ensures read { wanted_in (tables_model tables.new)
        ≡ all_above (right_side_of production) (left_after production left) (wanted_in (tables_model tables.old)) }
    ensures entries { entries_in (tables_model tables.new)
        ≡ above (right_side_of production) (left_after production left) (entries_in (tables_model tables.old)) }
    ensures items { StackInvariant (tables_model tables.old)
        → AreAbove (right_side_of production) (left_after production left) (wanted_in (tables_model tables.old))
        → StackInvariant (tables_model tables.new) }
{
    let left = left_after(production, left);
    let items = production.right_side();
    let mut at = items.len();
    while at > 0 {
        at -= 1;
        push(tables, items[at], left);
    }
}

// How many pairs of constants may follow what the production wants.
fn left_after(production: Production, left: u64) -> u64
    requires { left < 2 ^ 32 }
    ensures value { result ≡ left_after production left }
    ensures small { result < 2 ^ 32 }
{
    match production {
        Production::FirstPair => MORE_PAIRS,
        Production::NextPair => left.saturating_sub(1),
        _ => 0,
    }
}

// The word that stands for a grammar symbol.
fn fold(item: GrammarSymbol, left: u64) -> u64
    requires { left < 2 ^ 32 }
    ensures small { result < 2 ^ 40 }
    ensures credit { credit_at (result % 256) ≡ credit_of item }
    ensures word { result ≡ word_of item left }
{
    let beside = if item == GrammarSymbol::MorePairs {
        left
    } else {
        0
    };
    item.number() + beside * LEFT
}

/// Puts a grammar symbol on the stack.
pub fn push(tables: &mut Tables, item: GrammarSymbol, left: u64)
    requires lists { ListsInvariant (tables_model tables.old) }
    requires room { depth (tables_model tables.old) < (stack_in (tables_model tables.old)).capacity }
    requires small { left < 2 ^ 32 }
    ensures queues { PreservesQueues (tables_model tables.old) (tables_model tables.new) }
    ensures depth { depth (tables_model tables.new) ≡ depth (tables_model tables.old) + 1 }
    ensures credit { credit (tables_model tables.new) ≡ credit (tables_model tables.old) + credit_of item }
    ensures read { wanted_in (tables_model tables.new) ≡ wanted_above item left (wanted_in (tables_model tables.old)) }
    ensures entries { entries_in (tables_model tables.new) ≡ entry item left ∷ entries_in (tables_model tables.old) }
    ensures items { StackInvariant (tables_model tables.old) → IsAbove item (wanted_in (tables_model tables.old))
        → StackInvariant (tables_model tables.new) }
{
    let word = fold(item, left);
    tables.push(STACK, &[word]);
}
