// The tree of names: each identifier that was read, letter by letter, with its number.
//
// A node stands for a name. Its children are the names with one symbol more; each links to the one that came before it.
ghost use Rattle.std.specs.Prelude.{◌≡◌, ◌≤◌, ◌<◌, ◌+◌, ◌*◌, ◌^◌, ◌++◌, ◌∷◌, [], ℕ, List, length, drop, slice_index};
ghost use Rattle.gier_symbol.specs.Assembly.{byte_of, standard_names};
ghost use Rattle.gier_symbol.specs.Symbols.{IsSymbol};
ghost use Rattle.gier_text.specs.TablesModel.{tables_model};
ghost use Rattle.gier_text.specs.Lists.{list_at, word_at, with_word};
ghost use Rattle.gier_pass2.specs.Names.{HasNodes, KeepsNodes, node_count};
ghost use Rattle.gier_pass2.specs.Spelled.{IsSign};
ghost use Rattle.gier_pass2.specs.Standard.{Spells, standard_bytes};
ghost use Rattle.gier_pass2.specs.Tree.{Tree, IsTree, IsChild, Knows, Names, IsNumberOf, child_added, nodes_of, sign_at, is_same};

use gier_limits::STANDARD_NAMES;
use gier_symbol::{Symbol, Tag};
use gier_text::Tables;

// The list of nodes, the only one of this pass. The first node is the empty name.
const NODES: u8 = 0;

const ROOT: u32 = 0;

// The parts of a node: its last symbol's tag and value, the child of the same parent before it, its last child, and
// its number increased by 1. Each of the last three is 0 where there is none.
const TAG: u8 = 0;

const VALUE: u8 = 1;

const ELDER: u8 = 2;

const CHILD: u8 = 3;

const NUMBER: u8 = 4;

const WIDTH: u8 = 5;

// The standard identifiers, each with a space behind it.
const STANDARD: &[u8] = b"outinteger outtext outcr outchar ininteger inchar abs sign ";

fn link(tables: &Tables, node: u32, part: u8, below: u32) -> u32
    requires nodes { HasNodes (tables_model tables.now) }
    requires node { node < node_count (tables_model tables.now) }
    requires part { part < 5 }
    requires some { 0 < below }
    ensures below { result < below }
    ensures word { word_at (nodes_of (tables_model tables.now)) node part < below
        → result ≡ word_at (nodes_of (tables_model tables.now)) node part }
{
    let word = tables.word(NODES, node, part);
    if word < u64::from(below) {
        word as u32
    } else {
        ROOT
    }
}

fn is_at(tables: &Tables, node: u32, s: Symbol) -> bool
    requires nodes { HasNodes (tables_model tables.now) }
    requires node { node < node_count (tables_model tables.now) }
    ensures { result ≡ is_same (sign_at (nodes_of (tables_model tables.now)) node) s }
{
    tables.word(NODES, node, TAG) == u64::from(s.tag) && tables.word(NODES, node, VALUE) == s.value
}

// The node of the name with one symbol more, or the root where there is none.
fn child(tables: &Tables, node: u32, s: Symbol) -> u32
    requires nodes { HasNodes (tables_model tables.now) }
    requires node { node < node_count (tables_model tables.now) }
    ensures node { result < node_count (tables_model tables.now) }
    ensures found { (tree : Tree) → IsTree (nodes_of (tables_model tables.now)) tree
        → IsChild (nodes_of (tables_model tables.now)) tree node s result }
{
    let mut at = link(tables, node, CHILD, tables.len(NODES));
    while at != ROOT && !is_at(tables, at, s) {
        at = link(tables, at, ELDER, at);
    }
    at
}

fn add_child(tables: &mut Tables, node: u32, s: Symbol) -> u32
    requires nodes { HasNodes (tables_model tables.old) }
    requires node { node < node_count (tables_model tables.old) }
    requires symbol { IsSymbol s }
    requires room { node_count (tables_model tables.old) < (list_at (tables_model tables.old).lists 0).capacity }
    requires small { (list_at (tables_model tables.old).lists 0).capacity < 2 ^ 32 }
    ensures kept { KeepsNodes (tables_model tables.old) (tables_model tables.new) }
    ensures more { node_count (tables_model tables.new) ≡ node_count (tables_model tables.old) + 1 }
    ensures node { result < node_count (tables_model tables.new) }
    ensures added { nodes_of (tables_model tables.new) ≡ child_added (nodes_of (tables_model tables.old)) node s }
    ensures last { result ≡ node_count (tables_model tables.old) }
{
    let elder = tables.word(NODES, node, CHILD);
    let at = tables.len(NODES);
    tables.push(NODES, &[u64::from(s.tag), s.value, elder, 0, 0]);
    tables.set_word(NODES, node, CHILD, u64::from(at));
    at
}

/// The node of the name with one symbol more, which is added where there is none.
pub(crate) fn step(tables: &mut Tables, node: u32, s: Symbol) -> u32
    requires nodes { HasNodes (tables_model tables.old) }
    requires node { node < node_count (tables_model tables.old) }
    requires symbol { IsSymbol s }
    requires room { node_count (tables_model tables.old) < (list_at (tables_model tables.old).lists 0).capacity }
    requires small { (list_at (tables_model tables.old).lists 0).capacity < 2 ^ 32 }
    ensures kept { KeepsNodes (tables_model tables.old) (tables_model tables.new) }
    ensures few { node_count (tables_model tables.new) ≤ node_count (tables_model tables.old) + 1 }
    ensures node { result < node_count (tables_model tables.new) }
    ensures names { (tree : Tree) → (known : ℕ) → (names : List (List ℕ)) → Knows (tables_model tables.old) tree known names
        → IsSign s
        → Names (tables_model tables.new) known names result (tree.name node ++ byte_of s ∷ []) }
{
    let known = child(tables, node, s);
    if known != ROOT {
        return known;
    }
    add_child(tables, node, s)
}

/// The first step of a name.
pub(crate) fn first(tables: &mut Tables, s: Symbol) -> u32
    requires nodes { HasNodes (tables_model tables.old) }
    requires symbol { IsSymbol s }
    requires room { node_count (tables_model tables.old) < (list_at (tables_model tables.old).lists 0).capacity }
    requires small { (list_at (tables_model tables.old).lists 0).capacity < 2 ^ 32 }
    ensures kept { KeepsNodes (tables_model tables.old) (tables_model tables.new) }
    ensures few { node_count (tables_model tables.new) ≤ node_count (tables_model tables.old) + 1 }
    ensures node { result < node_count (tables_model tables.new) }
    ensures names { (tree : Tree) → (known : ℕ) → (names : List (List ℕ)) → Knows (tables_model tables.old) tree known names
        → IsSign s
        → Names (tables_model tables.new) known names result (byte_of s ∷ []) }
{
    step(tables, ROOT, s)
}

/// The number of the identifier with this name; a new one gets the next number.
pub(crate) fn number(tables: &mut Tables, node: u32, names: &mut u32) -> u64
    requires nodes { HasNodes (tables_model tables.old) }
    requires node { node < node_count (tables_model tables.old) }
    requires few { names.old + 1 < 2 ^ 32 }
    ensures kept { KeepsNodes (tables_model tables.old) (tables_model tables.new) }
    ensures same { node_count (tables_model tables.new) ≡ node_count (tables_model tables.old) }
    ensures few { names.new ≤ names.old + 1 }
    ensures value { result < names.new }
    ensures number { (tree : Tree) → (list : List (List ℕ)) → Knows (tables_model tables.old) tree names.old list
        → IsNumberOf (tables_model tables.new) tree names.new list (tree.name node) result }
{
    let known = tables.word(NODES, node, NUMBER);
    if known != 0 && known <= u64::from(*names) {
        return known - 1;
    }
    let number = *names;
    *names = number + 1;
    tables.set_word(NODES, node, NUMBER, u64::from(number) + 1);
    u64::from(number)
}

// The node of the standard name with one letter more. A space ends the name, and gives the root.
fn spell(tables: &mut Tables, node: u32, byte: u8, names: &mut u32) -> u32
    requires nodes { HasNodes (tables_model tables.old) }
    requires node { node < node_count (tables_model tables.old) }
    requires room { node_count (tables_model tables.old) < (list_at (tables_model tables.old).lists 0).capacity }
    requires small { (list_at (tables_model tables.old).lists 0).capacity < 2 ^ 32 }
    requires few { names.old + 1 < 2 ^ 32 }
    ensures kept { KeepsNodes (tables_model tables.old) (tables_model tables.new) }
    ensures few { node_count (tables_model tables.new) ≤ node_count (tables_model tables.old) + 1 }
    ensures node { result < node_count (tables_model tables.new) }
    ensures names { names.new ≤ names.old + 1 }
    ensures spells { (i : ℕ) → i < length standard_bytes → byte ≡ slice_index standard_bytes i
        → Spells (tables_model tables.old) names.old node (drop i standard_bytes)
        → Spells (tables_model tables.new) names.new result (drop (i + 1) standard_bytes) }
{
    if byte == b' ' {
        number(tables, node, names);
        return ROOT;
    }
    step(tables, node, Symbol::new(Tag::Letter, u64::from(byte), 0))
}

// Opens the tree with its first node.
fn plant(tables: &mut Tables, bytes: u32)
    requires cleared { length (tables_model tables.old).lists ≡ 0 }
    requires unused { (tables_model tables.old).used ≡ 0 }
    requires limit { (tables_model tables.old).limit ≤ 2 ^ 19 }
    requires bytes { bytes ≤ (tables_model tables.old).limit }
    ensures nodes { HasNodes (tables_model tables.new) }
    ensures one { node_count (tables_model tables.new) ≡ 1 }
    ensures capacity { (list_at (tables_model tables.new).lists 0).capacity ≡ bytes + 64 }
    ensures limit { (tables_model tables.new).limit ≡ (tables_model tables.old).limit }
    ensures faults { (tables_model tables.new).faults ≡ (tables_model tables.old).faults }
    ensures spells { Spells (tables_model tables.new) 0 0 standard_bytes }
{
    tables.list(WIDTH, bytes + STANDARD_NAMES);
    tables.push(NODES, &[0, 0, 0, 0, 0]);
}

/// Opens the tree with the standard identifiers, and gives how many they are.
pub(crate) fn open(tables: &mut Tables, bytes: u32) -> u32
    requires cleared { length (tables_model tables.old).lists ≡ 0 }
    requires unused { (tables_model tables.old).used ≡ 0 }
    requires limit { (tables_model tables.old).limit ≤ 2 ^ 19 }
    requires bytes { bytes ≤ (tables_model tables.old).limit }
    ensures nodes { HasNodes (tables_model tables.new) }
    ensures capacity { (list_at (tables_model tables.new).lists 0).capacity ≡ bytes + 64 }
    ensures few { node_count (tables_model tables.new) ≤ 60 }
    ensures limit { (tables_model tables.new).limit ≡ (tables_model tables.old).limit }
    ensures faults { (tables_model tables.new).faults ≡ (tables_model tables.old).faults }
    ensures names { result ≤ 60 }
    ensures standard { Names (tables_model tables.new) result standard_names 0 [] }
{
    plant(tables, bytes);
    let mut names = 0u32;
    let mut node = ROOT;
    for byte in STANDARD {
        node = spell(tables, node, *byte, &mut names);
    }
    names
}
