// The pass: what it keeps, and what it does with a symbol.
ghost use Rattle.std.specs.Prelude.{◌≡◌, ◌≤◌, ◌<◌, ◌+◌, ◌*◌, ◌^◌, ◌∷◌, suc, [], ℕ, length, All, IsTrue, true, false, not, Some};
ghost use Rattle.gier_symbol.specs.Symbols.{IsSymbol};
ghost use Rattle.gier_symbol.specs.Tags.{number_of};
ghost use Rattle.gier_symbol.specs.Texts.{stands_in};
ghost use Rattle.gier_text.specs.Potential.{potential_of, is_numbered};
ghost use Rattle.gier_text.specs.TablesModel.{tables_model, fresh};
ghost use Rattle.gier_grammar.specs.GrammarSymbols.{credit_of, mark_of};
ghost use Rattle.gier_text3.specs.Marks.{mark_symbol, line_by, opened_by};
ghost use Rattle.gier_tree.specs.Signs.{sign_of, sign_tag};
ghost use Rattle.gier_pass3.specs.Costs.{cost_of, costs, price};
ghost use Rattle.gier_grammar.specs.Productions.{left_after, tag_of, right_side_of};
ghost use Rattle.gier_pass3.specs.Lists.{depth, lookahead_by, ready_by, stack_in};
ghost use Rattle.gier_pass3.specs.Refinement.{RefinesWriting, RefinesEpsilon, RefinesMark, RefinesExpand, RefinesMeet};
ghost use Rattle.gier_pass3.specs.Refinement.{writer_state_in};
ghost use Rattle.gier_text3.specs.PurePass.{actions_on, action_on, as_role, first_line, add_label, name_number, write_lookahead};
ghost use Rattle.gier_text3.specs.PurePass.{with_owns};
ghost use Rattle.gier_grammar.specs.declared.production.Action.TheVariants.{Lookahead};
ghost use Rattle.gier_grammar.specs.declared.grammar_symbol.Mark.TheVariants.{Open};
ghost use Rattle.gier_symbol.specs.ByTag.{sym};
ghost use Rattle.gier_symbol.specs.declared.tag.Tag.TheVariants.{OwnNumber, TextEnd};
ghost use Rattle.gier_pass3.specs.Grammar.{AreAbove, StackInvariant, all_above, wanted_in};
ghost use Rattle.gier_pass3.specs.Invariant.{IsFit, StateInvariant, PreservesState, PreservesStack, PreservesOnSymbol};
ghost use Rattle.gier_pass3.specs.Invariant.{total_potential, SymbolInvariant, PreservesInvariant, PassInvariant, Relates};
ghost use Rattle.gier_pass3.specs.Invariant.{IsTextTwo, HasRoom, OpensLists};
ghost use Rattle.gier_pass3.specs.Found.{Follows, IsBare, faults_of};

use crate::lookahead::{READY, add_lookahead, first_line, ready, ready_all};
use crate::stack::{STACK_WIDTH, pop, push, push_right_side};
use gier_grammar::{Action, GrammarSymbol, Mark, ParseAction, Production, Role, parse_action};
use gier_symbol::{Alphabet, Coded, Symbol, Tag};
use gier_text::{Fault, FaultKind, OUTBOX_WIDTH, Pass, PassStop, Tables, Text, flush};
use gier_tree::Construct;
use gier_word::Odd;

// At most so many grammar symbols are wanted for each symbol of the text, and so many symbols written.
const WANTED_EACH: u32 = 12;

const WRITTEN_EACH: u32 = 8;

// Room for what is wanted before the first symbol, and for what the end writes.
const FIRST_WANTED: u32 = 32;

const LAST_WRITTEN: u32 = 16;

// Identifiers have numbers below this and the number of bytes.
const STANDARD_ROOM: u64 = 64;

/// Pass 3: takes text 2 forward, and writes text 3.
///
/// Its tables hold three lists, and at most one fault.
#[derive(Debug, Drop)]
pub struct Pass3 {
    // How many bytes the program has, and how many symbols were taken.
    bytes: u32,
    read: u32,
    // The line of the last symbol that was taken.
    last: u32,
    // How many own quantities were declared.
    owns: u32,
    // The identifier behind the lookahead that may be a label.
    name: Option<Symbol>,
    // Whether the fault was found. Nothing is written after it.
    stopped: bool,
}

// The number of an identifier; other symbols have none.
#[tactic(auto, using(crate::proofs::Potentials::number_small))]
fn name_number(s: Symbol) -> u64
    requires symbol { IsSymbol s }
    ensures small { result < 2 ^ 40 }
    ensures numbered { (bytes : ℕ) → IsTrue (is_numbered 2 bytes s) → result < bytes + 64 }
    ensures value { result ≡ name_number s }
{
    if s.tag == Tag::Identifier.number() {
        s.value
    } else {
        0
    }
}

// The symbol of a mark.
fn symbol_of(mark: Mark, line: u32) -> Symbol
    requires { line < 2 ^ 24 }
    ensures value { result ≡ mark_symbol mark line }
    ensures fit { (bytes : ℕ) → IsFit 3 bytes result }
    ensures potential { potential_of 3 result.tag ≡ 1 }
{
    match mark {
        Mark::Open(construct) => Symbol::new(Tag::OpenMark, construct.number(), line),
        Mark::Shut(construct) => Symbol::new(Tag::ShutMark, construct.number(), line),
    }
}

// A symbol in a role.
#[tactic(auto, using(crate::proofs::Potentials::role_letter, crate::proofs::Potentials::small_number))]
fn in_role(role: Role, s: Symbol) -> Symbol
    requires symbol { IsSymbol s }
    ensures value { result ≡ as_role role s }
    ensures fit { (bytes : ℕ) → IsFit 2 bytes s → IsFit 3 bytes result }
    ensures potential { potential_of 3 result.tag ≡ potential_of 3 (number_of (tag_of role)) }
{
    Symbol::new(role.tag(), name_number(s), s.line)
}

impl Pass3 {
    /// The pass over text 2 of a program of so many bytes. The tables must be cleared and hold no fault.
    pub fn open(tables: &mut Tables, bytes: u32) -> Pass3
        requires cleared { tables_model tables.old ≡ fresh (tables_model tables.old).limit }
        requires bytes { bytes ≤ (tables_model tables.old).limit }
        ensures stands { PassInvariant result (tables_model tables.new) [] [] }
        ensures bytes { result.bytes ≡ bytes }
        ensures faults { (tables_model tables.new).faults ≡ [] }
        ensures limit { (tables_model tables.new).limit ≡ (tables_model tables.old).limit }
    {
        open_lists(tables, bytes);
        push(tables, GrammarSymbol::TextEnd, 0);
        push(tables, GrammarSymbol::ShutProgram, 0);
        push(tables, GrammarSymbol::Program, 0);
        push(tables, GrammarSymbol::OpenProgram, 0);
        Pass3 {
            bytes,
            read: 0,
            last: 0,
            owns: 0,
            name: None,
            stopped: false,
        }
    }

    // Takes a symbol, unless the fault was found.
    fn step(&mut self, s: Symbol, tables: &mut Tables)
        requires ready { SymbolInvariant self.old (tables_model tables.old) }
        requires light { total_potential self.old (tables_model tables.old) ≤ 8 * self.old.read + 2 }
        requires more { self.old.read ≤ self.old.bytes }
        requires symbol { IsFit 2 self.old.bytes s }
        ensures steps { PreservesInvariant self.old self.new (tables_model tables.old) (tables_model tables.new) }
        ensures stays { self.old.stopped ≡ true
            → (self.new.stopped ≡ true) × ((tables_model tables.new).faults ≡ (tables_model tables.old).faults) }
        ensures told { self.old.stopped ≡ false → (tables_model tables.new).faults
            ≡ faults_of self.new.stopped self.old.read s.line }
        ensures follows { self.old.stopped ≡ false → IsBare s → StackInvariant (tables_model tables.old)
            → Follows self.new.stopped s (tables_model tables.old) (tables_model tables.new) }
        ensures silent { self.old.stopped ≡ true → ready_by (tables_model tables.new) ≡ ready_by (tables_model tables.old) }
        ensures wrote { self.old.stopped ≡ false → IsBare s → StackInvariant (tables_model tables.old)
            → RefinesMeet (sign_tag (sign_of s)) s self.old (tables_model tables.old) self.new (tables_model tables.new) }
    {
        if !self.stopped {
            if let Some(kind) = Tag::of(s.tag) {
                self.meet(kind, s, tables);
            }
        }
        self.read += 1;
    }

    // What is wanted next takes the symbol, or there is a fault.
    fn meet(&mut self, kind: Tag, s: Symbol, tables: &mut Tables)
        requires room { HasRoom 8 12 self.old (tables_model tables.old) }
        requires none { (tables_model tables.old).faults ≡ [] }
        requires going { self.old.stopped ≡ false }
        requires symbol { IsFit 2 self.old.bytes s }
        requires owns { self.old.owns ≤ 32 * self.old.read }
        requires within { self.old.read ≤ 524288 }
        ensures owns { self.new.owns ≤ self.old.owns + 32 }
        ensures meets { PreservesOnSymbol self.old self.new (tables_model tables.old) (tables_model tables.new) }
        ensures faults { (tables_model tables.new).faults ≡ faults_of self.new.stopped self.old.read s.line }
        ensures follows { sign_tag (sign_of s) ≡ kind → StackInvariant (tables_model tables.old)
            → Follows self.new.stopped s (tables_model tables.old) (tables_model tables.new) }
        ensures wrote { StackInvariant (tables_model tables.old)
            → RefinesMeet kind s self.old (tables_model tables.old) self.new (tables_model tables.new) }
    {
        let mut opened = false;
        while let Some(wanted) = pop(tables) {
            match parse_action(wanted.symbol, kind, wanted.left) {
                ParseAction::Error => {
                    self.fail(s.line, tables);
                    return;
                }
                ParseAction::Epsilon => {
                    opened = self.write_epsilon(wanted.symbol, s.line, opened, tables);
                }
                ParseAction::Expand(production) => {
                    self.expand(production, wanted.left, s, tables);
                    return;
                }
            }
        }
        self.fail(s.line, tables);
    }

    // No program goes on with a symbol of this line.
    fn fail(&mut self, line: u32, tables: &mut Tables)
        requires holds { StateInvariant self.old (tables_model tables.old) }
        requires none { (tables_model tables.old).faults ≡ [] }
        ensures owns { self.new.owns ≡ self.old.owns }
        ensures meets { PreservesOnSymbol self.old self.new (tables_model tables.old) (tables_model tables.new) }
        ensures stopped { self.new.stopped ≡ true }
        ensures faults { (tables_model tables.new).faults ≡ faults_of true self.old.read line }
        ensures ready { ready_by (tables_model tables.new) ≡ ready_by (tables_model tables.old) }
    {
        self.stopped = true;
        tables.add_fault(Fault {
            position: self.read,
            line,
            kind: FaultKind::Structure,
        });
    }

    // A production takes the symbol.
    fn expand(&mut self, production: Production, left: u64, s: Symbol, tables: &mut Tables)
        requires room { HasRoom (price production) 12 self.old (tables_model tables.old) }
        requires small { left < 2 ^ 32 }
        requires symbol { IsFit 2 self.old.bytes s }
        requires owns { self.old.owns + price production < 2 ^ 32 }
        ensures owns { self.new.owns ≤ self.old.owns + price production }
        ensures moves { PreservesState (price production) 12 self.old self.new (tables_model tables.old) (tables_model tables.new) }
        ensures read { wanted_in (tables_model tables.new)
            ≡ all_above (right_side_of production) (left_after production left) (wanted_in (tables_model tables.old)) }
        ensures items { StackInvariant (tables_model tables.old)
            → AreAbove (right_side_of production) (left_after production left) (wanted_in (tables_model tables.old))
            → StackInvariant (tables_model tables.new) }
        ensures wrote { RefinesExpand production left s self.old (tables_model tables.old) self.new (tables_model tables.new) }
    {
        self.perform_all(production.actions(), s, tables);
        push_right_side(tables, production, left);
        self.last = s.line;
    }

    // Writes what is written where a grammar symbol is nothing: a mark, or the lookahead. Tells whether a construct was
    // opened before this symbol, and has none.
    fn write_epsilon(
        &mut self,
        item: GrammarSymbol,
        here: u32,
        opened: bool,
        tables: &mut Tables,
    ) -> bool
        requires room { HasRoom (credit_of item) 0 self.old (tables_model tables.old) }
        requires here { here < 2 ^ 24 }
        ensures preserves { PreservesStack (credit_of item) 0
            self.old self.new (tables_model tables.old) (tables_model tables.new) }
        ensures opened { result ≡ opened_by (mark_of item) opened }
        ensures wrote { RefinesEpsilon item here opened result
            self.old (tables_model tables.old) self.new (tables_model tables.new) }
    {
        if let Some(mark) = item.mark() {
            return self.write_mark(mark, here, opened, tables);
        }
        match item {
            GrammarSymbol::Statement
            | GrammarSymbol::AfterName
            | GrammarSymbol::Branch
            | GrammarSymbol::AfterBranchName => {
                self.write_lookahead(tables);
                opened
            }
            _ => opened,
        }
    }

    fn write_mark(&mut self, mark: Mark, here: u32, opened: bool, tables: &mut Tables) -> bool
        requires room { HasRoom 1 0 self.old (tables_model tables.old) }
        requires here { here < 2 ^ 24 }
        ensures preserves { PreservesStack 1 0 self.old self.new (tables_model tables.old) (tables_model tables.new) }
        ensures opened { result ≡ opened_by (Some mark) opened }
        ensures wrote { RefinesMark mark here opened result self.old (tables_model tables.old) self.new (tables_model tables.new) }
    {
        let line = self.line_of(mark, here, opened);
        self.write(symbol_of(mark, line), tables);
        match mark {
            Mark::Open(_) => true,
            Mark::Shut(_) => false,
        }
    }

    // A construct ends with the last symbol; one without symbols has the line of the symbol that follows.
    fn line_of(&self, mark: Mark, here: u32, opened: bool) -> u32
        requires last { self.now.last < 2 ^ 24 }
        requires here { here < 2 ^ 24 }
        ensures value { result ≡ line_by mark here self.now.last opened }
        ensures small { result < 2 ^ 24 }
    {
        match mark {
            Mark::Open(_) => here,
            Mark::Shut(_) => { if opened { here } else { self.last } }
        }
    }

    // Does with the symbol what the actions tell, in order.
    fn perform_all(&mut self, actions: &[Action], s: Symbol, tables: &mut Tables)
        requires room { HasRoom (costs actions.now) 0 self.old (tables_model tables.old) }
        requires symbol { IsFit 2 self.old.bytes s }
        requires owns { self.old.owns + costs actions.now < 2 ^ 32 }
        ensures preserves { PreservesStack (costs actions.now) (costs actions.now)
            self.old self.new (tables_model tables.old) (tables_model tables.new) }
        ensures wrote { RefinesWriting (actions_on actions.now s)
            self.old (tables_model tables.old) self.new (tables_model tables.new) }
    {
        for action in actions {
            self.perform(*action, s, tables);
        }
    }

    fn perform(&mut self, action: Action, s: Symbol, tables: &mut Tables)
        requires room { HasRoom (cost_of action) 0 self.old (tables_model tables.old) }
        requires symbol { IsFit 2 self.old.bytes s }
        requires owns { self.old.owns + cost_of action < 2 ^ 32 }
        ensures preserves { PreservesStack (cost_of action) (cost_of action)
            self.old self.new (tables_model tables.old) (tables_model tables.new) }
        ensures wrote { RefinesWriting (action_on action s) self.old (tables_model tables.old) self.new (tables_model tables.new) }
    {
        match action {
            Action::Open(construct) => self.open_before(construct, s.line, tables),
            Action::WriteLookahead => self.write_lookahead(tables),
            Action::Write => self.write(s, tables),
            Action::WriteAs(role) => self.write(in_role(role, s), tables),
            Action::WriteOwn => self.write_own(s.line, tables),
            Action::WriteEnd => self.write_end(s.line, tables),
            Action::Lookahead => self.add_lookahead(s, tables),
            Action::LookaheadName => self.name = Some(s),
            Action::LookaheadLabel => self.add_label(s, tables),
        }
    }

    // Makes a symbol ready.
    fn write(&mut self, s: Symbol, tables: &mut Tables)
        requires room { HasRoom (potential_of 3 s.tag) 0 self.old (tables_model tables.old) }
        requires fit { IsFit 3 self.old.bytes s }
        ensures preserves { PreservesStack (potential_of 3 s.tag) 0
            self.old self.new (tables_model tables.old) (tables_model tables.new) }
        ensures wrote { RefinesWriting (λ c next. s ∷ next c)
            self.old (tables_model tables.old) self.new (tables_model tables.new) }
    {
        ready(tables, s);
    }

    fn add_lookahead(&mut self, s: Symbol, tables: &mut Tables)
        requires room { HasRoom (potential_of 3 s.tag) 0 self.old (tables_model tables.old) }
        requires fit { IsFit 3 self.old.bytes s }
        ensures preserves { PreservesStack (potential_of 3 s.tag) 0
            self.old self.new (tables_model tables.old) (tables_model tables.new) }
        ensures wrote { RefinesWriting (action_on Lookahead s)
            self.old (tables_model tables.old) self.new (tables_model tables.new) }
    {
        add_lookahead(tables, s);
    }

    // Makes the lookahead ready.
    fn write_lookahead(&mut self, tables: &mut Tables)
        requires room { HasRoom 0 0 self.old (tables_model tables.old) }
        ensures preserves { PreservesStack 0 0 self.old self.new (tables_model tables.old) (tables_model tables.new) }
        ensures wrote { RefinesWriting write_lookahead self.old (tables_model tables.old) self.new (tables_model tables.new) }
    {
        ready_all(tables, self.name);
        self.name = None;
    }

    // Opens a construct before the lookahead, or at this line.
    fn open_before(&mut self, construct: Construct, line: u32, tables: &mut Tables)
        requires room { HasRoom 1 0 self.old (tables_model tables.old) }
        requires line { line < 2 ^ 24 }
        ensures preserves { PreservesStack 1 0 self.old self.new (tables_model tables.old) (tables_model tables.new) }
        ensures wrote { RefinesWriting (λ c next. mark_symbol (Open construct) (first_line c.lookahead c.name line) ∷ next c)
            self.old (tables_model tables.old) self.new (tables_model tables.new) }
    {
        let first = first_line(tables, self.name, line);
        self.write(symbol_of(Mark::Open(construct), first), tables);
    }

    // Writes the number of an own quantity, which is the next one.
    fn write_own(&mut self, line: u32, tables: &mut Tables)
        requires room { HasRoom 1 0 self.old (tables_model tables.old) }
        requires line { line < 2 ^ 24 }
        requires owns { self.old.owns + 1 < 2 ^ 32 }
        ensures preserves { PreservesStack 1 1 self.old self.new (tables_model tables.old) (tables_model tables.new) }
        ensures wrote { RefinesWriting (λ c next. sym OwnNumber c.owns line ∷ next (with_owns c (suc c.owns)))
            self.old (tables_model tables.old) self.new (tables_model tables.new) }
    {
        self.write(
            Symbol::new(Tag::OwnNumber, u64::from(self.owns), line),
            tables,
        );
        self.owns = self.owns.saturating_add(1);
    }

    // Writes the end with the number of own quantities.
    fn write_end(&mut self, line: u32, tables: &mut Tables)
        requires room { HasRoom 5 0 self.old (tables_model tables.old) }
        requires line { line < 2 ^ 24 }
        ensures preserves { PreservesStack 5 0 self.old self.new (tables_model tables.old) (tables_model tables.new) }
        ensures wrote { RefinesWriting (λ c next. sym TextEnd c.owns line ∷ next c)
            self.old (tables_model tables.old) self.new (tables_model tables.new) }
    {
        self.write(
            Symbol::new(Tag::TextEnd, u64::from(self.owns), line),
            tables,
        );
    }

    // Puts the identifier into the lookahead as a label, with the symbol as its colon.
    fn add_label(&mut self, colon: Symbol, tables: &mut Tables)
        requires room { HasRoom 1 0 self.old (tables_model tables.old) }
        requires symbol { IsFit 2 self.old.bytes colon }
        ensures preserves { PreservesStack 1 0 self.old self.new (tables_model tables.old) (tables_model tables.new) }
        ensures wrote { RefinesWriting (λ c next. add_label c.name colon c next)
            self.old (tables_model tables.old) self.new (tables_model tables.new) }
    {
        if let Some(name) = self.name {
            self.name = None;
            self.add_lookahead(in_role(Role::Declaring, name), tables);
            self.add_lookahead(in_role(Role::LabelColon, colon), tables);
        }
    }
}

// Opens the three lists.
fn open_lists(tables: &mut Tables, bytes: u32)
    requires cleared { tables_model tables.old ≡ fresh (tables_model tables.old).limit }
    requires bytes { bytes ≤ (tables_model tables.old).limit }
    requires limit { (tables_model tables.old).limit ≤ 2 ^ 19 }
    ensures { OpensLists bytes (tables_model tables.old) (tables_model tables.new) }
{
    tables.list(STACK_WIDTH, WANTED_EACH * bytes + FIRST_WANTED);
    tables.list(OUTBOX_WIDTH, WRITTEN_EACH * bytes + LAST_WRITTEN);
    tables.list(OUTBOX_WIDTH, WRITTEN_EACH * bytes + LAST_WRITTEN);
}

// Whether the symbol is an identifier with a number that no identifier of so many bytes has.
fn is_unnumbered(s: Symbol, bytes: u32) -> bool
    requires letter { IsTrue (stands_in 2 s.tag) }
    ensures { result ≡ not (is_numbered 2 bytes s) }
{
    s.tag == Tag::Identifier.number() && s.value >= u64::from(bytes) + STANDARD_ROOM
}

impl Pass for Pass3 {
    type In = Coded<2>;

    type Out = Coded<3>;

    const GROWTH: u32 = 8;

    ghost use Rattle.std.proofs.Common.{arith};

    ghost GROWTH = { 8 };

    ghost stands = { λ pass tables read written. PassInvariant pass (tables_model tables) read written };

    ghost relates = { λ pass tables read written. Relates pass (tables_model tables) read written };

    ghost expects = { λ pass list. IsTextTwo pass.bytes list };

    ghost most = { λ pass. 8 * pass.bytes + 64 };

    fn take<T: Text>(
        &mut self,
        s: Coded<2>,
        store: &mut T::Store,
        out: &mut T,
        tables: &mut Tables,
    ) -> Result<(), PassStop> {
        let symbol = s.symbol();
        if self.read > self.bytes || is_unnumbered(symbol, self.bytes) {
            let [word, _] = symbol.code();
            return Err(PassStop::Spoilt(Odd {
                place: u64::from(self.read),
                word,
            }));
        }
        self.step(symbol, tables);
        flush(store, out, tables, READY)
    }

    fn end<T: Text>(
        &mut self,
        store: &mut T::Store,
        out: &mut T,
        tables: &mut Tables,
    ) -> Result<(), PassStop> {
        flush(store, out, tables, READY)
    }

    ghost slow = { Prim.omega arith };

    ghost letters = { λ pass list h. h.letters };
}
