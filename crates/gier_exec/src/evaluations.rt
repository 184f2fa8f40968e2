// Evaluations of formals by name and of switch elements, which are found by the words of the object and then entered.
ghost use Rattle.std.specs.Prelude.{◌≡◌, ◌≢◌, ◌+◌, ◌<◌, ◌≤◌, ◌^◌, ℕ, true, List, None, Some, IfOk, IfSome, length, Ok, Err};
ghost use Rattle.gier_frames.specs.State.{State, IsKept};
ghost use Rattle.gier_places.specs.Contents.{Agrees};
ghost use Rattle.gier_names.specs.declared.wanted.Wanted.TheVariants.{Label};
ghost use Rattle.gier_names.specs.Evaluations.{number_of as wanted_number};
ghost use Rattle.gier_order.specs.Flat.Row.{Regs, reads as reads_word};
ghost use Rattle.gier_order.specs.Flat.Rows.{effect, cell_pair, evaluates, switches};
ghost use Rattle.gier_exec.specs.Obedience.{Obeys};
ghost use Rattle.gier_exec.specs.Registers.{Registers};
ghost use Rattle.gier_exec.specs.Rows.{regs_of, code_in};
ghost use Rattle.gier_exec.specs.Numbers.{is_evaluation, is_choice};
ghost use Rattle.gier_exec.specs.Following.{RefinesJump, RefinesValue};
ghost use Rattle.gier_exec.specs.Searching.{RefinesSearch, RefinesReading};
ghost use Rattle.gier_exec.specs.Beginning.{evaluation_row, choice_row};
ghost use Rattle.gier_exec.specs.Registers.{PreservesPlace, Progresses};
ghost use Rattle.gier_exec.specs.Reading.{PreservesPager, CanRead, Reads, pager_view};
ghost use Rattle.gier_exec.specs.Finding.{IsFound};
ghost use Rattle.gier_exec.specs.declared.stop.Miss.TheVariants.{Drum as DrumFailed, Stop as Stopped};
ghost use Rattle.gier_exec.specs.declared.stop.Stop.TheVariants.{Odd};

use crate::Machine;
use crate::activations::{Evaluation, enter_evaluation, wanted_now};
use crate::frame::{place_of, read_pair};
use crate::number::number_of;
use crate::pager::Pager;
use crate::reading::{fetch, fetch_only};
use crate::stop::{Miss, ODD, Stop};
use gier_drum::Drum;
use gier_frames::Frames;
use gier_names::{Wanted, pick};
use gier_order::{Object, Operation, Order};

// The greatest kind of an evaluation.
const LAST_KIND: u8 = 3;

/// VALUE, PLACE, NAMEL and PASS: enters the evaluation in cell.
pub(crate) fn evaluate<D: Drum>(
    m: &mut Machine,
    frames: &mut Frames,
    object: &Object,
    pager: &mut Pager<D>,
    operation: Operation,
    order: Order,
) -> Result<u32, Miss>
    requires place { m.old.place < object.now.words }
    requires can { CanRead 1 object.now (pager_view D.room D.tracks D.journal D.faults pager.old) }
    requires kept { IsKept frames.old }
    ensures row { (tracks : List (List ℕ)) (input : List ℕ) → D.tracks pager.old.drum.now ≡ Some tracks
        → Agrees (Some tracks) pager.old.places.now.held
        → frames.old.entered ≡ true → is_evaluation operation ≡ true
        → RefinesReading object.now (pager_view D.room D.tracks D.journal D.faults pager.old)
        (pager_view D.room D.tracks D.journal D.faults pager.new)
        (effect (code_in tracks object.now) (length frames.old.words) (regs_of m.old frames.old input) operation order.level
        order.address) (regs_of m.new frames.new input) result }
    ensures obeys { Obeys (Stopped Odd) object.now.words m.old m.new frames.old frames.new result }
    ensures reads { Reads 1 object.now (pager_view D.room D.tracks D.journal D.faults pager.old)
        (pager_view D.room D.tracks D.journal D.faults pager.new) }
    ensures pager { PreservesPager D.faults DrumFailed pager.old pager.new result }
{
    let found = match find_formal(frames, object, pager, operation, order) {
        Ok(found) => found,
        Err(miss) => return Err(miss),
    };
    match enter_evaluation(m, frames, found, object.words) {
        Ok(next) => Ok(next),
        Err(stop) => Err(Miss::Stop(stop)),
    }
}

/// SWITCH and SWFORM: enters the evaluation of element R; where there is none, R and Q become 0.
pub(crate) fn choose<D: Drum>(
    m: &mut Machine,
    frames: &mut Frames,
    object: &Object,
    pager: &mut Pager<D>,
    operation: Operation,
    order: Order,
) -> Result<u32, Miss>
    requires place { m.old.place < object.now.words }
    requires can { CanRead 3 object.now (pager_view D.room D.tracks D.journal D.faults pager.old) }
    requires kept { IsKept frames.old }
    ensures row { (tracks : List (List ℕ)) (input : List ℕ) → D.tracks pager.old.drum.now ≡ Some tracks
        → Agrees (Some tracks) pager.old.places.now.held
        → frames.old.entered ≡ true → is_choice operation ≡ true
        → RefinesReading object.now (pager_view D.room D.tracks D.journal D.faults pager.old)
        (pager_view D.room D.tracks D.journal D.faults pager.new)
        (effect (code_in tracks object.now) (length frames.old.words) (regs_of m.old frames.old input) operation order.level
        order.address) (regs_of m.new frames.new input) result }
    ensures obeys { Obeys (Stopped Odd) object.now.words m.old m.new frames.old frames.new result }
    ensures reads { Reads 3 object.now (pager_view D.room D.tracks D.journal D.faults pager.old)
        (pager_view D.room D.tracks D.journal D.faults pager.new) }
    ensures pager { PreservesPager D.faults DrumFailed pager.old pager.new result }
{
    let found = match find_element(m, frames, object, pager, operation, order) {
        Ok(found) => found,
        Err(miss) => return Err(miss),
    };
    match enter_chosen(m, frames, found, object.words) {
        Ok(next) => Ok(next),
        Err(stop) => Err(Miss::Stop(stop)),
    }
}

// Enters the evaluation of an element, where there is one.
fn enter_chosen(
    m: &mut Machine,
    frames: &mut Frames,
    chosen: Option<Evaluation>,
    words: u32,
) -> Result<u32, Stop>
    requires found { IfSome chosen (λ found. IsFound words found) }
    requires place { m.old.place < words }
    requires kept { IsKept frames.old }
    ensures row { (code input : List ℕ) → frames.old.entered ≡ true → length code ≡ words
        → RefinesJump (choice_row code (length frames.old.words) (regs_of m.old frames.old input) chosen)
        (regs_of m.new frames.new input)
        result }
    ensures obeys { Obeys Odd words m.old m.new frames.old frames.new result }
{
    match chosen {
        Some(found) => enter_evaluation(m, frames, found, words),
        None => choose_none(m, words),
    }
}

// The subscript names no element.
fn choose_none(m: &mut Machine, words: u32) -> Result<u32, Stop>
    ensures row { (code input : List ℕ) (s : State) → length code ≡ words
        → RefinesJump (choice_row code (length s.words) (regs_of m.old s input) None) (regs_of m.new s input) result }
    ensures keeps { PreservesPlace m.old m.new }
    ensures goes { IfOk result (λ next. Progresses words m.old next m.new) }
    ensures odd { result ≡ Err Odd → m.new ≡ m.old }
{
    match m.ahead(m.behind(), words) {
        Ok(next) => {
            m.set_r(0);
            m.set_q(0);
            Ok(next)
        }
        Err(stop) => Err(stop),
    }
}

// The evaluation in cell, and what is wanted of it.
fn find_formal<D: Drum>(
    frames: &Frames,
    object: &Object,
    pager: &mut Pager<D>,
    operation: Operation,
    order: Order,
) -> Result<Evaluation, Miss>
    requires can { CanRead 1 object.now (pager_view D.room D.tracks D.journal D.faults pager.old) }
    ensures row { (tracks : List (List ℕ)) (m : Registers) (input : List ℕ) → D.tracks pager.old.drum.now ≡ Some tracks
        → Agrees (Some tracks) pager.old.places.now.held → frames.now.entered ≡ true → is_evaluation operation ≡ true
        → RefinesSearch object.now (pager_view D.room D.tracks D.journal D.faults pager.old)
        (pager_view D.room D.tracks D.journal D.faults pager.new)
        (effect (code_in tracks object.now) (length frames.now.words) (regs_of m frames.now input) operation order.level
        order.address) (regs_of m frames.now input)
        (λ found. evaluation_row (code_in tracks object.now) (length frames.now.words) (regs_of m frames.now input) found) result }
    ensures found { IfOk result (λ found. IsFound object.now.words found) }
    ensures reads { Reads 1 object.now (pager_view D.room D.tracks D.journal D.faults pager.old)
        (pager_view D.room D.tracks D.journal D.faults pager.new) }
    ensures pager { PreservesPager D.faults DrumFailed pager.old pager.new result }
{
    let wanted = match wanted_by(frames, operation) {
        Ok(wanted) => wanted,
        Err(stop) => return Err(Miss::Stop(stop)),
    };
    let (address, outer) = match read_pair(frames, order.level, order.address) {
        Ok(pair) => pair,
        Err(stop) => return Err(Miss::Stop(stop)),
    };
    find_thunk(object, pager, address, outer, wanted)
}

// What an order wants of the evaluation in cell; PASS wants what the current activation wants, and no label.
fn wanted_by(frames: &Frames, operation: Operation) -> Result<Wanted, Stop>
    ensures row { (code input : List ℕ) (m : Registers) (l a : ℕ) → frames.now.entered ≡ true → is_evaluation operation ≡ true
        → RefinesValue (effect code (length frames.now.words) (regs_of m frames.now input) operation l a)
        (λ wanted. cell_pair code (length frames.now.words) (regs_of m frames.now input) l a
        (λ k outer. evaluates code (length frames.now.words) (regs_of m frames.now input) k outer (wanted_number wanted)))
        result }
{
    match operation {
        Operation::Value => Ok(Wanted::Value),
        Operation::Place => Ok(Wanted::Address),
        Operation::NameL => Ok(Wanted::Label),
        _ => match wanted_now(frames) {
            Ok(wanted) => unless_label(wanted),
            Err(stop) => Err(stop),
        },
    }
}

fn unless_label(wanted: Wanted) -> Result<Wanted, Stop>
    ensures label { wanted ≡ Label → result ≡ Err Odd }
    ensures other { wanted ≢ Label → result ≡ Ok wanted }
{
    match wanted {
        Wanted::Label => Err(Stop::Odd),
        _ => Ok(wanted),
    }
}

// The evaluation whose THUNK stands at an address.
#[tactic(auto, using(crate::proofs::Evaluatings::thunk_is))]
fn find_thunk<D: Drum>(
    object: &Object,
    pager: &mut Pager<D>,
    address: u64,
    outer: u64,
    wanted: Wanted,
) -> Result<Evaluation, Miss>
    requires can { CanRead 1 object.now (pager_view D.room D.tracks D.journal D.faults pager.old) }
    ensures row { (tracks : List (List ℕ)) (size : ℕ) (regs : Regs) → D.tracks pager.old.drum.now ≡ Some tracks
        → Agrees (Some tracks) pager.old.places.now.held
        → RefinesSearch object.now (pager_view D.room D.tracks D.journal D.faults pager.old)
        (pager_view D.room D.tracks D.journal D.faults pager.new)
        (evaluates (code_in tracks object.now) size regs address outer (wanted_number wanted)) regs
        (λ found. evaluation_row (code_in tracks object.now) size regs found) result }
    ensures found { IfOk result (λ found. IsFound object.now.words found) }
    ensures reads { Reads 1 object.now (pager_view D.room D.tracks D.journal D.faults pager.old)
        (pager_view D.room D.tracks D.journal D.faults pager.new) }
    ensures pager { PreservesPager D.faults DrumFailed pager.old pager.new result }
{
    let thunk = match fetch_only(object, pager, address, Operation::Thunk) {
        Ok(thunk) => thunk,
        Err(miss) => return Err(miss),
    };
    let next = address + 1;
    if thunk.level > LAST_KIND || next >= u64::from(object.words) {
        return Err(ODD);
    }
    Ok(Evaluation {
        thunk,
        outer,
        wanted,
        next: next as u32,
    })
}

// The element that R names of the switch, None where there is none.
fn find_element<D: Drum>(
    m: &Machine,
    frames: &Frames,
    object: &Object,
    pager: &mut Pager<D>,
    operation: Operation,
    order: Order,
) -> Result<Option<Evaluation>, Miss>
    requires can { CanRead 3 object.now (pager_view D.room D.tracks D.journal D.faults pager.old) }
    ensures row { (tracks : List (List ℕ)) (input : List ℕ) → D.tracks pager.old.drum.now ≡ Some tracks
        → Agrees (Some tracks) pager.old.places.now.held
        → frames.now.entered ≡ true → is_choice operation ≡ true
        → RefinesSearch object.now (pager_view D.room D.tracks D.journal D.faults pager.old)
        (pager_view D.room D.tracks D.journal D.faults pager.new)
        (effect (code_in tracks object.now) (length frames.now.words) (regs_of m.now frames.now input) operation order.level
        order.address) (regs_of m.now frames.now input)
        (λ chosen. choice_row (code_in tracks object.now) (length frames.now.words) (regs_of m.now frames.now input) chosen)
        result }
    ensures found { IfOk result (λ chosen. IfSome chosen (λ found. IsFound object.now.words found)) }
    ensures reads { Reads 3 object.now (pager_view D.room D.tracks D.journal D.faults pager.old)
        (pager_view D.room D.tracks D.journal D.faults pager.new) }
    ensures pager { PreservesPager D.faults DrumFailed pager.old pager.new result }
{
    let (table, outer) = match find_table(frames, operation, order) {
        Ok(pair) => pair,
        Err(stop) => return Err(Miss::Stop(stop)),
    };
    let count = match fetch(object, pager, table) {
        Ok(count) => count,
        Err(miss) => return Err(miss),
    };
    match pick(number_of(m.r()), count) {
        None => Ok(None),
        Some(at) => match find_label(object, pager, table + 1 + at, outer) {
            Ok(found) => Ok(Some(found)),
            Err(miss) => Err(miss),
        },
    }
}

// The address of a switch's table, and the base of the activation that encloses its elements.
fn find_table(frames: &Frames, operation: Operation, order: Order) -> Result<(u64, u64), Stop>
    ensures row { (code input : List ℕ) (m : Registers) → frames.now.entered ≡ true → is_choice operation ≡ true
        → RefinesValue (effect code (length frames.now.words) (regs_of m frames.now input) operation order.level order.address)
        (λ pair. switches code (length frames.now.words) (regs_of m frames.now input) pair.0 pair.1) result }
    ensures small { IfOk result (λ pair. pair.0 < 2 ^ 40) }
{
    match operation {
        Operation::SwForm => read_pair(frames, order.level, order.address),
        _ => match place_of(frames, order.level, 0) {
            Ok(outer) => Ok((u64::from(order.address), outer)),
            Err(stop) => Err(stop),
        },
    }
}

// The evaluation of the element whose address stands at this one.
fn find_label<D: Drum>(
    object: &Object,
    pager: &mut Pager<D>,
    entry: u64,
    outer: u64,
) -> Result<Evaluation, Miss>
    requires can { CanRead 2 object.now (pager_view D.room D.tracks D.journal D.faults pager.old) }
    ensures row { (tracks : List (List ℕ)) (size : ℕ) (regs : Regs) → D.tracks pager.old.drum.now ≡ Some tracks
        → Agrees (Some tracks) pager.old.places.now.held
        → RefinesSearch object.now (pager_view D.room D.tracks D.journal D.faults pager.old)
        (pager_view D.room D.tracks D.journal D.faults pager.new)
        (reads_word (code_in tracks object.now) entry
        (λ address. evaluates (code_in tracks object.now) size regs address outer 3)) regs
        (λ found. evaluation_row (code_in tracks object.now) size regs found) result }
    ensures found { IfOk result (λ found. IsFound object.now.words found) }
    ensures reads { Reads 2 object.now (pager_view D.room D.tracks D.journal D.faults pager.old)
        (pager_view D.room D.tracks D.journal D.faults pager.new) }
    ensures pager { PreservesPager D.faults DrumFailed pager.old pager.new result }
{
    let address = match fetch(object, pager, entry) {
        Ok(address) => address,
        Err(miss) => return Err(miss),
    };
    find_thunk(object, pager, address, outer, Wanted::Label)
}
