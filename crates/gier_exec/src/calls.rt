// Calls of procedures: the procedure is found by the words of the object, and then entered.
ghost use Rattle.std.specs.Prelude.{◌≡◌, ◌+◌, ◌<◌, ◌≤◌, ℕ, true, nat_lt, if◌then◌else◌, List, Some, IfOk, IfSome, length, Err};
ghost use Rattle.gier_frames.specs.State.{IsKept};
ghost use Rattle.gier_places.specs.Contents.{Agrees};
ghost use Rattle.gier_order.specs.Flat.Row.{Regs, Row, odd};
ghost use Rattle.gier_order.specs.Flat.Rows.{effect, word_at, reads_order, reads_count, reads_procedure, calls_bare, calls_kinded};
ghost use Rattle.gier_order.specs.Flat.Kinds.{Handed, Bare, Kinded, Neither, formals_handed};
ghost use Rattle.gier_order.specs.declared.order.Order.{Order};
ghost use Rattle.gier_order.specs.declared.operation.Operation.TheVariants.{Call, Formal, CallF};
ghost use Rattle.gier_exec.specs.Obedience.{Obeys};
ghost use Rattle.gier_exec.specs.Rows.{regs_of, code_in};
ghost use Rattle.gier_exec.specs.Searching.{RefinesSearch, RefinesReading};
ghost use Rattle.gier_exec.specs.Calling.{entry_row, IsHead, IsCallable, formals_in};
ghost use Rattle.gier_exec.specs.Numbers.{is_call};
ghost use Rattle.gier_order.specs.Codes.{IsOrder};
ghost use Rattle.gier_exec.specs.Reading.{PreservesPager, CanRead, Reads, pager_view};
ghost use Rattle.gier_exec.specs.declared.stop.Miss.TheVariants.{Drum as DrumFailed, Stop as Stopped};
ghost use Rattle.gier_exec.specs.declared.stop.Stop.TheVariants.{Odd};

use crate::Machine;
use crate::activations::{Entry, enter_procedure};
use crate::frame::{MOST_COUNT, place_of, read};
use crate::pager::Pager;
use crate::reading::{fetch, fetch_only, fetch_order};
use crate::stop::{Miss, ODD, Stop};
use gier_drum::Drum;
use gier_frames::Frames;
use gier_order::{Object, Operation, Order};
use gier_word::Alarm;

// The most formals of a procedure whose actuals are compared when it is called.
const MOST_COMPARED: u8 = 80;

// A procedure without formals has this word behind PROC at most, with 1 for a function.
const NO_FORMALS: u32 = 1;

/// CALL, FORMAL and CALLF: enters a procedure.
pub(crate) fn call<D: Drum>(
    m: &mut Machine,
    frames: &mut Frames,
    object: &Object,
    pager: &mut Pager<D>,
    operation: Operation,
    order: Order,
) -> Result<u32, Miss>
    requires place { m.old.place < object.now.words }
    requires kept { IsKept frames.old }
    requires can { CanRead 3 object.now (pager_view D.room D.tracks D.journal D.faults pager.old) }
    ensures row { (tracks : List (List ℕ)) (input : List ℕ) → D.tracks pager.old.drum.now ≡ Some tracks
        → Agrees (Some tracks) pager.old.places.now.held
        → frames.old.entered ≡ true → is_call operation ≡ true
        → RefinesReading object.now (pager_view D.room D.tracks D.journal D.faults pager.old)
        (pager_view D.room D.tracks D.journal D.faults pager.new)
        (effect (code_in tracks object.now) (length frames.old.words) (regs_of m.old frames.old input) operation order.level
        order.address) (regs_of m.new frames.new input) result }
    ensures obeys { Obeys (Stopped Odd) object.now.words m.old m.new frames.old frames.new result }
    ensures reads { Reads 3 object.now (pager_view D.room D.tracks D.journal D.faults pager.old)
        (pager_view D.room D.tracks D.journal D.faults pager.new) }
    ensures pager { PreservesPager D.faults DrumFailed pager.old pager.new result }
{
    let entry = match find(m, frames, object, pager, operation, order) {
        Ok(entry) => entry,
        Err(miss) => return Err(miss),
    };
    match enter_procedure(m, frames, entry, object.words) {
        Ok(next) => Ok(next),
        Err(stop) => Err(Miss::Stop(stop)),
    }
}

// The procedure that an order calls.
fn find<D: Drum>(
    m: &Machine,
    frames: &Frames,
    object: &Object,
    pager: &mut Pager<D>,
    operation: Operation,
    order: Order,
) -> Result<Entry, Miss>
    requires can { CanRead 3 object.now (pager_view D.room D.tracks D.journal D.faults pager.old) }
    ensures row { (tracks : List (List ℕ)) (input : List ℕ) → D.tracks pager.old.drum.now ≡ Some tracks
        → Agrees (Some tracks) pager.old.places.now.held
        → frames.now.entered ≡ true → is_call operation ≡ true
        → RefinesSearch object.now (pager_view D.room D.tracks D.journal D.faults pager.old)
        (pager_view D.room D.tracks D.journal D.faults pager.new)
        (effect (code_in tracks object.now) (length frames.now.words) (regs_of m.now frames.now input) operation order.level
        order.address) (regs_of m.now frames.now input)
        (entry_row (code_in tracks object.now) (length frames.now.words) (regs_of m.now frames.now input)) result }
    ensures found { IfOk result (λ entry. entry.next < object.now.words) }
    ensures callable { IfOk result IsCallable }
    ensures reads { Reads 3 object.now (pager_view D.room D.tracks D.journal D.faults pager.old)
        (pager_view D.room D.tracks D.journal D.faults pager.new) }
    ensures pager { PreservesPager D.faults DrumFailed pager.old pager.new result }
{
    match operation {
        Operation::Call => find_procedure(m, frames, object, pager, order),
        Operation::Formal => find_formal(m, frames, object, pager, order),
        _ => find_compared(m, frames, object, pager, order),
    }
}

// The declared procedure at the address of CALL.
fn find_procedure<D: Drum>(
    m: &Machine,
    frames: &Frames,
    object: &Object,
    pager: &mut Pager<D>,
    order: Order,
) -> Result<Entry, Miss>
    requires can { CanRead 3 object.now (pager_view D.room D.tracks D.journal D.faults pager.old) }
    ensures row { (tracks : List (List ℕ)) (input : List ℕ) → D.tracks pager.old.drum.now ≡ Some tracks
        → Agrees (Some tracks) pager.old.places.now.held
        → frames.now.entered ≡ true
        → RefinesSearch object.now (pager_view D.room D.tracks D.journal D.faults pager.old)
        (pager_view D.room D.tracks D.journal D.faults pager.new)
        (effect (code_in tracks object.now) (length frames.now.words) (regs_of m.now frames.now input) Call order.level
        order.address) (regs_of m.now frames.now input)
        (entry_row (code_in tracks object.now) (length frames.now.words) (regs_of m.now frames.now input)) result }
    ensures found { IfOk result (λ entry. entry.next < object.now.words) }
    ensures callable { IfOk result IsCallable }
    ensures reads { Reads 3 object.now (pager_view D.room D.tracks D.journal D.faults pager.old)
        (pager_view D.room D.tracks D.journal D.faults pager.new) }
    ensures pager { PreservesPager D.faults DrumFailed pager.old pager.new result }
{
    let mut entry = match find_head(object, pager, u64::from(order.address)) {
        Ok(entry) => entry,
        Err(miss) => return Err(miss),
    };
    match place_of(frames, order.level, 0) {
        Ok(outer) => {
            entry.outer = outer;
            entry.from = actuals_from(entry.count, m.r());
            Ok(entry)
        }
        Err(stop) => Err(Miss::Stop(stop)),
    }
}

// Where the actuals stand; without formals there are none.
fn actuals_from(count: u32, r: u64) -> u64
    ensures { result ≡ (if nat_lt 1 count then r else 0) }
{
    if count > NO_FORMALS { r } else { 0 }
}

// The procedure at an address, whose PROC is still to be read.
fn find_head<D: Drum>(object: &Object, pager: &mut Pager<D>, address: u64) -> Result<Entry, Miss>
    requires can { CanRead 2 object.now (pager_view D.room D.tracks D.journal D.faults pager.old) }
    ensures row { (tracks : List (List ℕ)) (size : ℕ) (regs : Regs) (go : Order → ℕ → Row) (made : ℕ → ℕ → ℕ → Row)
        → ((head : Order) (count : ℕ) → go head count ≡ made head.level head.address count)
        → D.tracks pager.old.drum.now ≡ Some tracks
        → Agrees (Some tracks) pager.old.places.now.held
        → RefinesSearch object.now (pager_view D.room D.tracks D.journal D.faults pager.old)
        (pager_view D.room D.tracks D.journal D.faults pager.new)
        (reads_procedure (code_in tracks object.now) size regs address go) regs
        (λ entry. made entry.level entry.room entry.count) result }
    ensures head { IfOk result (λ entry. IsHead entry address) }
    ensures found { IfOk result (λ entry. entry.next < object.now.words) }
    ensures few { IfOk result (λ entry. entry.count ≤ 511) }
    ensures reads { Reads 2 object.now (pager_view D.room D.tracks D.journal D.faults pager.old)
        (pager_view D.room D.tracks D.journal D.faults pager.new) }
    ensures pager { PreservesPager D.faults DrumFailed pager.old pager.new result }
{
    let head = match fetch_only(object, pager, address, Operation::Proc) {
        Ok(head) => head,
        Err(miss) => return Err(miss),
    };
    find_entry(object, pager, head, address, MOST_COUNT)
}

// The procedure whose PROC was read at an address, and behind it a word that may be so much.
fn find_entry<D: Drum>(
    object: &Object,
    pager: &mut Pager<D>,
    head: Order,
    address: u64,
    most: u32,
) -> Result<Entry, Miss>
    requires within { address < object.now.words }
    requires can { CanRead 1 object.now (pager_view D.room D.tracks D.journal D.faults pager.old) }
    ensures row { (tracks : List (List ℕ)) (size : ℕ) (regs : Regs) (go : ℕ → Row) → D.tracks pager.old.drum.now ≡ Some tracks
        → Agrees (Some tracks) pager.old.places.now.held
        → RefinesSearch object.now (pager_view D.room D.tracks D.journal D.faults pager.old)
        (pager_view D.room D.tracks D.journal D.faults pager.new)
        (reads_count (code_in tracks object.now) size regs address most go) regs (λ entry. go entry.count) result }
    ensures head { IfOk result (λ entry. IsHead entry address) }
    ensures level { IfOk result (λ entry. entry.level ≡ head.level) }
    ensures room { IfOk result (λ entry. entry.room ≡ head.address) }
    ensures found { IfOk result (λ entry. entry.next < object.now.words) }
    ensures few { IfOk result (λ entry. entry.count ≤ most) }
    ensures reads { Reads 1 object.now (pager_view D.room D.tracks D.journal D.faults pager.old)
        (pager_view D.room D.tracks D.journal D.faults pager.new) }
    ensures pager { PreservesPager D.faults DrumFailed pager.old pager.new result }
{
    let count = match fetch(object, pager, address + 1) {
        Ok(count) => count,
        Err(miss) => return Err(miss),
    };
    let next = address + 2;
    if count > u64::from(most) || next >= u64::from(object.words) {
        return Err(ODD);
    }
    Ok(Entry {
        level: head.level,
        room: head.address,
        outer: 0,
        count: count as u32,
        from: 0,
        next: next as u32,
    })
}

// The formal procedure in cell, called without actuals; the alarm `parameters` where it has formals.
fn find_formal<D: Drum>(
    m: &Machine,
    frames: &Frames,
    object: &Object,
    pager: &mut Pager<D>,
    order: Order,
) -> Result<Entry, Miss>
    requires can { CanRead 3 object.now (pager_view D.room D.tracks D.journal D.faults pager.old) }
    ensures row { (tracks : List (List ℕ)) (input : List ℕ) → D.tracks pager.old.drum.now ≡ Some tracks
        → Agrees (Some tracks) pager.old.places.now.held
        → frames.now.entered ≡ true
        → RefinesSearch object.now (pager_view D.room D.tracks D.journal D.faults pager.old)
        (pager_view D.room D.tracks D.journal D.faults pager.new)
        (effect (code_in tracks object.now) (length frames.now.words) (regs_of m.now frames.now input) Formal order.level
        order.address) (regs_of m.now frames.now input)
        (entry_row (code_in tracks object.now) (length frames.now.words) (regs_of m.now frames.now input)) result }
    ensures found { IfOk result (λ entry. entry.next < object.now.words) }
    ensures callable { IfOk result IsCallable }
    ensures reads { Reads 3 object.now (pager_view D.room D.tracks D.journal D.faults pager.old)
        (pager_view D.room D.tracks D.journal D.faults pager.new) }
    ensures pager { PreservesPager D.faults DrumFailed pager.old pager.new result }
{
    let place = match place_of(frames, order.level, order.address) {
        Ok(place) => place,
        Err(stop) => return Err(Miss::Stop(stop)),
    };
    let address = match read(frames, place) {
        Ok(address) => address,
        Err(stop) => return Err(Miss::Stop(stop)),
    };
    let mut entry = match find_bare(object, pager, address) {
        Ok(entry) => entry,
        Err(miss) => return Err(miss),
    };
    match read(frames, place + 1) {
        Ok(outer) => {
            entry.outer = outer;
            Ok(entry)
        }
        Err(stop) => Err(Miss::Stop(stop)),
    }
}

// The procedure at an address that has no formals; the alarm `parameters` where it has some.
fn find_bare<D: Drum>(object: &Object, pager: &mut Pager<D>, address: u64) -> Result<Entry, Miss>
    requires can { CanRead 2 object.now (pager_view D.room D.tracks D.journal D.faults pager.old) }
    ensures row { (tracks : List (List ℕ)) (size : ℕ) (regs : Regs) (place : ℕ) → D.tracks pager.old.drum.now ≡ Some tracks
        → Agrees (Some tracks) pager.old.places.now.held
        → RefinesSearch object.now (pager_view D.room D.tracks D.journal D.faults pager.old)
        (pager_view D.room D.tracks D.journal D.faults pager.new)
        (reads_order (code_in tracks object.now) size regs address
        (λ head. calls_bare (code_in tracks object.now) size regs address place head (formals_handed head))) regs
        (λ entry. word_at (code_in tracks object.now) size regs place
        (λ outer. entry_row (code_in tracks object.now) size regs (record entry { outer = outer }))) result }
    ensures from { IfOk result (λ entry. entry.from ≡ 0) }
    ensures found { IfOk result (λ entry. entry.next < object.now.words) }
    ensures few { IfOk result (λ entry. entry.count ≤ 511) }
    ensures reads { Reads 2 object.now (pager_view D.room D.tracks D.journal D.faults pager.old)
        (pager_view D.room D.tracks D.journal D.faults pager.new) }
    ensures pager { PreservesPager D.faults DrumFailed pager.old pager.new result }
{
    let head = match fetch_order(object, pager, address) {
        Ok(head) => head,
        Err(miss) => return Err(miss),
    };
    match formals_of(head) {
        Ok(None) => find_entry(object, pager, head, address, NO_FORMALS),
        Ok(Some(_)) => Err(Miss::Stop(Stop::Alarm(Alarm::Parameters))),
        Err(stop) => Err(Miss::Stop(stop)),
    }
}

/// How many formals a procedure has that is handed over; PROC tells none, and KINDS from 1 to 80. Odd elsewhere.
pub(crate) fn formals_of(head: Order) -> Result<Option<u8>, Stop>
    ensures value { result ≡ formals_in (formals_handed head) }
    ensures few { IfOk result (λ found. IfSome found (λ n. n ≤ 80)) }
    ensures level { IfOk result (λ found. IfSome found (λ n. n ≡ head.level)) }
    ensures some { IfOk result (λ found. IfSome found (λ n. 1 ≤ n)) }
{
    if head.op == Operation::Proc.number() {
        return Ok(None);
    }
    if head.op != Operation::Kinds.number() || head.level == 0 || head.level > MOST_COMPARED {
        return Err(Stop::Odd);
    }
    Ok(Some(head.level))
}

/// The KINDS at an address, with its number of formals from 1 to 80.
pub(crate) fn fetch_kinds<D: Drum>(
    object: &Object,
    pager: &mut Pager<D>,
    address: u64,
) -> Result<Order, Miss>
    requires can { CanRead 1 object.now (pager_view D.room D.tracks D.journal D.faults pager.old) }
    ensures row { (tracks : List (List ℕ)) (size : ℕ) (regs : Regs) (go : Order → Handed → Row)
        → ((head : Order) → go head Bare ≡ odd) → ((head : Order) → go head Neither ≡ odd)
        → D.tracks pager.old.drum.now ≡ Some tracks
        → Agrees (Some tracks) pager.old.places.now.held
        → RefinesSearch object.now (pager_view D.room D.tracks D.journal D.faults pager.old)
        (pager_view D.room D.tracks D.journal D.faults pager.new)
        (reads_order (code_in tracks object.now) size regs address (λ head. go head (formals_handed head))) regs
        (λ kinds. go kinds (Kinded kinds.level)) result }
    ensures order { IfOk result IsOrder }
    ensures some { IfOk result (λ order. 1 ≤ order.level) }
    ensures few { IfOk result (λ order. order.level ≤ 80) }
    ensures reads { Reads 1 object.now (pager_view D.room D.tracks D.journal D.faults pager.old)
        (pager_view D.room D.tracks D.journal D.faults pager.new) }
    ensures pager { PreservesPager D.faults DrumFailed pager.old pager.new result }
{
    let head = match fetch_order(object, pager, address) {
        Ok(head) => head,
        Err(miss) => return Err(miss),
    };
    match formals_of(head) {
        Ok(Some(_)) => Ok(head),
        Ok(None) => Err(ODD),
        Err(stop) => Err(Miss::Stop(stop)),
    }
}

// The formal procedure in cell, whose actuals were compared with its formals.
fn find_compared<D: Drum>(
    m: &Machine,
    frames: &Frames,
    object: &Object,
    pager: &mut Pager<D>,
    order: Order,
) -> Result<Entry, Miss>
    requires can { CanRead 3 object.now (pager_view D.room D.tracks D.journal D.faults pager.old) }
    ensures row { (tracks : List (List ℕ)) (input : List ℕ) → D.tracks pager.old.drum.now ≡ Some tracks
        → Agrees (Some tracks) pager.old.places.now.held
        → frames.now.entered ≡ true
        → RefinesSearch object.now (pager_view D.room D.tracks D.journal D.faults pager.old)
        (pager_view D.room D.tracks D.journal D.faults pager.new)
        (effect (code_in tracks object.now) (length frames.now.words) (regs_of m.now frames.now input) CallF order.level
        order.address) (regs_of m.now frames.now input)
        (entry_row (code_in tracks object.now) (length frames.now.words) (regs_of m.now frames.now input)) result }
    ensures found { IfOk result (λ entry. entry.next < object.now.words) }
    ensures callable { IfOk result IsCallable }
    ensures reads { Reads 3 object.now (pager_view D.room D.tracks D.journal D.faults pager.old)
        (pager_view D.room D.tracks D.journal D.faults pager.new) }
    ensures pager { PreservesPager D.faults DrumFailed pager.old pager.new result }
{
    let place = match place_of(frames, order.level, order.address) {
        Ok(place) => place,
        Err(stop) => return Err(Miss::Stop(stop)),
    };
    let address = match read(frames, place) {
        Ok(address) => address,
        Err(stop) => return Err(Miss::Stop(stop)),
    };
    let mut entry = match find_kinded(object, pager, address) {
        Ok(entry) => entry,
        Err(miss) => return Err(miss),
    };
    match read(frames, place + 1) {
        Ok(outer) => {
            entry.outer = outer;
            entry.from = m.r();
            Ok(entry)
        }
        Err(stop) => Err(Miss::Stop(stop)),
    }
}

// The procedure that the KINDS at an address tells, with as many formals as it says.
fn find_kinded<D: Drum>(object: &Object, pager: &mut Pager<D>, address: u64) -> Result<Entry, Miss>
    requires can { CanRead 3 object.now (pager_view D.room D.tracks D.journal D.faults pager.old) }
    ensures row { (tracks : List (List ℕ)) (size : ℕ) (regs : Regs) (place : ℕ) → D.tracks pager.old.drum.now ≡ Some tracks
        → Agrees (Some tracks) pager.old.places.now.held
        → RefinesSearch object.now (pager_view D.room D.tracks D.journal D.faults pager.old)
        (pager_view D.room D.tracks D.journal D.faults pager.new)
        (reads_order (code_in tracks object.now) size regs address
        (λ kinds. calls_kinded (code_in tracks object.now) size regs place kinds (formals_handed kinds))) regs
        (λ entry. word_at (code_in tracks object.now) size regs place
        (λ outer. entry_row (code_in tracks object.now) size regs (record entry { outer = outer; from = regs.r }))) result }
    ensures found { IfOk result (λ entry. entry.next < object.now.words) }
    ensures few { IfOk result (λ entry. entry.count ≤ 511) }
    ensures some { IfOk result (λ entry. 2 ≤ entry.count) }
    ensures reads { Reads 3 object.now (pager_view D.room D.tracks D.journal D.faults pager.old)
        (pager_view D.room D.tracks D.journal D.faults pager.new) }
    ensures pager { PreservesPager D.faults DrumFailed pager.old pager.new result }
{
    let kinds = match fetch_kinds(object, pager, address) {
        Ok(kinds) => kinds,
        Err(miss) => return Err(miss),
    };
    let entry = match find_head(object, pager, u64::from(kinds.address)) {
        Ok(entry) => entry,
        Err(miss) => return Err(miss),
    };
    if entry.count / 2 == u32::from(kinds.level) {
        Ok(entry)
    } else {
        Err(ODD)
    }
}
