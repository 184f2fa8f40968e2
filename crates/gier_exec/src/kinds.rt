// The packed kinds of formals and actuals: AGREE compares them, and BYVAL looks at one.
ghost use Rattle.std.specs.Prelude.{◌≡◌, ◌+◌, ◌-◌, ◌*◌, ◌/◌, ◌%◌, ◌<◌, ◌≤◌, ◌^◌, ℕ, true, List, Some, IfOk, OnOk, Err, length};
ghost use Rattle.gier_agree.specs.Packed.{kind_in};
ghost use Rattle.gier_places.specs.Contents.{Agrees};
ghost use Rattle.gier_order.specs.Flat.Row.{Regs, Row, needs, reads as reads_row};
ghost use Rattle.gier_order.specs.Flat.Rows.{effect, cell_word, goes as goes_row, is_address, reads_order, agrees as agrees_row};
ghost use Rattle.gier_order.specs.Flat.Rows.{agrees_with};
ghost use Rattle.gier_order.specs.Flat.Kinds.{groups_for, formals_handed, is_packed, is_field, all_fit};
ghost use Rattle.gier_order.specs.declared.operation.Operation.TheVariants.{Agree, ByVal};
ghost use Rattle.gier_exec.specs.Rows.{regs_of, code_in};
ghost use Rattle.gier_exec.specs.Following.{RefinesValue};
ghost use Rattle.gier_exec.specs.Searching.{RefinesSearch, RefinesReading};
ghost use Rattle.gier_exec.specs.Agreeing.{match_row};
ghost use Rattle.gier_exec.specs.Registers.{Registers, PreservesPlace, Progresses};
ghost use Rattle.gier_exec.specs.Reading.{PreservesPager, CanRead, Reads, pager_view};
ghost use Rattle.gier_exec.specs.declared.stop.Miss.TheVariants.{Drum as DrumFailed, Stop as Stopped};
ghost use Rattle.gier_exec.specs.declared.stop.Stop.TheVariants.{Odd};

use crate::Machine;
use crate::calls::{fetch_kinds, formals_of};
use crate::frame::{place_of, read};
use crate::pager::Pager;
use crate::reading::{fetch, fetch_order};
use crate::stop::{Miss, ODD, Stop};
use gier_agree::{agree, kind_at};
use gier_drum::Drum;
use gier_frames::Frames;
use gier_order::{Object, Order};
use gier_word::Alarm;

// How many kinds stand in a word.
const GROUP: u64 = 10;

// The most actuals of a call.
const MOST_ACTUALS: u64 = 255;

// The kinds of formals and of actuals begin with these, and both end with the last.
const FIRST_FORMAL: u8 = 1;

const FIRST_ACTUAL: u8 = 3;

const LAST_KIND: u8 = 12;

// The last kind of a formal by value.
const LAST_BY_VALUE: u8 = 2;

/// AGREE: compares the packed kinds behind it with those of the formal procedure in cell; alarm `parameters`.
pub(crate) fn compare<D: Drum>(
    m: &Machine,
    frames: &Frames,
    object: &Object,
    pager: &mut Pager<D>,
    order: Order,
) -> Result<u32, Miss>
    requires place { m.now.place < object.now.words }
    requires can { CanRead (2 * object.now.words) object.now
        (pager_view D.room D.tracks D.journal D.faults pager.old) }
    ensures row { (tracks : List (List ℕ)) (input : List ℕ) → D.tracks pager.old.drum.now ≡ Some tracks
        → Agrees (Some tracks) pager.old.places.now.held
        → frames.now.entered ≡ true
        → RefinesReading object.now (pager_view D.room D.tracks D.journal D.faults pager.old)
        (pager_view D.room D.tracks D.journal D.faults pager.new)
        (effect (code_in tracks object.now) (length frames.now.words) (regs_of m.now frames.now input) Agree order.level
        order.address) (regs_of m.now frames.now input) result }
    ensures goes { IfOk result (λ next. Progresses object.now.words m.now next m.now) }
    ensures reads { Reads (2 * object.now.words) object.now
        (pager_view D.room D.tracks D.journal D.faults pager.old)
        (pager_view D.room D.tracks D.journal D.faults pager.new) }
    ensures pager { PreservesPager D.faults DrumFailed pager.old pager.new result }
{
    let list = m.behind();
    let count = match fetch(object, pager, list) {
        Ok(count) => count,
        Err(miss) => return Err(miss),
    };
    let address = match formal_address(frames, order) {
        Ok(address) => address,
        Err(stop) => return Err(Miss::Stop(stop)),
    };
    match match_count(object, pager, address, count) {
        Ok(()) => {}
        Err(miss) => return Err(miss),
    }
    let groups = count.div_ceil(GROUP);
    let next = match m.ahead(list + 1 + groups, object.words) {
        Ok(next) => next,
        Err(stop) => return Err(Miss::Stop(stop)),
    };
    match compare_groups(object, pager, address + 1, list + 1, count) {
        Ok(()) => Ok(next),
        Err(miss) => Err(miss),
    }
}

// The address in cell, which is that of a procedure that was handed over.
fn formal_address(frames: &Frames, order: Order) -> Result<u64, Stop>
    ensures row { (code input : List ℕ) (m : Registers) (go : ℕ → Row) → frames.now.entered ≡ true
        → RefinesValue (cell_word code (length frames.now.words) (regs_of m frames.now input) order.level order.address
        (λ place word. go word)) go result }
    ensures small { IfOk result (λ address. address < 2 ^ 40) }
{
    match place_of(frames, order.level, order.address) {
        Ok(place) => read(frames, place),
        Err(stop) => Err(stop),
    }
}

// Whether the procedure at an address has so many formals; alarm `parameters` where it has not.
fn match_count<D: Drum>(
    object: &Object,
    pager: &mut Pager<D>,
    address: u64,
    count: u64,
) -> Result<(), Miss>
    requires can { CanRead 1 object.now (pager_view D.room D.tracks D.journal D.faults pager.old) }
    ensures row { (tracks : List (List ℕ)) (size : ℕ) (regs : Regs) (list : ℕ) → D.tracks pager.old.drum.now ≡ Some tracks
        → Agrees (Some tracks) pager.old.places.now.held
        → RefinesSearch object.now (pager_view D.room D.tracks D.journal D.faults pager.old)
        (pager_view D.room D.tracks D.journal D.faults pager.new)
        (reads_order (code_in tracks object.now) size regs address
        (λ head. agrees_with (code_in tracks object.now) size regs address list count (formals_handed head))) regs
        (λ done. needs (is_address (code_in tracks object.now) size regs (list + groups_for count))
        (agrees_row (code_in tracks object.now) size regs (groups_for count) (address + 1) list count)) result }
    ensures few { OnOk result (count ≤ 80) }
    ensures some { OnOk result (1 ≤ count) }
    ensures reads { Reads 1 object.now (pager_view D.room D.tracks D.journal D.faults pager.old)
        (pager_view D.room D.tracks D.journal D.faults pager.new) }
    ensures pager { PreservesPager D.faults DrumFailed pager.old pager.new result }
{
    let head = match fetch_order(object, pager, address) {
        Ok(head) => head,
        Err(miss) => return Err(miss),
    };
    let formals = match formals_of(head) {
        Ok(formals) => formals,
        Err(stop) => return Err(Miss::Stop(stop)),
    };
    if count == 0 || count > MOST_ACTUALS {
        return Err(ODD);
    }
    match formals {
        Some(n) if u64::from(n) == count => Ok(()),
        _ => Err(Miss::Stop(Stop::Alarm(Alarm::Parameters))),
    }
}

// Compares so many kinds, ten by ten, from the words at these two addresses on.
fn compare_groups<D: Drum>(
    object: &Object,
    pager: &mut Pager<D>,
    formals: u64,
    actuals: u64,
    count: u64,
) -> Result<(), Miss>
    requires few { count ≤ 255 }
    requires formals { formals ≤ 2 ^ 40 }
    requires actuals { actuals ≤ 2 ^ 40 }
    requires can { CanRead (2 * ((count + 9) / 10)) object.now
        (pager_view D.room D.tracks D.journal D.faults pager.old) }
    ensures row { (tracks : List (List ℕ)) (size : ℕ) (regs : Regs) → D.tracks pager.old.drum.now ≡ Some tracks
        → Agrees (Some tracks) pager.old.places.now.held
        → RefinesSearch object.now (pager_view D.room D.tracks D.journal D.faults pager.old)
        (pager_view D.room D.tracks D.journal D.faults pager.new)
        (agrees_row (code_in tracks object.now) size regs (groups_for count) formals actuals count) regs
        (λ done. goes_row (code_in tracks object.now) size regs (actuals + groups_for count) regs) result }
    ensures reads { Reads (2 * ((count + 9) / 10)) object.now
        (pager_view D.room D.tracks D.journal D.faults pager.old)
        (pager_view D.room D.tracks D.journal D.faults pager.new) }
    ensures pager { PreservesPager D.faults DrumFailed pager.old pager.new result }
{
    for group in 0..count.div_ceil(GROUP) {
        match compare_group(
            object,
            pager,
            formals + group,
            actuals + group,
            count - group * GROUP,
        ) {
            Ok(()) => {}
            Err(miss) => return Err(miss),
        }
    }
    Ok(())
}

// Compares the kinds of one word with those of another; so many kinds are left.
fn compare_group<D: Drum>(
    object: &Object,
    pager: &mut Pager<D>,
    formals: u64,
    actuals: u64,
    left: u64,
) -> Result<(), Miss>
    requires can { CanRead 2 object.now (pager_view D.room D.tracks D.journal D.faults pager.old) }
    ensures row { (tracks : List (List ℕ)) (regs : Regs) (next : Row) → D.tracks pager.old.drum.now ≡ Some tracks
        → Agrees (Some tracks) pager.old.places.now.held
        → RefinesSearch object.now (pager_view D.room D.tracks D.journal D.faults pager.old)
        (pager_view D.room D.tracks D.journal D.faults pager.new)
        (match_row (code_in tracks object.now) regs formals actuals left next) regs (λ done. next) result }
    ensures reads { Reads 2 object.now (pager_view D.room D.tracks D.journal D.faults pager.old)
        (pager_view D.room D.tracks D.journal D.faults pager.new) }
    ensures pager { PreservesPager D.faults DrumFailed pager.old pager.new result }
{
    let formals = match fetch_packed(object, pager, formals, left, FIRST_FORMAL) {
        Ok(word) => word,
        Err(miss) => return Err(miss),
    };
    let actuals = match fetch_packed(object, pager, actuals, left, FIRST_ACTUAL) {
        Ok(word) => word,
        Err(miss) => return Err(miss),
    };
    if fit(formals, actuals) {
        Ok(())
    } else {
        Err(Miss::Stop(Stop::Alarm(Alarm::Parameters)))
    }
}

// A word of packed kinds, of which so many are left; odd where one of them isn't from `first` to 12, or where a field behind the
// last one isn't 0.
fn fetch_packed<D: Drum>(
    object: &Object,
    pager: &mut Pager<D>,
    address: u64,
    left: u64,
    first: u8,
) -> Result<u64, Miss>
    requires can { CanRead 1 object.now (pager_view D.room D.tracks D.journal D.faults pager.old) }
    ensures row { (tracks : List (List ℕ)) (regs : Regs) (go : ℕ → Row) → D.tracks pager.old.drum.now ≡ Some tracks
        → Agrees (Some tracks) pager.old.places.now.held
        → RefinesSearch object.now (pager_view D.room D.tracks D.journal D.faults pager.old)
        (pager_view D.room D.tracks D.journal D.faults pager.new)
        (reads_row (code_in tracks object.now) address (λ word. needs (is_packed first left word) (go word))) regs go result }
    ensures reads { Reads 1 object.now (pager_view D.room D.tracks D.journal D.faults pager.old)
        (pager_view D.room D.tracks D.journal D.faults pager.new) }
    ensures pager { PreservesPager D.faults DrumFailed pager.old pager.new result }
{
    let word = match fetch(object, pager, address) {
        Ok(word) => word,
        Err(miss) => return Err(miss),
    };
    if are_kinds(word, left, first) {
        Ok(word)
    } else {
        Err(ODD)
    }
}

// Whether the first `left` fields of a word are kinds from `first` on, and the others 0.
fn are_kinds(word: u64, left: u64, first: u8) -> bool
    ensures { result ≡ is_packed first left word }
{
    for at in 0..GROUP as u8 {
        if !is_right(word, at, left, first) {
            return false;
        }
    }
    true
}

// Whether a field is such a kind, or 0 behind the last one.
fn is_right(word: u64, at: u8, left: u64, first: u8) -> bool
    requires { at < 10 }
    ensures { result ≡ is_field first left word at }
{
    let kind = kind_at(word, at);
    if u64::from(at) < left {
        kind >= first && kind <= LAST_KIND
    } else {
        kind == 0
    }
}

// Whether all actuals of a word fit the formals of another.
fn fit(formals: u64, actuals: u64) -> bool
    ensures { result ≡ all_fit formals actuals }
{
    agree(formals, actuals)
}

/// BYVAL: R := 1 where formal R of the formal procedure in cell is by value, else 0.
pub(crate) fn look_at_kind<D: Drum>(
    m: &mut Machine,
    frames: &Frames,
    object: &Object,
    pager: &mut Pager<D>,
    order: Order,
) -> Result<u32, Miss>
    requires place { m.old.place < object.now.words }
    requires can { CanRead 2 object.now (pager_view D.room D.tracks D.journal D.faults pager.old) }
    ensures row { (tracks : List (List ℕ)) (input : List ℕ) → D.tracks pager.old.drum.now ≡ Some tracks
        → Agrees (Some tracks) pager.old.places.now.held
        → frames.now.entered ≡ true
        → RefinesReading object.now (pager_view D.room D.tracks D.journal D.faults pager.old)
        (pager_view D.room D.tracks D.journal D.faults pager.new)
        (effect (code_in tracks object.now) (length frames.now.words) (regs_of m.old frames.now input) ByVal order.level
        order.address) (regs_of m.new frames.now input) result }
    ensures keeps { PreservesPlace m.old m.new }
    ensures goes { IfOk result (λ next. Progresses object.now.words m.old next m.new) }
    ensures reads { Reads 2 object.now (pager_view D.room D.tracks D.journal D.faults pager.old)
        (pager_view D.room D.tracks D.journal D.faults pager.new) }
    ensures pager { PreservesPager D.faults DrumFailed pager.old pager.new result }
    ensures odd { result ≡ Err (Stopped Odd) → m.new ≡ m.old }
{
    let address = match formal_address(frames, order) {
        Ok(address) => address,
        Err(stop) => return Err(Miss::Stop(stop)),
    };
    let kinds = match fetch_kinds(object, pager, address) {
        Ok(kinds) => kinds,
        Err(miss) => return Err(miss),
    };
    let count = u64::from(kinds.level);
    if m.r() == 0 || m.r() > count {
        return Err(ODD);
    }
    let next = match m.ahead(m.behind(), object.words) {
        Ok(next) => next,
        Err(stop) => return Err(Miss::Stop(stop)),
    };
    let at = m.r() - 1;
    let kind = match fetch_kind(object, pager, address + 1, at, count) {
        Ok(kind) => kind,
        Err(miss) => return Err(miss),
    };
    m.set_r(u64::from(kind <= LAST_BY_VALUE));
    Ok(next)
}

// The kind with a number, from 0, of so many that are packed from an address on.
fn fetch_kind<D: Drum>(
    object: &Object,
    pager: &mut Pager<D>,
    list: u64,
    at: u64,
    count: u64,
) -> Result<u8, Miss>
    requires within { at < count }
    requires few { count ≤ 80 }
    requires list { list ≤ 2 ^ 40 }
    requires can { CanRead 1 object.now (pager_view D.room D.tracks D.journal D.faults pager.old) }
    ensures row { (tracks : List (List ℕ)) (regs : Regs) (go : ℕ → Row) → D.tracks pager.old.drum.now ≡ Some tracks
        → Agrees (Some tracks) pager.old.places.now.held
        → RefinesSearch object.now (pager_view D.room D.tracks D.journal D.faults pager.old)
        (pager_view D.room D.tracks D.journal D.faults pager.new)
        (reads_row (code_in tracks object.now) (list + at / 10)
        (λ word. needs (is_packed 1 (count - at / 10 * 10) word) (go (kind_in word (at % 10))))) regs go result }
    ensures reads { Reads 1 object.now (pager_view D.room D.tracks D.journal D.faults pager.old)
        (pager_view D.room D.tracks D.journal D.faults pager.new) }
    ensures pager { PreservesPager D.faults DrumFailed pager.old pager.new result }
{
    let group = at / GROUP;
    match fetch_packed(
        object,
        pager,
        list + group,
        count - group * GROUP,
        FIRST_FORMAL,
    ) {
        Ok(word) => Ok(kind_at(word, (at % GROUP) as u8)),
        Err(miss) => Err(miss),
    }
}
