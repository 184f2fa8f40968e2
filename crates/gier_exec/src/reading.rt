// Words of the object, which are read through the places alone; each is noted in both counts of references.
ghost use Rattle.std.specs.Prelude.{◌≡◌, ◌<◌, ◌≤◌, ◌^◌, ℕ, true, List, Some, IfOk, OnOk, Err};
ghost use Rattle.gier_order.specs.declared.order.Order.{Order};
ghost use Rattle.gier_order.specs.Flat.Row.{Regs, Row, needs, reads};
ghost use Rattle.gier_order.specs.Flat.Rows.{reads_order};
ghost use Rattle.gier_order.specs.Flat.Kinds.{is_a};
ghost use Rattle.gier_exec.specs.Searching.{RefinesSearch};
ghost use Rattle.gier_places.specs.Contents.{Agrees};
ghost use Rattle.gier_exec.specs.Rows.{word_in, code_in};
ghost use Rattle.gier_exec.specs.References.{Refers, RefinesFetch, read_at, fetched_at};
ghost use Rattle.gier_word.specs.Cause.{HasCause};
ghost use Rattle.gier_order.specs.Codes.{IsOrder};
ghost use Rattle.gier_exec.specs.Reading.{PreservesPager, CanRead, Reads, SamePager, pager_view};
ghost use Rattle.gier_exec.specs.declared.stop.Miss.TheVariants.{Drum as DrumFailed, Stop as Stopped};
ghost use Rattle.gier_exec.specs.declared.stop.Stop.TheVariants.{Odd};

use crate::pager::Pager;
use crate::stop::{Miss, ODD};
use gier_drum::Drum;
use gier_order::{Object, Operation, Order};
use gier_word::Failed;

// How many words a track has.
const TRACK: u32 = 40;

/// The word at an address of the object.
#[inline(always)]
pub(crate) fn read_word<D: Drum>(
    object: &Object,
    pager: &mut Pager<D>,
    address: u32,
) -> Result<u64, Failed>
    requires can { CanRead 1 object.now (pager_view D.room D.tracks D.journal D.faults pager.old) }
    requires within { address < object.now.words }
    ensures same_references { SamePager pager.old pager.new }
    ensures reads { Reads 1 object.now (pager_view D.room D.tracks D.journal D.faults pager.old)
        (pager_view D.room D.tracks D.journal D.faults pager.new) }
    ensures small { IfOk result (λ word. word < 2 ^ 40) }
    ensures refers { Refers object.now (read_at address result)
        (pager_view D.room D.tracks D.journal D.faults pager.old)
        (pager_view D.room D.tracks D.journal D.faults pager.new) }
    ensures word { (tracks : List (List ℕ)) → D.tracks pager.old.drum.now ≡ Some tracks
        → Agrees (Some tracks) pager.old.places.now.held
        → IfOk result (λ word. word ≡ word_in tracks object.now address) }
    ensures cause { HasCause (D.faults pager.old.drum.now) (D.faults pager.new.drum.now) result }
{
    let track = address / TRACK;
    let word = match pager.places.refer(object.first_track + track, pager.drum) {
        Ok(words) => words[(address % TRACK) as usize],
        Err(failed) => return Err(failed),
    };
    pager.recent.refer(object.first_track + track);
    pager.trace.note(track);
    Ok(word)
}

/// The same, where the address may be none of the object.
#[inline(never)]
#[tactic(auto, using(crate::proofs::Referrings::word_answers))]
pub(crate) fn fetch<D: Drum>(
    object: &Object,
    pager: &mut Pager<D>,
    address: u64,
) -> Result<u64, Miss>
    requires can { CanRead 1 object.now (pager_view D.room D.tracks D.journal D.faults pager.old) }
    ensures reads { Reads 1 object.now (pager_view D.room D.tracks D.journal D.faults pager.old)
        (pager_view D.room D.tracks D.journal D.faults pager.new) }
    ensures small { IfOk result (λ word. word < 2 ^ 40) }
    ensures refers { Refers object.now (fetched_at address result)
        (pager_view D.room D.tracks D.journal D.faults pager.old)
        (pager_view D.room D.tracks D.journal D.faults pager.new) }
    ensures row { (tracks : List (List ℕ)) → D.tracks pager.old.drum.now ≡ Some tracks
        → Agrees (Some tracks) pager.old.places.now.held → (go : ℕ → Row)
        → RefinesFetch (reads (code_in tracks object.now) address go) go address result }
    ensures within { IfOk result (λ word. address < object.now.words) }
    ensures odd { result ≡ Err (Stopped Odd) → object.now.words ≤ address }
    ensures pager { PreservesPager D.faults DrumFailed pager.old pager.new result }
{
    if address >= u64::from(object.words) {
        return Err(ODD);
    }
    match read_word(object, pager, address as u32) {
        Ok(word) => Ok(word),
        Err(_) => Err(Miss::Drum),
    }
}

/// The order at an address; odd where the word there is none.
pub(crate) fn fetch_order<D: Drum>(
    object: &Object,
    pager: &mut Pager<D>,
    address: u64,
) -> Result<Order, Miss>
    requires can { CanRead 1 object.now (pager_view D.room D.tracks D.journal D.faults pager.old) }
    ensures reads { Reads 1 object.now (pager_view D.room D.tracks D.journal D.faults pager.old)
        (pager_view D.room D.tracks D.journal D.faults pager.new) }
    ensures row { (tracks : List (List ℕ)) (size : ℕ) (regs : Regs) (go : Order → Row) → D.tracks pager.old.drum.now ≡ Some tracks
        → Agrees (Some tracks) pager.old.places.now.held
        → RefinesSearch object.now (pager_view D.room D.tracks D.journal D.faults pager.old)
        (pager_view D.room D.tracks D.journal D.faults pager.new)
        (reads_order (code_in tracks object.now) size regs address go) regs go result }
    ensures order { IfOk result IsOrder }
    ensures within { IfOk result (λ order. address < object.now.words) }
    ensures pager { PreservesPager D.faults DrumFailed pager.old pager.new result }
{
    let word = match fetch(object, pager, address) {
        Ok(word) => word,
        Err(miss) => return Err(miss),
    };
    match Order::decode(word) {
        Some(order) => Ok(order),
        None => Err(ODD),
    }
}

/// The order at an address, which has to be this one.
pub(crate) fn fetch_only<D: Drum>(
    object: &Object,
    pager: &mut Pager<D>,
    address: u64,
    operation: Operation,
) -> Result<Order, Miss>
    requires can { CanRead 1 object.now (pager_view D.room D.tracks D.journal D.faults pager.old) }
    ensures reads { Reads 1 object.now (pager_view D.room D.tracks D.journal D.faults pager.old)
        (pager_view D.room D.tracks D.journal D.faults pager.new) }
    ensures row { (tracks : List (List ℕ)) (size : ℕ) (regs : Regs) (go : Order → Row) → D.tracks pager.old.drum.now ≡ Some tracks
        → Agrees (Some tracks) pager.old.places.now.held
        → RefinesSearch object.now (pager_view D.room D.tracks D.journal D.faults pager.old)
        (pager_view D.room D.tracks D.journal D.faults pager.new)
        (reads_order (code_in tracks object.now) size regs address (λ order. needs (is_a operation order) (go order))) regs go
        result }
    ensures order { IfOk result IsOrder }
    ensures only { IfOk result (λ order. is_a operation order ≡ true) }
    ensures within { IfOk result (λ order. address < object.now.words) }
    ensures pager { PreservesPager D.faults DrumFailed pager.old pager.new result }
{
    let order = match fetch_order(object, pager, address) {
        Ok(order) => order,
        Err(miss) => return Err(miss),
    };
    if order.op == operation.number() {
        Ok(order)
    } else {
        Err(ODD)
    }
}
