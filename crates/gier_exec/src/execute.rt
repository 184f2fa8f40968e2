// Which part of the machine carries out an order.
ghost use Rattle.std.specs.Prelude.{◌≡◌, ◌≢◌, ◌+◌, ◌*◌, ◌<◌, ◌≤◌, ◌^◌, ◌||◌, ◌++◌, ℕ, true, List, [], Some, IfOk, IsTrue, length};
ghost use Rattle.std.specs.Prelude.{Err};
ghost use Rattle.gier_frames.specs.State.{State, IsKept};
ghost use Rattle.gier_places.specs.Contents.{Agrees};
ghost use Rattle.gier_order.specs.Table.{operation_at};
ghost use Rattle.gier_order.specs.declared.operation.Operation.TheVariants.{Long, Lib};
ghost use Rattle.gier_order.specs.Flat.Row.{needs};
ghost use Rattle.gier_order.specs.Flat.Rows.{effect, does};
ghost use Rattle.gier_exec.specs.Obedience.{Obeys};
ghost use Rattle.gier_exec.specs.Rows.{regs_of, code_in};
ghost use Rattle.gier_exec.specs.Following.{RefinesJump};
ghost use Rattle.gier_exec.specs.References.{Refers, RefinesOrder};
ghost use Rattle.gier_exec.specs.Turning.{IsRest, RefinesExecution};
ghost use Rattle.gier_io.specs.Device.{Puts};
ghost use Rattle.gier_library.specs.Data.{Takes};
ghost use Rattle.gier_exec.specs.Numbers.{is_jump, is_plain, is_start};
ghost use Rattle.gier_exec.specs.Standards.{CountsFailure};
ghost use Rattle.gier_library.specs.DataView.{source_of, has_ended, stand_of};
ghost use Rattle.gier_order.specs.Codes.{IsOrder};
ghost use Rattle.gier_exec.specs.Registers.{PreservesPlace, Progresses};
ghost use Rattle.gier_exec.specs.Reading.{PreservesPager, CanRead, Reads, pager_view};
ghost use Rattle.gier_exec.specs.declared.stop.Miss.TheVariants.{Drum as DrumFailed, Stop as Stopped};
ghost use Rattle.gier_exec.specs.declared.stop.Quit.TheVariants.{Miss as Missed, Read, Write};
ghost use Rattle.gier_exec.specs.declared.stop.Stop.TheVariants.{Odd};

use crate::Machine;
use crate::activations::{leave_evaluation, leave_procedure, leave_variable};
use crate::calls::call;
use crate::evaluations::{choose, evaluate};
use crate::jumps::{go, jump, jump_if_false, turn};
use crate::kinds::{compare, look_at_kind};
use crate::library::library;
use crate::pager::Pager;
use crate::reading::fetch;
use crate::stop::{Miss, ODD, Quit, Stop};
use crate::values::plain;
use gier_drum::Drum;
use gier_frames::Frames;
use gier_io::{Sink, Source};
use gier_library::Data;
use gier_order::{Object, Operation, Order};

/// Carries out an order, and gives the address of the next one.
#[inline(always)]
pub(crate) fn execute<D: Drum, S: Source, K: Sink>(
    m: &mut Machine,
    frames: &mut Frames,
    object: &Object,
    pager: &mut Pager<D>,
    input: &mut Data<S>,
    out: &mut K,
    order: Order,
) -> Result<u32, Quit>
    requires order { IsOrder order }
    requires place { m.old.place < object.now.words }
    requires can { CanRead (2 * object.now.words + 1) object.now
        (pager_view D.room D.tracks D.journal D.faults pager.old) }
    ensures row { (tracks : List (List ℕ)) → D.tracks pager.old.drum.now ≡ Some tracks
        → Agrees (Some tracks) pager.old.places.now.held
        → (read put taken : List ℕ) × Refers object.now read
        (pager_view D.room D.tracks D.journal D.faults pager.old)
        (pager_view D.room D.tracks D.journal D.faults pager.new)
        × Puts (K.holds out.old) put (K.holds out.new) × Takes (stand_of S.left input.old) taken (stand_of S.left input.new)
        × ((rest : List ℕ) → IsRest (has_ended input.new) rest
        → RefinesExecution (does (code_in tracks object.now) (length frames.old.words) (regs_of m.old frames.old (taken
        ++ rest)) order
        (operation_at order.op)) (regs_of m.old frames.old (taken ++ rest)) (regs_of m.new frames.new rest) read put taken
        result) }
    ensures keeps { PreservesPlace m.old m.new }
    ensures goes { IfOk result (λ next. Progresses object.now.words m.old next m.new) }
    ensures size { length frames.new.words ≡ length frames.old.words }
    ensures reads { Reads (2 * object.now.words + 1) object.now
        (pager_view D.room D.tracks D.journal D.faults pager.old)
        (pager_view D.room D.tracks D.journal D.faults pager.new) }
    ensures same_reference { input.new.source.ghost_name ≡ input.old.source.ghost_name }
    ensures source { CountsFailure Read (S.faults (source_of input.old)) (S.faults (source_of input.new)) result }
    ensures sink { CountsFailure Write (K.faults out.old) (K.faults out.new) result }
    ensures pager { PreservesPager D.faults (Missed DrumFailed) pager.old pager.new result }
    ensures spoilt { result ≡ Err (Missed (Stopped Odd)) → (m.new ≡ m.old)
        × ((frames.new ≡ frames.old) × ((out.new ≡ out.old) × (input.new ≡ input.old))) }
{
    let operation = order.operation();
    match operation {
        Operation::Lib => {
            return procedure(m, frames, object, pager, input, out, order.address);
        }
        _ => {}
    }
    if is_allowed(frames, operation) {
        return match dispatch(m, frames, object, pager, operation, order) {
            Ok(next) => Ok(next),
            Err(miss) => Err(Quit::Miss(miss)),
        };
    }
    Err(Quit::Miss(ODD))
}

// Whether there is an activation, or the order begins the first one.
#[inline(always)]
fn is_allowed(frames: &Frames, operation: Operation) -> bool
    ensures value { result ≡ (frames.now.entered || is_start operation) }
    ensures kept { IsKept frames.now }
{
    frames.is_entered() || operation == Operation::Start
}

// LIB.
#[tactic(auto, using(crate::proofs::MeasureFalls::lighter_falls))]
fn procedure<D: Drum, S: Source, K: Sink>(
    m: &mut Machine,
    frames: &Frames,
    object: &Object,
    pager: &mut Pager<D>,
    input: &mut Data<S>,
    out: &mut K,
    number: u32,
) -> Result<u32, Quit>
    requires place { m.old.place < object.now.words }
    requires can { CanRead (object.now.words + 1) object.now
        (pager_view D.room D.tracks D.journal D.faults pager.old) }
    ensures row { (tracks : List (List ℕ)) → D.tracks pager.old.drum.now ≡ Some tracks
        → Agrees (Some tracks) pager.old.places.now.held
        → (read put taken : List ℕ) × Refers object.now read
        (pager_view D.room D.tracks D.journal D.faults pager.old)
        (pager_view D.room D.tracks D.journal D.faults pager.new)
        × Puts (K.holds out.old) put (K.holds out.new) × Takes (stand_of S.left input.old) taken (stand_of S.left input.new)
        × ((rest : List ℕ) (l : ℕ) → IsRest (has_ended input.new) rest
        → RefinesExecution (needs frames.now.entered (effect (code_in tracks object.now) (length frames.now.words)
        (regs_of m.old frames.now (taken ++ rest)) Lib l number)) (regs_of m.old frames.now (taken ++ rest))
        (regs_of m.new frames.now rest) read put taken result) }
    ensures keeps { PreservesPlace m.old m.new }
    ensures goes { IfOk result (λ next. Progresses object.now.words m.old next m.new) }
    ensures reads { Reads (object.now.words + 1) object.now
        (pager_view D.room D.tracks D.journal D.faults pager.old)
        (pager_view D.room D.tracks D.journal D.faults pager.new) }
    ensures same_reference { input.new.source.ghost_name ≡ input.old.source.ghost_name }
    ensures source { CountsFailure Read (S.faults (source_of input.old)) (S.faults (source_of input.new)) result }
    ensures sink { CountsFailure Write (K.faults out.old) (K.faults out.new) result }
    ensures pager { PreservesPager D.faults (Missed DrumFailed) pager.old pager.new result }
    ensures odd { result ≡ Err (Missed (Stopped Odd)) → (m.new ≡ m.old) × ((out.new ≡ out.old) × (input.new ≡ input.old)) }
{
    if m.behind() >= u64::from(object.words) {
        return Err(Quit::Miss(ODD));
    }
    if frames.is_entered() {
        return match library(m, object, pager, input, out, number) {
            Ok(()) => Ok(m.place() + 1),
            Err(quit) => Err(quit),
        };
    }
    Err(Quit::Miss(ODD))
}

// The orders other than LIB.
#[inline(always)]
fn dispatch<D: Drum>(
    m: &mut Machine,
    frames: &mut Frames,
    object: &Object,
    pager: &mut Pager<D>,
    operation: Operation,
    order: Order,
) -> Result<u32, Miss>
    requires place { m.old.place < object.now.words }
    requires can { CanRead (2 * object.now.words + 1) object.now
        (pager_view D.room D.tracks D.journal D.faults pager.old) }
    requires other { operation ≢ Lib }
    requires kept { IsKept frames.old }
    ensures row { (tracks : List (List ℕ)) (input : List ℕ) → D.tracks pager.old.drum.now ≡ Some tracks
        → Agrees (Some tracks) pager.old.places.now.held
        → IsTrue (frames.old.entered || is_start operation)
        → (refs : List ℕ) × Refers object.now refs
        (pager_view D.room D.tracks D.journal D.faults pager.old)
        (pager_view D.room D.tracks D.journal D.faults pager.new)
        × RefinesOrder (effect (code_in tracks object.now) (length frames.old.words)
        (regs_of m.old frames.old input) operation order.level
        order.address) refs (regs_of m.new frames.new input) result }
    ensures obeys { Obeys (Stopped Odd) object.now.words m.old m.new frames.old frames.new result }
    ensures reads { Reads (2 * object.now.words + 1) object.now
        (pager_view D.room D.tracks D.journal D.faults pager.old)
        (pager_view D.room D.tracks D.journal D.faults pager.new) }
    ensures pager { PreservesPager D.faults DrumFailed pager.old pager.new result }
{
    match operation {
        Operation::Jump
        | Operation::False
        | Operation::Turn
        | Operation::Go
        | Operation::Return
        | Operation::Back
        | Operation::Give => move_on(m, frames, operation, order, object.words),
        Operation::Value | Operation::Place | Operation::NameL | Operation::Pass => {
            evaluate(m, frames, object, pager, operation, order)
        }
        Operation::Call | Operation::Formal | Operation::CallF => {
            call(m, frames, object, pager, operation, order)
        }
        Operation::Switch | Operation::SwForm => {
            choose(m, frames, object, pager, operation, order)
        }
        Operation::Long => long(m, object, pager),
        Operation::Agree => compare(m, frames, object, pager, order),
        Operation::ByVal => look_at_kind(m, frames, object, pager, order),
        Operation::Stop => Err(Miss::Stop(Stop::Ended)),
        Operation::Proc | Operation::Thunk | Operation::Kinds => Err(ODD),
        _ => go_on(m, frames, operation, order, object.words),
    }
}

// The orders that read nothing of the object and may choose the place of the next one.
#[inline(always)]
fn move_on(
    m: &mut Machine,
    frames: &mut Frames,
    operation: Operation,
    order: Order,
    words: u32,
) -> Result<u32, Miss>
    ensures row { (code input : List ℕ) → frames.old.entered ≡ true → length code ≡ words → is_jump operation ≡ true
        → RefinesOrder (effect code (length frames.old.words)
        (regs_of m.old frames.old input) operation order.level order.address) []
        (regs_of m.new frames.new input) result }
    ensures obeys { Obeys (Stopped Odd) words m.old m.new frames.old frames.new result }
    ensures homely { result ≢ Err DrumFailed }
{
    match choose_next(m, frames, operation, order, words) {
        Ok(next) => Ok(next),
        Err(stop) => Err(Miss::Stop(stop)),
    }
}

#[inline(always)]
fn choose_next(
    m: &mut Machine,
    frames: &mut Frames,
    operation: Operation,
    order: Order,
    words: u32,
) -> Result<u32, Stop>
    ensures row { (code input : List ℕ) → frames.old.entered ≡ true → length code ≡ words → is_jump operation ≡ true
        → RefinesJump (effect code (length frames.old.words) (regs_of m.old frames.old input) operation order.level order.address)
        (regs_of m.new frames.new input) result }
    ensures obeys { Obeys Odd words m.old m.new frames.old frames.new result }
{
    match operation {
        Operation::Jump => jump(m, order.address, words),
        Operation::False => jump_if_false(m, order.address, words),
        Operation::Turn => turn(m, frames, order.address, words),
        Operation::Go => go(m, frames, words),
        Operation::Return => leave_procedure(m, frames, order.address, words),
        Operation::Give => leave_variable(m, frames, words),
        _ => leave_evaluation(m, frames, words),
    }
}

// The orders that read nothing of the object and go on with the next one.
#[inline(always)]
#[tactic(auto, using(crate::proofs::MeasureFalls::lighter_falls))]
fn go_on(
    m: &mut Machine,
    frames: &mut Frames,
    operation: Operation,
    order: Order,
    words: u32,
) -> Result<u32, Miss>
    requires kept { IsKept frames.old }
    ensures row { (code input : List ℕ) → IsTrue (frames.old.entered || is_start operation) → length code ≡ words
        → is_plain operation ≡ true → RefinesOrder (effect code (length frames.old.words) (regs_of m.old frames.old input) operation
        order.level order.address) [] (regs_of m.new frames.new input) result }
    ensures obeys { Obeys (Stopped Odd) words m.old m.new frames.old frames.new result }
    ensures homely { result ≢ Err DrumFailed }
{
    if m.behind() >= u64::from(words) {
        return Err(ODD);
    }
    match plain(m, frames, operation, order) {
        Ok(()) => Ok(m.place() + 1),
        Err(stop) => Err(Miss::Stop(stop)),
    }
}

// LONG: R := the word behind the order, which is passed over.
#[tactic(auto, using(crate::proofs::MeasureFalls::lighter_falls))]
fn long<D: Drum>(m: &mut Machine, object: &Object, pager: &mut Pager<D>) -> Result<u32, Miss>
    requires place { m.old.place < object.now.words }
    requires can { CanRead 1 object.now (pager_view D.room D.tracks D.journal D.faults pager.old) }
    ensures row { (tracks : List (List ℕ)) (input : List ℕ) (s : State) (l a : ℕ) → D.tracks pager.old.drum.now ≡ Some tracks
        → Agrees (Some tracks) pager.old.places.now.held
        → (refs : List ℕ) × Refers object.now refs
        (pager_view D.room D.tracks D.journal D.faults pager.old)
        (pager_view D.room D.tracks D.journal D.faults pager.new)
        × RefinesOrder (effect (code_in tracks object.now) (length s.words) (regs_of m.old s input) Long l a) refs
        (regs_of m.new s input)
        result }
    ensures keeps { PreservesPlace m.old m.new }
    ensures goes { IfOk result (λ next. Progresses object.now.words m.old next m.new) }
    ensures reads { Reads 1 object.now (pager_view D.room D.tracks D.journal D.faults pager.old)
        (pager_view D.room D.tracks D.journal D.faults pager.new) }
    ensures pager { PreservesPager D.faults DrumFailed pager.old pager.new result }
    ensures odd { result ≡ Err (Stopped Odd) → m.new ≡ m.old }
{
    let word = match fetch(object, pager, m.behind()) {
        Ok(word) => word,
        Err(miss) => return Err(miss),
    };
    match m.ahead(m.behind() + 1, object.words) {
        Ok(next) => {
            m.set_r(word);
            Ok(next)
        }
        Err(stop) => Err(Miss::Stop(stop)),
    }
}
