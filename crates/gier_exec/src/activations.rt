// The activations of procedures and evaluations: entering one that was found, and the orders that leave one.
ghost use Rattle.std.specs.Prelude.{◌≡◌, ◌≢◌, ◌+◌, ◌-◌, ◌<◌, ◌≤◌, ◌^◌, ◌&&◌, ℕ, true, nat_le, List, IfOk, Ok, Err, OnOk, length};
ghost use Rattle.std.specs.Prelude.{slice_index, if◌then◌else◌};
ghost use Rattle.gier_word.specs.declared.alarm.Alarm.TheVariants.{Assignment};
ghost use Rattle.gier_order.specs.declared.operation.Operation.TheVariants.{Return, Back, Give};
ghost use Rattle.gier_order.specs.Flat.Row.{Row, needs};
ghost use Rattle.gier_order.specs.Flat.Rows.{effect, leaves, local as local_row};
ghost use Rattle.gier_names.specs.Evaluations.{number_of};
ghost use Rattle.gier_exec.specs.Obedience.{Obeys};
ghost use Rattle.gier_exec.specs.Rows.{regs_of};
ghost use Rattle.gier_exec.specs.Following.{RefinesJump, RefinesValue, can_return};
ghost use Rattle.gier_frames.specs.State.{IsKept};
ghost use Rattle.gier_exec.specs.Finding.{IsFound};
ghost use Rattle.gier_exec.specs.Beginning.{evaluation_row};
ghost use Rattle.gier_exec.specs.Registers.{Registers, PreservesPlace};
ghost use Rattle.gier_exec.specs.Calling.{entry_row, IsCallable};
ghost use Rattle.gier_order.specs.Codes.{IsOrder};
ghost use Rattle.gier_exec.specs.declared.stop.Stop.TheVariants.{Odd};

use crate::Machine;
use crate::frame::{can_enter, local};
use crate::machine::address_of;
use crate::stop::Stop;
use gier_frames::{Frames, Halt};
use gier_names::{Wanted, begin, give};
use gier_order::Order;
use gier_word::Alarm;

/// A procedure that is to be entered.
#[derive(Clone, Copy)]
pub(crate) struct Entry {
    pub level: u8,
    pub room: u32,
    /// The base of the activation that encloses it.
    pub outer: u64,
    /// Twice the number of its formals, and 1 more for a function.
    pub count: u32,
    /// Where its actuals stand, counted from the current base.
    pub from: u64,
    /// The address of its first order.
    pub next: u32,
}

/// An evaluation that is to be entered.
#[derive(Clone, Copy)]
pub(crate) struct Evaluation {
    pub thunk: Order,
    /// The base of the activation that encloses it.
    pub outer: u64,
    pub wanted: Wanted,
    /// The address of its first order.
    pub next: u32,
}

// Where an activation has the order to return to, what is wanted of it, and a function's value.
const BACK: u32 = 3;

const WANTED: u32 = 4;

const VALUE: u32 = 5;

/// Enters a procedure: charges the step, then takes the room.
#[tactic(auto, using(crate::proofs::MeasureFalls::paid_falls, crate::proofs::Sizes::length_called))]
pub(crate) fn enter_procedure(
    m: &mut Machine,
    frames: &mut Frames,
    entry: Entry,
    words: u32,
) -> Result<u32, Stop>
    requires next { entry.next < words }
    requires place { m.old.place < words }
    requires kept { IsKept frames.old }
    ensures row { (code input : List ℕ) → frames.old.entered ≡ true → IsCallable entry
        → RefinesJump (entry_row code (length frames.old.words) (regs_of m.old frames.old input) entry)
        (regs_of m.new frames.new input)
        result }
    ensures obeys { Obeys Odd words m.old m.new frames.old frames.new result }
{
    let Ok(from) = u32::try_from(entry.from) else {
        return Err(Stop::Odd);
    };
    if m.steps_left() == 0 {
        return if can_enter(frames, entry.room, entry.outer, from, entry.count) {
            Err(Stop::Steps)
        } else {
            Err(Stop::Odd)
        };
    }
    let back = m.place() + 1;
    match frames.call(
        entry.level,
        entry.room,
        entry.outer,
        back,
        0,
        from,
        entry.count,
    ) {
        Ok(()) => {
            m.enter();
            Ok(entry.next)
        }
        Err(Halt::Odd) => Err(Stop::Odd),
        Err(Halt::Alarm(alarm)) => {
            m.charge();
            Err(Stop::Alarm(alarm))
        }
    }
}

/// Enters an evaluation: charges the step, then takes the room. With the alarm `assignment` it was entered.
#[tactic(auto, using(crate::proofs::MeasureFalls::paid_falls, crate::proofs::Sizes::length_begun, crate::proofs::Sizes::begun_odd))]
pub(crate) fn enter_evaluation(
    m: &mut Machine,
    frames: &mut Frames,
    found: Evaluation,
    words: u32,
) -> Result<u32, Stop>
    requires found { IsFound words found }
    requires place { m.old.place < words }
    requires kept { IsKept frames.old }
    ensures row { (code input : List ℕ) → frames.old.entered ≡ true
        → RefinesJump (evaluation_row code (length frames.old.words) (regs_of m.old frames.old input) found)
        (regs_of m.new frames.new input)
        result }
    ensures obeys { Obeys Odd words m.old m.new frames.old frames.new result }
{
    if m.steps_left() == 0 {
        return if can_enter(frames, found.thunk.address, found.outer, 0, 0) {
            Err(Stop::Steps)
        } else {
            Err(Stop::Odd)
        };
    }
    let back = m.place() + 1;
    match begin(frames, found.thunk, found.outer, found.wanted, back) {
        Ok(()) => {
            m.enter();
            Ok(found.next)
        }
        Err(Halt::Odd) => Err(Stop::Odd),
        Err(Halt::Alarm(alarm)) => {
            pay_for(m, alarm);
            Err(Stop::Alarm(alarm))
        }
    }
}

// Charges the step of an evaluation that ends the run with this alarm. With `assignment` it was entered.
fn pay_for(m: &mut Machine, alarm: Alarm)
    requires { 0 < m.old.steps }
    ensures entered { alarm ≡ Assignment → m.new ≡ record m.old { steps = m.old.steps - 1; depth = m.old.depth + 1 } }
    ensures paid { alarm ≢ Assignment → m.new ≡ record m.old { steps = m.old.steps - 1 } }
    ensures keeps { PreservesPlace m.old m.new }
{
    match alarm {
        Alarm::Assignment => m.enter(),
        _ => m.charge(),
    }
}

/// RETURN: leaves a procedure; `kind` is 1 for a function, whose value R becomes, and else 0.
pub(crate) fn leave_procedure(
    m: &mut Machine,
    frames: &mut Frames,
    kind: u32,
    words: u32,
) -> Result<u32, Stop>
    ensures row { (code input : List ℕ) (l : ℕ) → frames.old.entered ≡ true → length code ≡ words
        → RefinesJump (effect code (length frames.old.words) (regs_of m.old frames.old input) Return l kind)
        (regs_of m.new frames.new input) result }
    ensures obeys { Obeys Odd words m.old m.new frames.old frames.new result }
{
    match kind {
        0 => {
            let r = m.r();
            leave(m, frames, r, words)
        }
        1 => match local(frames, VALUE) {
            Ok(value) => leave(m, frames, value, words),
            Err(stop) => Err(stop),
        },
        _ => Err(Stop::Odd),
    }
}

/// BACK: leaves an evaluation with what R has.
pub(crate) fn leave_evaluation(
    m: &mut Machine,
    frames: &mut Frames,
    words: u32,
) -> Result<u32, Stop>
    ensures row { (code input : List ℕ) (l a : ℕ) → frames.old.entered ≡ true → length code ≡ words
        → RefinesJump (effect code (length frames.old.words) (regs_of m.old frames.old input) Back l a)
        (regs_of m.new frames.new input)
        result }
    ensures obeys { Obeys Odd words m.old m.new frames.old frames.new result }
{
    match wanted_now(frames) {
        Ok(_) => {
            let r = m.r();
            leave(m, frames, r, words)
        }
        Err(stop) => Err(stop),
    }
}

/// GIVE: leaves the evaluation of a variable with its value or its place.
#[tactic(auto, using(crate::proofs::MeasureFalls::paid_falls))]
pub(crate) fn leave_variable(m: &mut Machine, frames: &mut Frames, words: u32) -> Result<u32, Stop>
    ensures row { (code input : List ℕ) (l a : ℕ) → frames.old.entered ≡ true → length code ≡ words
        → RefinesJump (effect code (length frames.old.words) (regs_of m.old frames.old input) Give l a)
        (regs_of m.new frames.new input)
        result }
    ensures obeys { Obeys Odd words m.old m.new frames.old frames.new result }
{
    let next = match return_to(m, frames, words) {
        Ok(next) => next,
        Err(stop) => return Err(stop),
    };
    match give(frames, m.r()) {
        Ok((_, value)) => {
            m.leave();
            m.set_r(value);
            Ok(next)
        }
        Err(halt) => Err(Stop::from(halt)),
    }
}

/// What is wanted of the current activation; odd where it isn't an evaluation's.
pub(crate) fn wanted_now(frames: &Frames) -> Result<Wanted, Stop>
    ensures row { (code input : List ℕ) (m : Registers) (go : ℕ → Row) → frames.now.entered ≡ true
        → RefinesValue (local_row code (length frames.now.words) (regs_of m frames.now input) 4
        (λ wanted. needs (nat_le 1 wanted && nat_le wanted 3) (go wanted))) (λ wanted. go (number_of wanted)) result }
{
    match local(frames, WANTED) {
        Ok(number) => match Wanted::of(number) {
            Some(wanted) => Ok(wanted),
            None => Err(Stop::Odd),
        },
        Err(stop) => Err(stop),
    }
}

// Leaves the current activation, with this value for R.
#[tactic(auto, using(crate::proofs::MeasureFalls::paid_falls))]
fn leave(m: &mut Machine, frames: &mut Frames, value: u64, words: u32) -> Result<u32, Stop>
    requires { value < 2 ^ 40 }
    ensures row { (code input : List ℕ) → frames.old.entered ≡ true → length code ≡ words
        → RefinesJump (leaves code (length frames.old.words) (regs_of m.old frames.old input) value)
        (regs_of m.new frames.new input)
        result }
    ensures obeys { Obeys Odd words m.old m.new frames.old frames.new result }
{
    let next = match return_to(m, frames, words) {
        Ok(next) => next,
        Err(stop) => return Err(stop),
    };
    match frames.back() {
        Ok(_) => {
            m.leave();
            m.set_r(value);
            Ok(next)
        }
        Err(halt) => Err(Stop::from(halt)),
    }
}

// The order to return to; odd where nothing was entered.
fn return_to(m: &Machine, frames: &Frames, words: u32) -> Result<u32, Stop>
    ensures found { frames.now.entered ≡ true
        → result ≡ (if can_return words m.now frames.now then Ok (slice_index frames.now.words (frames.now.base + 3)) else Err
        Odd) }
    ensures entered { IfOk result (λ next. 0 < m.now.depth) }
    ensures within { IfOk result (λ next. next < words) }
{
    if m.depth() == 0 {
        return Err(Stop::Odd);
    }
    match local(frames, BACK) {
        Ok(word) => address_of(word, words),
        Err(stop) => Err(stop),
    }
}
