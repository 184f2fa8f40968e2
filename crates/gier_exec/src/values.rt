// The orders that go on with the next one and read nothing of the object: values, places, arrays, blocks.
ghost use Rattle.std.specs.Prelude.{◌≡◌, ◌+◌, ◌<◌, ◌≤◌, ◌^◌, ◌==◌, ◌||◌, ℕ, true, List, IfOk, Err, IsTrue, length};
ghost use Rattle.std.specs.Prelude.{if◌then◌else◌};
ghost use Rattle.gier_order.specs.declared.operation.Operation.TheVariants.{Index, Keep, Put, Lab, Array, Block, Start, Leave};
ghost use Rattle.gier_order.specs.Flat.Row.{Row};
ghost use Rattle.gier_order.specs.Flat.Rows.{effect, cell_word, in_level};
ghost use Rattle.gier_exec.specs.Obedience.{ObeysInPlace};
ghost use Rattle.gier_exec.specs.Registers.{Registers};
ghost use Rattle.gier_exec.specs.Rows.{regs_of};
ghost use Rattle.gier_exec.specs.Numbers.{is_combined, is_value, is_plain, is_start};
ghost use Rattle.gier_exec.specs.Following.{RefinesValue, RefinesNext, RefinesResult};
ghost use Rattle.gier_frames.specs.State.{IsKept};
ghost use Rattle.gier_exec.specs.declared.stop.Stop.TheVariants.{Odd};

use crate::Machine;
use crate::frame::{as_word, here, local, place_of, read, write};
use crate::number::{combination, negative};
use crate::stop::Stop;
use gier_frames::{Frames, Halt};
use gier_order::{Operation, Order};

// The words of the header of a block.
const HEADER: u32 = 3;

/// Carries out an order of these; any other is odd.
#[inline(always)]
pub(crate) fn plain(
    m: &mut Machine,
    frames: &mut Frames,
    operation: Operation,
    order: Order,
) -> Result<(), Stop>
    requires kept { IsKept frames.old }
    ensures row { (code input : List ℕ) → IsTrue (frames.old.entered || is_start operation) → is_plain operation ≡ true
        → m.old.place + 1 < length code → RefinesNext
        (effect code (length frames.old.words) (regs_of m.old frames.old input) operation order.level order.address)
        (regs_of m.new frames.new input) result }
    ensures stays { ObeysInPlace m.old m.new frames.old frames.new result }
{
    match operation {
        Operation::Keep => keep(m, frames, order.address),
        Operation::Put => put(m, frames, order.address),
        Operation::Block => enter_block(m, frames, order),
        Operation::Leave => leave_block(m, frames),
        Operation::Array => take_array(m, frames, order),
        Operation::Lab => form_label(m, frames, order),
        Operation::Start => start(m, frames, order),
        _ => {
            let r = match value(m, frames, operation, order) {
                Ok(r) => r,
                Err(stop) => return Err(stop),
            };
            m.set_r(r);
            Ok(())
        }
    }
}

// What R becomes by an order that changes nothing else.
#[inline(always)]
fn value(m: &Machine, frames: &Frames, operation: Operation, order: Order) -> Result<u64, Stop>
    requires kept { IsKept frames.now }
    ensures row { (code input : List ℕ) → frames.now.entered ≡ true → m.now.place + 1 < length code → is_value operation ≡ true
        → RefinesResult (effect code (length frames.now.words) (regs_of m.now frames.now input) operation order.level order.address)
        (regs_of m.now frames.now input) result }
    ensures small { IfOk result (λ word. word < 2 ^ 40) }
{
    match operation {
        Operation::Take => take(frames, order),
        Operation::Short => Ok(u64::from(order.address)),
        Operation::Addr => place_of(frames, order.level, order.address),
        Operation::Fetch => read(frames, m.r()),
        Operation::Neg => match negative(m.r()) {
            Ok(word) => Ok(word),
            Err(alarm) => Err(Stop::Alarm(alarm)),
        },
        Operation::Not => Ok(u64::from(m.r() == 0)),
        Operation::Index => element(frames, order),
        Operation::Base => base(frames, order.level),
        _ => combined(m, frames, operation, order.address),
    }
}

// The orders on w and R.
#[inline(always)]
fn combined(m: &Machine, frames: &Frames, operation: Operation, address: u32) -> Result<u64, Stop>
    ensures row { (code input : List ℕ) → frames.now.entered ≡ true → m.now.place + 1 < length code → (l : ℕ)
        → is_combined operation ≡ true → RefinesResult
        (effect code (length frames.now.words) (regs_of m.now frames.now input) operation l address)
        (regs_of m.now frames.now input) result }
    ensures small { IfOk result (λ word. word < 2 ^ 40) }
{
    let w = match local(frames, address) {
        Ok(word) => word,
        Err(stop) => return Err(stop),
    };
    match combination(operation, w, m.r()) {
        Ok(word) => Ok(word),
        Err(alarm) => Err(Stop::Alarm(alarm)),
    }
}

// TAKE: cell.
#[inline(always)]
fn take(frames: &Frames, order: Order) -> Result<u64, Stop>
    ensures row { (code input : List ℕ) (m : Registers) (go : ℕ → Row) → frames.now.entered ≡ true
        → RefinesValue (cell_word code (length frames.now.words) (regs_of m frames.now input) order.level order.address
        (λ place word. go word)) go result }
    ensures small { IfOk result (λ word. word < 2 ^ 40) }
{
    match place_of(frames, order.level, order.address) {
        Ok(place) => read(frames, place),
        Err(stop) => Err(stop),
    }
}

// BASE: C, or the base of the visible activation of a level.
fn base(frames: &Frames, level: u8) -> Result<u64, Stop>
    ensures row { (code input : List ℕ) (m : Registers) (go : ℕ → Row) → frames.now.entered ≡ true
        → RefinesValue (if level == 0 then go frames.now.base
        else in_level code (length frames.now.words) (regs_of m frames.now input)
        level (λ b. go b)) go result }
    ensures small { IfOk result (λ word. word < 2 ^ 40) }
{
    if level > 0 {
        return place_of(frames, level, 0);
    }
    here(frames, 0)
}

// INDEX: the place of an element.
fn element(frames: &Frames, order: Order) -> Result<u64, Stop>
    requires kept { IsKept frames.now }
    ensures row { (code input : List ℕ) (m : Registers) → frames.now.entered ≡ true → m.place + 1 < length code
        → RefinesResult (effect code (length frames.now.words) (regs_of m frames.now input) Index order.level order.address)
        (regs_of m frames.now input) result }
    ensures small { IfOk result (λ word. word < 2 ^ 40) }
{
    match frames.index(order.level, order.address) {
        Ok(place) => as_word(place),
        Err(halt) => Err(Stop::from(halt)),
    }
}

// KEEP: w := R.
#[inline(always)]
fn keep(m: &mut Machine, frames: &mut Frames, address: u32) -> Result<(), Stop>
    ensures row { (code input : List ℕ) → (l : ℕ) → frames.old.entered ≡ true → m.old.place + 1 < length code
        → RefinesNext (effect code (length frames.old.words) (regs_of m.old frames.old input) Keep l address)
        (regs_of m.new frames.new input) result }
    ensures same { m.new ≡ m.old }
    ensures size { length frames.new.words ≡ length frames.old.words }
    ensures odd { result ≡ Err Odd → frames.new ≡ frames.old }
{
    match frames.here(address) {
        Ok(place) => write(frames, place, m.r()),
        Err(halt) => Err(Stop::from(halt)),
    }
}

// PUT: the word at place w := R.
#[inline(always)]
fn put(m: &mut Machine, frames: &mut Frames, address: u32) -> Result<(), Stop>
    ensures row { (code input : List ℕ) → (l : ℕ) → frames.old.entered ≡ true → m.old.place + 1 < length code
        → RefinesNext (effect code (length frames.old.words) (regs_of m.old frames.old input) Put l address)
        (regs_of m.new frames.new input) result }
    ensures same { m.new ≡ m.old }
    ensures size { length frames.new.words ≡ length frames.old.words }
    ensures odd { result ≡ Err Odd → frames.new ≡ frames.old }
{
    match local(frames, address) {
        Ok(place) => write(frames, place, m.r()),
        Err(stop) => Err(stop),
    }
}

// LAB: R := an address of the object, Q := the base of the visible activation of a level.
fn form_label(m: &mut Machine, frames: &mut Frames, order: Order) -> Result<(), Stop>
    ensures row { (code input : List ℕ) → frames.old.entered ≡ true → m.old.place + 1 < length code
        → RefinesNext (effect code (length frames.old.words) (regs_of m.old frames.old input) Lab order.level order.address)
        (regs_of m.new frames.new input) result }
    ensures stays { ObeysInPlace m.old m.new frames.old frames.new result }
{
    match place_of(frames, order.level, 0) {
        Ok(base) => {
            m.set_q(base);
            m.set_r(u64::from(order.address));
            Ok(())
        }
        Err(stop) => Err(stop),
    }
}

// START: the first activation, without a step.
#[tactic(auto, using(crate::proofs::Sizes::length_started))]
fn start(m: &mut Machine, frames: &mut Frames, order: Order) -> Result<(), Stop>
    requires kept { IsKept frames.old }
    ensures row { (code input : List ℕ) → m.old.place + 1 < length code
        → RefinesNext (effect code (length frames.old.words) (regs_of m.old frames.old input) Start order.level order.address)
        (regs_of m.new frames.new input) result }
    ensures stays { ObeysInPlace m.old m.new frames.old frames.new result }
{
    match frames.start(order.level, order.address) {
        Ok(()) => {
            m.start();
            Ok(())
        }
        Err(halt) => Err(Stop::from(halt)),
    }
}

// ARRAY: takes the elements of an array, whose bounds stand from C + R on.
#[tactic(auto, using(crate::proofs::Sizes::length_array))]
fn take_array(m: &mut Machine, frames: &mut Frames, order: Order) -> Result<(), Stop>
    requires kept { IsKept frames.old }
    ensures row { (code input : List ℕ) → frames.old.entered ≡ true → m.old.place + 1 < length code
        → RefinesNext (effect code (length frames.old.words) (regs_of m.old frames.old input) Array order.level order.address)
        (regs_of m.new frames.new input) result }
    ensures same { m.new ≡ m.old }
    ensures size { length frames.new.words ≡ length frames.old.words }
    ensures odd { result ≡ Err Odd → frames.new ≡ frames.old }
{
    let Ok(from) = u32::try_from(m.r()) else {
        return Err(Stop::Odd);
    };
    match frames.array(order.level, order.address, from) {
        Ok(()) => Ok(()),
        Err(halt) => Err(Stop::from(halt)),
    }
}

// BLOCK: enters a block, enclosed by the current activation.
#[tactic(auto, using(crate::proofs::Sizes::length_block))]
fn enter_block(m: &mut Machine, frames: &mut Frames, order: Order) -> Result<(), Stop>
    requires kept { IsKept frames.old }
    ensures row { (code input : List ℕ) → frames.old.entered ≡ true → m.old.place + 1 < length code
        → RefinesNext (effect code (length frames.old.words) (regs_of m.old frames.old input) Block order.level order.address)
        (regs_of m.new frames.new input) result }
    ensures stays { ObeysInPlace m.old m.new frames.old frames.new result }
{
    if m.steps_left() == 0 {
        return if order.address < HEADER {
            Err(Stop::Odd)
        } else {
            Err(Stop::Steps)
        };
    }
    match frames.block(order.level, order.address) {
        Ok(()) => {
            m.enter();
            Ok(())
        }
        Err(Halt::Odd) => Err(Stop::Odd),
        Err(Halt::Alarm(alarm)) => {
            m.charge();
            Err(Stop::Alarm(alarm))
        }
    }
}

// LEAVE: leaves a block for the activation before it.
fn leave_block(m: &mut Machine, frames: &mut Frames) -> Result<(), Stop>
    requires kept { IsKept frames.old }
    ensures row { (code input : List ℕ) → (l a : ℕ) → frames.old.entered ≡ true → m.old.place + 1 < length code
        → RefinesNext (effect code (length frames.old.words) (regs_of m.old frames.old input) Leave l a)
        (regs_of m.new frames.new input) result }
    ensures stays { ObeysInPlace m.old m.new frames.old frames.new result }
{
    if m.depth() == 0 {
        return Err(Stop::Odd);
    }
    match frames.leave() {
        Ok(()) => {
            m.leave();
            Ok(())
        }
        Err(halt) => Err(Stop::from(halt)),
    }
}
