// The orders that choose the place of the next one and read nothing of the object.
ghost use Rattle.std.specs.Prelude.{◌≡◌, ◌+◌, ◌<◌, ◌≤◌, ◌^◌, ℕ, true, List, IfOk, Err, length};
ghost use Rattle.gier_frames.specs.State.{State};
ghost use Rattle.gier_order.specs.declared.operation.Operation.TheVariants.{False, Turn, Go};
ghost use Rattle.gier_order.specs.Flat.Rows.{effect, jumps};
ghost use Rattle.gier_exec.specs.Obedience.{Obeys};
ghost use Rattle.gier_exec.specs.Rows.{regs_of};
ghost use Rattle.gier_exec.specs.Following.{RefinesJump, go_row};
ghost use Rattle.gier_exec.specs.Registers.{PreservesPlace, Progresses};
ghost use Rattle.gier_exec.specs.declared.stop.Stop.TheVariants.{Odd};

use crate::Machine;
use crate::frame::{can_go, local};
use crate::machine::address_of;
use crate::stop::Stop;
use gier_frames::Frames;

/// JUMP: goes on at an address ahead.
#[inline(always)]
pub(crate) fn jump(m: &Machine, address: u32, words: u32) -> Result<u32, Stop>
    ensures row { (code input : List ℕ) (s : State) → length code ≡ words
        → RefinesJump (jumps code (length s.words) (regs_of m.now s input) address) (regs_of m.now s input) result }
    ensures goes { IfOk result (λ next. Progresses words m.now next m.now) }
{
    if address > m.place() {
        m.ahead(u64::from(address), words)
    } else {
        Err(Stop::Odd)
    }
}

/// FALSE: where R is 0, goes on at an address ahead.
#[inline(always)]
pub(crate) fn jump_if_false(m: &Machine, address: u32, words: u32) -> Result<u32, Stop>
    ensures row { (code input : List ℕ) (s : State) (l : ℕ) → length code ≡ words
        → RefinesJump (effect code (length s.words) (regs_of m.now s input) False l address) (regs_of m.now s input) result }
    ensures goes { IfOk result (λ next. Progresses words m.now next m.now) }
{
    if m.r() == 0 {
        jump(m, address, words)
    } else {
        m.ahead(m.behind(), words)
    }
}

/// TURN: charges a step and goes on at w.
#[inline(always)]
#[tactic(auto, using(crate::proofs::MeasureFalls::paid_falls))]
pub(crate) fn turn(m: &mut Machine, frames: &Frames, address: u32, words: u32) -> Result<u32, Stop>
    ensures row { (code input : List ℕ) (l : ℕ) → frames.now.entered ≡ true → length code ≡ words
        → RefinesJump (effect code (length frames.now.words) (regs_of m.old frames.now input) Turn l address)
        (regs_of m.new frames.now input) result }
    ensures keeps { PreservesPlace m.old m.new }
    ensures goes { IfOk result (λ next. Progresses words m.old next m.new) }
    ensures odd { result ≡ Err Odd → m.new ≡ m.old }
{
    let word = match local(frames, address) {
        Ok(word) => word,
        Err(stop) => return Err(stop),
    };
    let next = match address_of(word, words) {
        Ok(next) => next,
        Err(stop) => return Err(stop),
    };
    if m.steps_left() == 0 {
        return Err(Stop::Steps);
    }
    m.charge();
    Ok(next)
}

/// GO: where R is not 0, charges a step and goes to the label that R and Q are.
pub(crate) fn go(m: &mut Machine, frames: &mut Frames, words: u32) -> Result<u32, Stop>
    ensures row { (code input : List ℕ) (l a : ℕ) → frames.old.entered ≡ true → length code ≡ words
        → RefinesJump (effect code (length frames.old.words) (regs_of m.old frames.old input) Go l a)
        (regs_of m.new frames.new input)
        result }
    ensures obeys { Obeys Odd words m.old m.new frames.old frames.new result }
{
    if m.r() == 0 {
        return m.ahead(m.behind(), words);
    }
    match address_of(m.r(), words) {
        Ok(next) => go_to(m, frames, next, words),
        Err(stop) => Err(stop),
    }
}

#[tactic(auto, using(crate::proofs::MeasureFalls::paid_falls))]
fn go_to(m: &mut Machine, frames: &mut Frames, next: u32, words: u32) -> Result<u32, Stop>
    requires { next < words }
    ensures row { (code input : List ℕ) → frames.old.entered ≡ true → length code ≡ words → next ≡ m.old.r
        → RefinesJump (go_row code (length frames.old.words) (regs_of m.old frames.old input))
        (regs_of m.new frames.new input) result }
    ensures obeys { Obeys Odd words m.old m.new frames.old frames.new result }
{
    if m.steps_left() == 0 {
        return if can_go(frames, m.q()) {
            Err(Stop::Steps)
        } else {
            Err(Stop::Odd)
        };
    }
    match frames.go(m.q()) {
        Ok(()) => {
            m.charge();
            Ok(next)
        }
        Err(halt) => Err(Stop::from(halt)),
    }
}
