// The beginning of an evaluation, the end of one of a variable, and the choice of a switch element.
ghost use Rattle.std.specs.Prelude.{◌≡◌, ◌+◌, ◌<◌, ◌^◌, slice_index, IfOk, OnOk, OnErr};
ghost use Rattle.gier_order.specs.Codes.{IsOrder};
ghost use Rattle.gier_frames.specs.Answers.{Answers};
ghost use Rattle.gier_frames.specs.Effects.{went_back};
ghost use Rattle.gier_names.specs.Evaluations.{is_thunk, is_unassignable, begin_refusal, begun, give_refusal, given, picked};
ghost use Rattle.gier_names.specs.Evaluations.{value_refusal};

use crate::Wanted;
use gier_frames::{Frames, Halt};
use gier_order::{Operation, Order};
use gier_word::{Alarm, Int40};

// The greatest kind of an evaluation, and the kind of an expression.
const LAST_KIND: u8 = 3;

const EXPRESSION: u8 = 0;

// Evaluations have this level.
const LEVEL: u8 = 0;

// Where an activation has what is wanted of it.
const WANTED: u32 = 4;

/// Enters the evaluation of a THUNK, enclosed by the activation at `outer`; `back` is the order to return to.
///
/// Odd where `thunk` is no THUNK of kind 0 to 3, its room is below 5, there is no activation, or `outer` is no place of the
/// stack; the alarm `stack` where not so many words are free. The alarm `assignment` where an address is wanted of an
/// expression, and then the evaluation was entered.
pub fn begin(
    frames: &mut Frames,
    thunk: Order,
    outer: u64,
    wanted: Wanted,
    back: u32,
) -> Result<(), Halt>
    requires { IsOrder thunk }
    ensures refused { Answers (begin_refusal frames.old thunk outer wanted) result }
    ensures effect { frames.new ≡ begun frames.old thunk outer wanted back }
{
    if !is_thunk(thunk) {
        return Err(Halt::Odd);
    }
    frames.call(LEVEL, thunk.address, outer, back, wanted.number(), 0, 0)?;
    if is_unassignable(thunk, wanted) {
        return Err(Halt::Alarm(Alarm::Assignment));
    }
    Ok(())
}

/// Ends the evaluation of a variable, whose place is `r`. Gives the order to return to, and the variable's value where a
/// value is wanted, or its place where an address is wanted.
///
/// Odd where neither is wanted, a value is wanted and `r` is no place of the stack, or `Frames::back` refuses.
pub fn give(frames: &mut Frames, r: u64) -> Result<(u32, u64), Halt>
    ensures refused { Answers (give_refusal frames.old r) result }
    ensures back { IfOk result (λ both. both.0 ≡ slice_index frames.old.words (frames.old.base + 3)) }
    ensures value { IfOk result (λ both. both.1 ≡ given frames.old r) }
    ensures small { r < 2 ^ 40 → IfOk result (λ both. both.1 < 2 ^ 40) }
    ensures effect { OnOk result (frames.new ≡ went_back frames.old) }
    ensures err { OnErr result (frames.new ≡ frames.old) }
{
    let value = value_of(frames, r)?;
    let back = frames.back()?;
    Ok((back, value))
}

/// The element of a switch with `count` elements, counted from 0, that the subscript `r` names: `r - 1`, and None exactly
/// where `r` isn't 1 to `count`.
pub fn pick(r: Int40, count: u64) -> Option<u64>
    ensures { result ≡ picked r count }
{
    let r = r.get();
    if r < 1 {
        return None;
    }
    let r = r as u64;
    if r > count {
        return None;
    }
    Some(r - 1)
}

fn is_thunk(order: Order) -> bool
    ensures { result ≡ is_thunk order }
{
    order.op == Operation::Thunk.number() && order.level <= LAST_KIND
}

// Whether an expression's place is asked for, which has none.
fn is_unassignable(thunk: Order, wanted: Wanted) -> bool
    ensures { result ≡ is_unassignable thunk wanted }
{
    thunk.level == EXPRESSION && wanted == Wanted::Address
}

// What the variable at a place gives to the current evaluation.
fn value_of(frames: &Frames, r: u64) -> Result<u64, Halt>
    ensures refused { Answers (value_refusal frames.now r) result }
    ensures value { IfOk result (λ value. value ≡ given frames.now r) }
    ensures small { r < 2 ^ 40 → IfOk result (λ value. value < 2 ^ 40) }
{
    let wanted = frames.get(frames.here(WANTED)?)?;
    match Wanted::of(wanted) {
        Some(Wanted::Value) => frames.get(r),
        Some(Wanted::Address) => Ok(r),
        Some(Wanted::Label) | None => Err(Halt::Odd),
    }
}
