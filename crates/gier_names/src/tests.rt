// That evaluations can be begun and ended, with the words worked out by hand from the order table.
use crate::{Wanted, begin, give, pick};
use gier_frames::{Frames, Halt};
use gier_order::{Operation, Order};
use gier_word::{Alarm, Int40};
use std::test::Fail;

// A variable's evaluation, with 6 words, is begun in the first activation, which has 10.
#[test]
fn an_evaluation_of_a_variable(rt: HostRuntime) -> Result<(), Fail> {
    let mut frames = Frames::open(rt.alloc(), 16)?;
    assert_eq!(rt; frames.start(1, 10), Ok(()));
    assert_eq!(rt; frames.set(7, 99), Ok(()));
    let thunk = Order::of(Operation::Thunk, 1, 6);
    assert_eq!(rt; begin(&mut frames, thunk, 0, Wanted::Value, 41), Ok(()));
    assert_eq!(rt; frames.get(13), Ok(41));
    assert_eq!(rt; frames.get(14), Ok(1));
    assert_eq!(rt; give(&mut frames, 16), Err(Halt::Odd));
    assert_eq!(rt; give(&mut frames, 7), Ok((41, 99)));
    assert_eq!(rt; frames.live(), 10);
    assert_eq!(rt; begin(&mut frames, thunk, 0, Wanted::Address, 42), Ok(()));
    assert_eq!(rt; give(&mut frames, 16), Ok((42, 16)));
    assert_eq!(rt; begin(&mut frames, thunk, 0, Wanted::Label, 43), Ok(()));
    assert_eq!(rt; give(&mut frames, 7), Err(Halt::Odd));
    Ok(())
}

#[test]
fn an_expression_has_no_place(rt: HostRuntime) -> Result<(), Fail> {
    let mut frames = Frames::open(rt.alloc(), 16)?;
    assert_eq!(rt; frames.start(1, 10), Ok(()));
    let wide = Order::of(Operation::Thunk, 0, 7);
    assert_eq!(rt;
        begin(&mut frames, wide, 0, Wanted::Address, 1),
        Err(Halt::Alarm(Alarm::Stack))
    );
    let odd = Order::of(Operation::Thunk, 4, 6);
    assert_eq!(rt;
        begin(&mut frames, odd, 0, Wanted::Value, 1),
        Err(Halt::Odd)
    );
    assert_eq!(rt; frames.live(), 10);
    let thunk = Order::of(Operation::Thunk, 0, 6);
    assert_eq!(rt;
        begin(&mut frames, thunk, 0, Wanted::Address, 1),
        Err(Halt::Alarm(Alarm::Assignment))
    );
    assert_eq!(rt; frames.live(), 16);
    Ok(())
}

#[test]
fn elements_are_counted_from_one(rt: HostRuntime) -> Result<(), Fail> {
    let three = Int40::of(3).expect(&rt, "small");
    assert_eq!(rt; pick(three, 3), Some(2));
    assert_eq!(rt; pick(three, 2), None);
    assert_eq!(rt; pick(three.sub(three).expect(&rt, "small"), 2), None);
    Ok(())
}
