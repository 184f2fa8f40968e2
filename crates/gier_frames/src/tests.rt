// That frames can be opened and used, with the words worked out by hand from the order table.

use crate::{Activation, Frames, Halt, Shape};
use gier_word::Alarm;
use std::test::Fail;

// The word of the number -1.
const MINUS_ONE: u64 = (1 << 40) - 1;

#[test]
fn the_first_activation_has_room_for_all_words(rt: HostRuntime) -> Result<(), Fail> {
    let mut frames = Frames::open(rt.alloc(), 64)?;
    assert_eq!(rt; frames.start(1, 65), Err(Halt::Alarm(Alarm::Stack)));
    assert_eq!(rt; frames.count(), 0);
    assert_eq!(rt; frames.start(1, 64), Ok(()));
    assert_eq!(rt; frames.start(1, 64), Err(Halt::Odd));
    assert_eq!(rt; frames.block(2, 3), Err(Halt::Alarm(Alarm::Stack)));
    assert_eq!(rt; frames.get(2), Ok(64));
    assert_eq!(rt; frames.get(64), Err(Halt::Odd));
    assert_eq!(rt; frames.greatest(), 64);
    frames.clear();
    assert_eq!(rt; frames.live(), 0);
    assert_eq!(rt; frames.get(2), Err(Halt::Odd));
    Ok(())
}

// The array [1:3, -1:2], whose element [2, 0] is the sixth.
#[test]
fn an_array_of_two_dimensions(rt: HostRuntime) -> Result<(), Fail> {
    let mut frames = Frames::open(rt.alloc(), 100)?;
    assert_eq!(rt; frames.start(1, 20), Ok(()));
    assert_eq!(rt; frames.set(10, 1), Ok(()));
    assert_eq!(rt; frames.set(11, 3), Ok(()));
    assert_eq!(rt; frames.set(12, MINUS_ONE), Ok(()));
    assert_eq!(rt; frames.set(13, 2), Ok(()));
    assert_eq!(rt; frames.set(14, 4), Ok(()));
    assert_eq!(rt; frames.set(15, 2), Ok(()));
    assert_eq!(rt; frames.array(2, 4, 10), Ok(()));
    assert_eq!(rt; frames.live(), 32);
    for (place, word) in [
        (2, 32),
        (4, 20),
        (5, 2),
        (6, 1),
        (7, 3),
        (8, MINUS_ONE),
        (9, 2),
    ] {
        assert_eq!(rt; frames.get(place), Ok(word));
    }
    assert_eq!(rt; frames.index(2, 14), Ok(25));
    assert_eq!(rt; frames.set(16, 3), Ok(()));
    assert_eq!(rt; frames.index(2, 14), Err(Halt::Alarm(Alarm::Subscript)));
    assert_eq!(rt; frames.index(1, 14), Err(Halt::Alarm(Alarm::Subscript)));
    assert_eq!(rt; frames.set(11, 0), Ok(()));
    assert_eq!(rt; frames.array(2, 4, 10), Err(Halt::Alarm(Alarm::Bounds)));
    Ok(())
}

// A function with one actual, a block in it, and a go to out of both.
#[test]
fn a_call_and_a_go_to(rt: HostRuntime) -> Result<(), Fail> {
    let mut frames = Frames::open(rt.alloc(), 64)?;
    assert_eq!(rt; frames.start(1, 10), Ok(()));
    assert_eq!(rt; frames.set(5, 7), Ok(()));
    assert_eq!(rt; frames.set(6, 8), Ok(()));
    assert_eq!(rt; frames.call(2, 12, 0, 40, 0, 5, 3), Ok(()));
    for (place, word) in [
        (10, 0),
        (11, 2 << 24),
        (12, 22),
        (13, 40),
        (14, 0),
        (16, 7),
        (17, 8),
    ] {
        assert_eq!(rt; frames.get(place), Ok(word));
    }
    assert_eq!(rt; frames.cell(1, 5), Ok(5));
    assert_eq!(rt; frames.cell(3, 0), Err(Halt::Odd));
    assert_eq!(rt; frames.back(), Ok(40));
    assert_eq!(rt; frames.live(), 10);
    assert_eq!(rt; frames.call(0, 5, 0, 41, 1, 0, 0), Ok(()));
    assert_eq!(rt; frames.block(3, 4), Ok(()));
    assert_eq!(rt; frames.cell(0, 1), Ok(11));
    assert_eq!(rt; frames.count(), 3);
    let live = [
        (Shape::Block, 4, 0),
        (Shape::Evaluation, 5, 41),
        (Shape::Program, 10, 0),
    ];
    for (at, (shape, words, back)) in live.into_iter().enumerate() {
        let activation = Activation { shape, words, back };
        assert_eq!(rt; frames.activation(at as u32), Some(activation));
    }
    assert_eq!(rt; frames.activation(3), None);
    assert_eq!(rt; frames.go(0), Ok(()));
    assert_eq!(rt; frames.live(), 10);
    assert_eq!(rt; frames.greatest(), 22);
    assert_eq!(rt; frames.here(5), Ok(5));
    Ok(())
}
