// The pass driven over short texts, whose symbols are written down by hand.

use crate::Pass8;
use gier_text::{Tables, Way};
use std::test::Fail;
use tool_symbols::writes;

// START with level 1 and an open room of 3, a need of 4 and STOP: the room is 7.
#[test]
fn room_with_need(rt: HostRuntime) -> Result<(), Fail> {
    let mut tables = Tables::open(rt.alloc(), 16)?;
    let mut pass = Pass8::open(&mut tables, 16);
    let read = "1 open_room=START.1.3 need=4 object_words=1";
    let wanted = "1 START=1.7";
    assert!(rt;
        writes(
            rt.alloc(),
            &mut pass,
            &mut tables,
            Way::Backward,
            read,
            wanted
        )
    );
    Ok(())
}

// JUMP to label 0, whose mark stands behind it and one other word: the address is 2. The mark isn't needed any more.
#[test]
fn forward_jump(rt: HostRuntime) -> Result<(), Fail> {
    let mut tables = Tables::open(rt.alloc(), 16)?;
    let mut pass = Pass8::open(&mut tables, 16);
    let read = "3 label_order=JUMP.0.0 4 word=77 label_place object_words=2";
    let wanted = "3 JUMP=2 4 word=77";
    assert!(rt;
        writes(
            rt.alloc(),
            &mut pass,
            &mut tables,
            Way::Backward,
            read,
            wanted
        )
    );
    Ok(())
}
