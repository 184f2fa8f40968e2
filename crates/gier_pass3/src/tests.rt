// The pass driven over short texts. The beginnings of the texts that are wanted were written by hand.

use crate::Pass3;
use gier_text::{Tables, Way};
use std::test::Fail;
use tool_symbols::writes;

// `_begin`, `L:`, `_goto L` and `_end`, each in its line.
#[test]
fn label_in_a_compound(rt: HostRuntime) -> Result<(), Fail> {
    let mut tables = Tables::open(rt.alloc(), 64)?;
    let mut pass = Pass3::open(&mut tables, 20);
    let read = "1 begin 2 identifier=8 colon 3 goto identifier=8 4 end 5 text_end";
    let wanted = "1 open_mark=program open_mark=compound begin 2 declaring=8 ..";
    assert!(rt;
        writes(
            rt.alloc(),
            &mut pass,
            &mut tables,
            Way::Forward,
            read,
            wanted
        )
    );
    assert_eq!(rt; tables.faults(), 0);
    Ok(())
}

// `_begin _own _integer n; _end`, in two lines: a block with one own quantity.
#[test]
fn own_variable(rt: HostRuntime) -> Result<(), Fail> {
    let mut tables = Tables::open(rt.alloc(), 64)?;
    let mut pass = Pass3::open(&mut tables, 30);
    let read = "1 begin own integer identifier=8 semicolon 2 end text_end";
    let wanted = "1 open_mark=program open_mark=block begin open_mark=type_declaration ..";
    assert!(rt;
        writes(
            rt.alloc(),
            &mut pass,
            &mut tables,
            Way::Forward,
            read,
            wanted
        )
    );
    assert_eq!(rt; tables.faults(), 0);
    Ok(())
}

// `_begin _if 1 _then _if`: the second `_if` is the one fault.
#[test]
fn conditional_behind_then(rt: HostRuntime) -> Result<(), Fail> {
    let mut tables = Tables::open(rt.alloc(), 64)?;
    let mut pass = Pass3::open(&mut tables, 20);
    let read = "1 begin 2 if number=1 then 3 if 4 end text_end";
    let wanted = "..";
    assert!(rt;
        writes(
            rt.alloc(),
            &mut pass,
            &mut tables,
            Way::Forward,
            read,
            wanted
        )
    );
    assert_eq!(rt; tables.faults(), 1);
    Ok(())
}
