// The pass driven over short texts.

use crate::Pass5;
use gier_text::{Fault, FaultKind, Tables, Way};
use std::test::Fail;
use tool_symbols::writes;

// The integer variable 8 of a block of level 1 stands at address 3.
#[test]
fn variable(rt: HostRuntime) -> Result<(), Fail> {
    let mut tables = Tables::open(rt.alloc(), 16)?;
    let mut pass = Pass5::open(&mut tables, 16);
    let read = "1 open_mark=block entry=8 description=integer_variable 2 identifier=8";
    let wanted =
        "1 open_mark=block entry=8 description=integer_variable 2 used=integer_variable place=1.3";
    assert!(rt;
        writes(
            rt.alloc(),
            &mut pass,
            &mut tables,
            Way::Forward,
            read,
            wanted
        )
    );
    Ok(())
}

// `outcr` is the third standard procedure; 9 isn't declared.
#[test]
fn standard_and_unknown(rt: HostRuntime) -> Result<(), Fail> {
    let mut tables = Tables::open(rt.alloc(), 16)?;
    let mut pass = Pass5::open(&mut tables, 16);
    let read = "1 identifier=2 2 identifier=9";
    let wanted = "1 used=out_cr place 2 used=undeclared ..";
    assert!(rt;
        writes(
            rt.alloc(),
            &mut pass,
            &mut tables,
            Way::Forward,
            read,
            wanted
        )
    );
    assert_eq!(rt; tables.faults(), 1);
    Ok(())
}

// The second declaring place of 8 in a block.
#[test]
fn declared_twice(rt: HostRuntime) -> Result<(), Fail> {
    let mut tables = Tables::open(rt.alloc(), 16)?;
    let mut pass = Pass5::open(&mut tables, 16);
    let read =
        "1 open_mark=block entry=8 description=integer_variable entry=8 description=boolean_variable 3
         declaring=8 4 declaring=8";
    let wanted = "..";
    assert!(rt;
        writes(
            rt.alloc(),
            &mut pass,
            &mut tables,
            Way::Forward,
            read,
            wanted
        )
    );
    assert_eq!(rt; tables.faults(), 1);
    assert_eq!(rt;
        tables.fault(0),
        Fault {
            position: 7,
            line: 4,
            kind: FaultKind::DeclaredTwice
        }
    );
    Ok(())
}
