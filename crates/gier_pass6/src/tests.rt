// The pass driven over short texts.

use crate::Pass6;
use gier_text::{FaultKind, Tables, Way};
use std::test::Fail;
use tool_symbols::writes;

// `-1*2` is 1, 2, the product, and then the sign.
#[test]
fn product_before_sign(rt: HostRuntime) -> Result<(), Fail> {
    let mut tables = Tables::open(rt.alloc(), 16)?;
    let mut pass = Pass6::open(&mut tables, 16);
    let read = "1 leading_minus 2 number=1 3 times 4 number=2 5 text_end";
    let wanted = "2 number=1 4 number=2 3 operation=times 1 operation=leading_minus ..";
    assert!(rt;
        writes(
            rt.alloc(),
            &mut pass,
            &mut tables,
            Way::Forward,
            read,
            wanted
        )
    );
    Ok(())
}

// `_true+1` has an operand of a wrong type; the fault stands at the operator.
#[test]
fn wrong_operand(rt: HostRuntime) -> Result<(), Fail> {
    let mut tables = Tables::open(rt.alloc(), 16)?;
    let mut pass = Pass6::open(&mut tables, 16);
    let read = "1 true 2 plus 3 number=1 4 text_end";
    let wanted = "..";
    assert!(rt;
        writes(
            rt.alloc(),
            &mut pass,
            &mut tables,
            Way::Forward,
            read,
            wanted
        )
    );
    assert_eq!(rt; tables.faults(), 1);
    assert_eq!(rt; tables.fault(0).kind, FaultKind::Operand);
    assert_eq!(rt; tables.fault(0).position, 1);
    assert_eq!(rt; tables.fault(0).line, 2);
    Ok(())
}

// `outcr(1)` in an expression is a fault at the identifier and one at the `(`.
#[test]
fn two_faults_of_a_call(rt: HostRuntime) -> Result<(), Fail> {
    let mut tables = Tables::open(rt.alloc(), 16)?;
    let mut pass = Pass6::open(&mut tables, 16);
    let read =
        "1 used=out_cr place 2 left_parenthesis 3 open_mark=actual number=1 shut_mark=actual 4
         right_parenthesis";
    let wanted = "..";
    assert!(rt;
        writes(
            rt.alloc(),
            &mut pass,
            &mut tables,
            Way::Forward,
            read,
            wanted
        )
    );
    assert_eq!(rt; tables.faults(), 2);
    assert_eq!(rt; tables.fault(0).kind, FaultKind::Kind);
    assert_eq!(rt; tables.fault(1).kind, FaultKind::ParameterCount);
    assert_eq!(rt; tables.fault(1).position, 2);
    Ok(())
}
