// The pass driven over short texts.

use crate::Pass2;
use gier_text::{Tables, Way};
use std::test::Fail;
use tool_symbols::writes;

// `x1` is one identifier, the ninth.
#[test]
fn letter_and_digit(rt: HostRuntime) -> Result<(), Fail> {
    let mut tables = Tables::open(rt.alloc(), 16)?;
    let mut pass = Pass2::open(&mut tables, 2);
    let read = "1 letter=120 digit=1 2 text_end";
    let wanted = "1 identifier=8 2 text_end";
    assert!(rt;
        writes(
            rt.alloc(),
            &mut pass,
            &mut tables,
            Way::Forward,
            read,
            wanted
        )
    );
    Ok(())
}

// `)ab:(c` is a comma and an identifier; the one that vanished has taken a number.
#[test]
fn parameter_comma(rt: HostRuntime) -> Result<(), Fail> {
    let mut tables = Tables::open(rt.alloc(), 16)?;
    let mut pass = Pass2::open(&mut tables, 6);
    let read = "1 right_parenthesis letter=97 letter=98 colon left_parenthesis letter=99 text_end";
    let wanted = "1 comma identifier=9 text_end ..";
    assert!(rt;
        writes(
            rt.alloc(),
            &mut pass,
            &mut tables,
            Way::Forward,
            read,
            wanted
        )
    );
    Ok(())
}

// 549755813888 is the least number that is too large.
#[test]
fn number_too_large(rt: HostRuntime) -> Result<(), Fail> {
    let mut tables = Tables::open(rt.alloc(), 16)?;
    let mut pass = Pass2::open(&mut tables, 12);
    let read =
        "3 digit=5 digit=4 digit=9 digit=7 digit=5 digit=5 digit=8 digit=1 digit=3 digit=8 digit=8 digit=8
         text_end";
    let wanted = "..";
    assert!(rt;
        writes(
            rt.alloc(),
            &mut pass,
            &mut tables,
            Way::Forward,
            read,
            wanted
        )
    );
    assert_eq!(rt; tables.faults(), 1);
    Ok(())
}
