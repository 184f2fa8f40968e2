// The pass driven over short programs. Both texts of each are those of a model of the compiler.

use crate::Pass7;
use gier_text::{Tables, Way};
use std::test::Fail;

// Whether the pass writes the second text for the first, of a program of so many bytes.
fn writes(rt: &HostRuntime, bytes: u32, read: &str, wanted: &str) -> Result<bool, Fail> {
    let mut tables = Tables::open(rt.alloc(), 100)?;
    let mut pass = Pass7::open(&mut tables, bytes.min(100));
    Ok(tool_symbols::writes(
        rt.alloc(),
        &mut pass,
        &mut tables,
        Way::Forward,
        read,
        wanted,
    ))
}

// `_begin _integer i; _for i:=1 _step i _until 9 _do _end`
const STEP: &str =
    "1 open_mark=program open_mark=block entry=8 description=integer_variable begin open_mark=type_declaration
     integer declaring=8 shut_mark=type_declaration semicolon 2 open_mark=for_statement for
     used=integer_variable place=2.3 becomes open_mark=for_element number=1 step used=integer_variable
     place=2.3 until number=9 shut_mark=for_element do open_mark=controlled_statement
     shut_mark=controlled_statement shut_mark=for_statement end shut_mark=block shut_mark=program text_end";

const STEP_CODE: &str =
    "1 open_room=START.1.3 open_room=BLOCK.2.4 2 ADDR=2.3 KEEP=5 SHORT=1 PUT=5 label_order=JUMP.0.8388608
     label_place=8388609 ADDR=2.3 KEEP=5 TAKE=2.3 KEEP=6 TAKE=2.3 ADD=6 PUT=5 label_place=8388608 TAKE=2.3
     KEEP=5 SHORT=9 SUB=5 KEEP=5 TAKE=2.3 TEST=5 label_order=FALSE.0.8388610 label_order=SHORT.0.8388609 KEEP=4
     label_order=JUMP.0.8388611 label_place=8388610 label_order=JUMP.0.8388612 label_place=8388611 TURN=4
     label_place=8388612 1 LEAVE need=3 STOP need object_words=29";

// The expression behind `_step` is coded twice: for the sum before a turn, and for the test.
#[test]
fn step_expression_evaluated_once(rt: HostRuntime) -> Result<(), Fail> {
    assert!(rt; writes(&rt, 54, STEP, STEP_CODE)?);
    Ok(())
}

// `_begin _integer i; _for i:=1 _while _true _do _end`
const WHILE: &str =
    "1 open_mark=program open_mark=block entry=8 description=integer_variable begin open_mark=type_declaration
     integer declaring=8 shut_mark=type_declaration semicolon 2 open_mark=for_statement for
     used=integer_variable place=2.3 becomes open_mark=for_element number=1 while 3 true shut_mark=for_element
     do open_mark=controlled_statement shut_mark=controlled_statement shut_mark=for_statement end
     shut_mark=block shut_mark=program text_end";

const WHILE_CODE: &str =
    "1 open_room=START.1.3 open_room=BLOCK.2.4 label_place=8388608 2 ADDR=2.3 KEEP=5 SHORT=1 PUT=5 3 SHORT=1 2
     label_order=FALSE.0.8388609 label_order=SHORT.0.8388608 KEEP=4 label_order=JUMP.0.8388610
     label_place=8388609 label_order=JUMP.0.8388611 label_place=8388610 TURN=4 label_place=8388611 1 LEAVE
     need=2 STOP need object_words=15";

// The label of a while element stands before its first expression.
#[test]
fn while_element(rt: HostRuntime) -> Result<(), Fail> {
    assert!(rt; writes(&rt, 50, WHILE, WHILE_CODE)?);
    Ok(())
}

// `_begin _switch s:= L, s[1]; L: _end`
const SWITCH: &str =
    "1 open_mark=program open_mark=block entry=8 description=switch entry=9 description=label begin
     open_mark=switch_declaration switch declaring=8 becomes 2 open_mark=switch_element used=label place=2.1
     shut_mark=switch_element comma open_mark=switch_element used=switch place=2.0 open_mark=subscript number=1
     shut_mark=subscript subscripted=1 shut_mark=switch_element shut_mark=switch_declaration semicolon 3
     declaring=9 label_colon end shut_mark=block shut_mark=program text_end";

const SWITCH_CODE: &str =
    "1 open_room=START.1.3 open_room=BLOCK.2.3 label_order=JUMP.0.8388608 label_place word=2 label_word=8388609
     label_word=8388610 label_place=8388609 2 open_room=THUNK.2.5 label_order=LAB.2.1 BACK need
     label_place=8388610 open_room=THUNK.2.5 SHORT=1 label_order=SWITCH.2.0 BACK need label_place=8388608
     label_place=1 1 LEAVE need STOP need object_words=15";

// The number of elements and their labels stand before the elements.
#[test]
fn switch_before_its_elements(rt: HostRuntime) -> Result<(), Fail> {
    assert!(rt; writes(&rt, 35, SWITCH, SWITCH_CODE)?);
    Ok(())
}

// `_begin _procedure p(f); _procedure f; f(1, p); p(p) _end`
const FORMAL_CALL: &str =
    "1 open_mark=program open_mark=block entry=8 description=procedure description=procedure_formal begin
     open_mark=procedure_declaration entry=9 description=procedure_formal procedure declaring=8
     left_parenthesis formal=9 right_parenthesis semicolon procedure specified=9 semicolon 2
     open_mark=procedure_body used=procedure_formal place=3.5 open_mark=actual number=1 shut_mark=actual
     open_mark=actual used=procedure place=2.0 count=1 shut_mark=actual called=2 shut_mark=procedure_body
     shut_mark=procedure_declaration semicolon used=procedure place=2.0 count=1 open_mark=actual used=procedure
     place=2.0 count=1 shut_mark=actual called=1 end shut_mark=block shut_mark=program text_end";

const FORMAL_CALL_CODE: &str =
    "1 open_room=START.1.3 open_room=BLOCK.2.3 label_order=JUMP.0.8388608 label_place open_room=PROC.3.7 word=2
     2 AGREE=3.5 word=2 word=249108103168 label_order=JUMP.0.8388609 label_place=8388610 open_room=THUNK.0.5
     SHORT=1 BACK need label_place=8388609 label_order=SHORT.0.8388610 KEEP=7 BASE KEEP=8
     label_order=JUMP.0.8388611 label_place=8388612 label_order=KINDS.1.0 word=687194767360 label_place=8388611
     label_order=SHORT.0.8388612 KEEP=9 BASE=2.0 KEEP=10 SHORT=1 BYVAL=3.5 label_order=FALSE.0.8388613
     VALUE=3.7 KEEP=7 label_place=8388613 SHORT=7 CALLF=3.5 1 RETURN need=4 label_place=8388608 2
     label_order=JUMP.0.8388614 label_place=8388615 label_order=KINDS.1.0 word=687194767360 label_place=8388614
     label_order=SHORT.0.8388615 KEEP=3 BASE=2.0 KEEP=4 SHORT=3 label_order=CALL.2.0 1 LEAVE need=2 STOP need
     object_words=42";

// Number and kinds of the actuals stand before them, and an integer actual is evaluated where its formal is by value.
#[test]
fn formal_call(rt: HostRuntime) -> Result<(), Fail> {
    assert!(rt; writes(&rt, 56, FORMAL_CALL, FORMAL_CALL_CODE)?);
    Ok(())
}

// `_begin _integer _array a[1:2]; _procedure p(x); _integer x; x:=a[1]+2; p(a[2]); p(a[1]+1) _end`
const ELEMENT: &str =
    "1 open_mark=program open_mark=block entry=8 description=integer_array count=1 entry=9
     description=procedure description=integer_formal begin integer array open_mark=array_segment declaring=8
     left_bracket open_mark=bound number=1 shut_mark=bound colon open_mark=bound number=2 shut_mark=bound
     right_bracket shut_mark=array_segment semicolon 2 open_mark=procedure_declaration entry=10
     description=integer_formal procedure declaring=9 left_parenthesis formal=10 right_parenthesis semicolon
     integer specified=10 semicolon open_mark=procedure_body used=integer_formal place=3.5 becomes
     used=integer_array place=2.3 count=1 open_mark=subscript number=1 shut_mark=subscript subscripted=1
     number=2 operation=plus shut_mark=procedure_body shut_mark=procedure_declaration semicolon 3
     used=procedure place=2.0 count=1 open_mark=actual used=integer_array place=2.3 count=1 open_mark=subscript
     number=2 shut_mark=subscript subscripted=1 shut_mark=actual called=1 semicolon used=procedure place=2.0
     count=1 open_mark=actual used=integer_array place=2.3 count=1 open_mark=subscript number=1
     shut_mark=subscript subscripted=1 number=1 operation=plus shut_mark=actual called=1 end shut_mark=block
     shut_mark=program text_end";

const ELEMENT_CODE: &str =
    "1 open_room=START.1.3 open_room=BLOCK.2.7 SHORT=1 KEEP=7 SHORT=2 KEEP=8 SHORT=7 ARRAY=1.3 2
     label_order=JUMP.0.8388608 label_place open_room=PROC.3.7 word=2 PLACE=3.5 KEEP=7 ADDR=2.3 KEEP=8 SHORT=1
     KEEP=9 INDEX=1.8 FETCH KEEP=8 SHORT=2 ADD=8 PUT=7 RETURN need=3 label_place=8388608 3
     label_order=JUMP.0.8388609 label_place=8388610 open_room=THUNK.1.5 ADDR=2.3 KEEP=5 SHORT=2 KEEP=6
     INDEX=1.5 GIVE need=2 label_place=8388609 label_order=SHORT.0.8388610 KEEP=7 BASE KEEP=8 SHORT=7
     label_order=CALL.2.0 label_order=JUMP.0.8388611 label_place=8388612 open_room=THUNK.0.5 ADDR=2.3 KEEP=5
     SHORT=1 KEEP=6 INDEX=1.5 FETCH KEEP=5 SHORT=1 ADD=5 BACK need=2 label_place=8388611
     label_order=SHORT.0.8388612 KEEP=7 BASE KEEP=8 SHORT=7 label_order=CALL.2.0 1 LEAVE need=2 STOP need
     object_words=58";

// An array element alone as an actual by name is a variable, and one in a sum is an expression.
#[test]
fn element_as_actual(rt: HostRuntime) -> Result<(), Fail> {
    assert!(rt; writes(&rt, 94, ELEMENT, ELEMENT_CODE)?);
    Ok(())
}
