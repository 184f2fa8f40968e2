// The pass driven over short texts.

use crate::Pass4;
use gier_text::{Tables, Way};
use std::test::Fail;
use tool_symbols::writes;

// `_begin _own _integer x; _integer _array a[1:2];`, and on the next lines
// `_procedure p(i); _value i; _integer i;;` and `L: x := a[1] _end`.
const TEXT3: &str =
    "1 open_mark=program open_mark=block begin open_mark=type_declaration own integer declaring=8 own_number
     shut_mark=type_declaration semicolon integer array open_mark=array_segment declaring=9 left_bracket
     open_mark=bound number=1 shut_mark=bound colon open_mark=bound number=2 shut_mark=bound right_bracket
     shut_mark=array_segment semicolon 2 open_mark=procedure_declaration procedure declaring=10
     left_parenthesis formal=11 right_parenthesis semicolon value value_listed=11 semicolon integer
     specified=11 semicolon open_mark=procedure_body shut_mark=procedure_body shut_mark=procedure_declaration
     semicolon 3 declaring=12 label_colon identifier=8 becomes identifier=9 left_bracket open_mark=subscript
     number=1 shut_mark=subscript right_bracket end shut_mark=block shut_mark=program 4 text_end=1";

const TEXT4: &str =
    "1 open_mark=program open_mark=block entry=4294967296 description=integer_variable begin
     open_mark=type_declaration integer declaring=4294967296 shut_mark=type_declaration semicolon
     open_mark=block entry=8 own_entry=4294967296 entry=9 description=integer_array count=1 entry=10
     description=procedure description=integer_value entry=12 description=label begin semicolon integer array
     open_mark=array_segment declaring=9 left_bracket open_mark=bound number=1 shut_mark=bound colon
     open_mark=bound number=2 shut_mark=bound right_bracket shut_mark=array_segment semicolon 2
     open_mark=procedure_declaration entry=11 description=integer_value procedure declaring=10 left_parenthesis
     formal=11 right_parenthesis semicolon value value_listed=11 semicolon integer specified=11 semicolon
     open_mark=procedure_body shut_mark=procedure_body shut_mark=procedure_declaration semicolon 3 declaring=12
     label_colon identifier=8 becomes identifier=9 left_bracket open_mark=subscript number=1
     shut_mark=subscript right_bracket end shut_mark=block 4 end shut_mark=block shut_mark=program text_end";

// An own variable moves to a block around the program; an array, a procedure with a value formal, and a label are declared.
#[test]
fn own_variable_and_entries(rt: HostRuntime) -> Result<(), Fail> {
    let mut tables = Tables::open(rt.alloc(), 128)?;
    let mut pass = Pass4::open(&mut tables, 106);
    assert!(rt;
        writes(
            rt.alloc(),
            &mut pass,
            &mut tables,
            Way::Backward,
            TEXT3,
            TEXT4
        )
    );
    assert_eq!(rt; tables.faults(), 0);
    Ok(())
}
