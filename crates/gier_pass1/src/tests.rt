// A program in the quoted spelling with a fault of each kind.

use crate::Pass1;
use gier_io::MemSource;
use gier_text::{Fault, FaultKind, ListText, Tables};
use std::test::Fail;

#[test]
fn faults_in_the_quoted_spelling(rt: HostRuntime) -> Result<(), Fail> {
    let mut tape = MemSource::of(b"!'BEGIN''FOO'\n_ {a#".to_vec(rt.alloc())?);
    let mut text = ListText::open(rt.alloc());
    let mut tables = Tables::open(rt.alloc(), 524_288)?;
    let bytes = Pass1::read(&mut tape, &mut (), &mut text, &mut tables)?;
    assert_eq!(rt; bytes, 18);
    assert_eq!(rt; tables.faults(), 3);
    assert_eq!(rt;
        tables.fault(0),
        Fault {
            position: 8,
            line: 1,
            kind: FaultKind::Word
        }
    );
    assert_eq!(rt;
        tables.fault(1),
        Fault {
            position: 14,
            line: 2,
            kind: FaultKind::Character
        }
    );
    assert_eq!(rt;
        tables.fault(2),
        Fault {
            position: 16,
            line: 2,
            kind: FaultKind::Unclosed
        }
    );
    Ok(())
}
