// The words of both spellings, fed byte by byte.

use crate::{Fed, Spelling, WordReader};
use std::test::Fail;

// The first answer but `More` to these bytes and the end.
fn answer(spelling: Spelling, bytes: &[u8]) -> Fed {
    let mut reader = WordReader::new(spelling);
    for byte in bytes {
        let fed = reader.feed(Some(*byte));
        if fed != Fed::More {
            return fed;
        }
    }
    reader.feed(None)
}

#[test]
fn words_of_both_spellings(rt: HostRuntime) -> Result<(), Fail> {
    assert_eq!(rt;
        answer(Spelling::Plain, b"begin outcr"),
        Fed::WordBefore(36)
    );
    assert_eq!(rt; answer(Spelling::Plain, b"procedure"), Fed::WordBefore(51));
    assert_eq!(rt; answer(Spelling::Plain, b"procedures;"), Fed::FaultBefore);
    assert_eq!(rt; answer(Spelling::Plain, b"comment;"), Fed::WordBefore(56));
    assert_eq!(rt; answer(Spelling::Plain, b"END"), Fed::FaultBefore);
    assert_eq!(rt; answer(Spelling::Quoted, b"BEGIN'"), Fed::Word(36));
    assert_eq!(rt;
        answer(Spelling::Quoted, b"PROCEDURESOFMANYLETTERS'"),
        Fed::Fault
    );
    assert_eq!(rt; answer(Spelling::Quoted, b"FOO'"), Fed::Fault);
    assert_eq!(rt; answer(Spelling::Quoted, b"'"), Fed::Fault);
    assert_eq!(rt; answer(Spelling::Quoted, b"END "), Fed::FaultBefore);
    assert_eq!(rt; answer(Spelling::Quoted, b"END"), Fed::FaultBefore);
    Ok(())
}
