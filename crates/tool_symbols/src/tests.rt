// Texts and words by their numbers, which are those of the tables of tags, constructs, kinds and operations.
use crate::{reads, text_of};
use gier_symbol::{Symbol, Tag};
use gier_text::{Text, Way};
use std::test::Fail;

// A declaring place, a mark, a use with its place, a jump to a label: operation 27 is JUMP.
#[test]
fn words_of_each_kind(rt: HostRuntime) -> Result<(), Fail> {
    let spelled =
        "7 declaring=8 open_mark=block 9 used=integer_variable place=1.3 label_order=JUMP.0.4 JUMP=1.2";
    let Some(mut text) = text_of(rt.alloc(), spelled) else {
        panic!(rt; "no text");
    };
    assert!(rt; text.rewind(&mut (), Way::Forward).is_ok());
    assert_eq!(rt;
        text.read_next(&mut ()),
        Ok(Some(Symbol::new(Tag::Declaring, 8, 7)))
    );
    assert_eq!(rt;
        text.read_next(&mut ()),
        Ok(Some(Symbol::new(Tag::OpenMark, 2, 7)))
    );
    assert_eq!(rt;
        text.read_next(&mut ()),
        Ok(Some(Symbol::new(Tag::Used, 1, 9)))
    );
    assert_eq!(rt;
        text.read_next(&mut ()),
        Ok(Some(Symbol::new(Tag::Place, 16_777_219, 9)))
    );
    assert_eq!(rt;
        text.read_next(&mut ()),
        Ok(Some(Symbol::new(Tag::LabelOrder, 115_964_116_996, 9)))
    );
    Ok(())
}

#[test]
fn what_is_no_word(rt: HostRuntime) -> Result<(), Fail> {
    assert!(rt; text_of(rt.alloc(), "1 begin beginn").is_none());
    assert!(rt; text_of(rt.alloc(), "1 open_mark=label").is_none());
    assert!(rt; text_of(rt.alloc(), "1 label_order=JUMPS.0.4").is_none());
    Ok(())
}

// The first text has one symbol more, and another line.
#[test]
fn texts_that_differ(rt: HostRuntime) -> Result<(), Fail> {
    for wanted in ["1 begin", "2 begin end", "1 end .."] {
        let Some(mut text) = text_of(rt.alloc(), "1 begin end") else {
            return Ok(());
        };
        assert!(rt; text.rewind(&mut (), Way::Forward).is_ok());
        assert!(rt; !reads(&mut text, wanted));
    }
    Ok(())
}
