// Symbols of texts: their tags, their code in two words, and the alphabets of the texts.
#![tactic(auto)]

mod alphabet;
mod laws;
mod symbol;
mod tag;
mod text;
mod word;

pub use alphabet::{Alphabet, Coded};
pub use laws::{law_assembled, law_read};
pub use symbol::Symbol;
pub use tag::Tag;
pub use text::{LAST_ORDER, ORDER_BASE, is_tag, stands_in};
pub use word::{COMMENT_WORD, Spelling, word_named};

#[cfg(test)]
mod tests {
    use super::*;
    use std::test::Fail;

    // How many tags stand in a text, and their sum.
    fn tags_in(text: usize) -> (u32, u32) {
        let mut count = 0u32;
        let mut sum = 0u32;
        for tag in 0..256u16 {
            if stands_in(text, tag) {
                count = count.saturating_add(1);
                sum = sum.saturating_add(u32::from(tag));
            }
        }
        (count, sum)
    }

    #[test]
    fn tags_of_each_text(rt: HostRuntime) -> Result<(), Fail> {
        assert_eq!(rt; tags_in(1), (52, 1524));
        assert_eq!(rt; tags_in(2), (52, 1528));
        assert_eq!(rt; tags_in(3), (62, 2181));
        assert_eq!(rt; tags_in(4), (65, 2394));
        assert_eq!(rt; tags_in(5), (65, 2456));
        assert_eq!(rt; tags_in(6), (50, 2280));
        assert_eq!(rt; tags_in(7), (62, 9441));
        assert_eq!(rt; tags_in(8), (59, 9066));
        Ok(())
    }

    #[test]
    fn codes_and_words(rt: HostRuntime) -> Result<(), Fail> {
        let begin = Symbol {
            tag: 36,
            value: 0,
            line: 7,
        };
        assert_eq!(rt; begin.code(), [603_979_783, 0]);
        assert_eq!(rt; Symbol::decode([603_979_783, 0]), Some(begin));
        assert_eq!(rt; Symbol::decode([150_994_944, 0]), None);
        assert!(rt; Coded::<2>::of(begin).is_some());
        assert!(rt; Coded::<7>::of(begin).is_none());
        assert_eq!(rt; word_named(b"procedure"), Some(51));
        assert_eq!(rt; word_named(b"comment"), Some(56));
        assert_eq!(rt; word_named(b""), None);
        assert_eq!(rt; Tag::of(77), Some(Tag::OwnNumber));
        assert_eq!(rt; Tag::Div.name(), b"div".as_slice());
        Ok(())
    }
}
