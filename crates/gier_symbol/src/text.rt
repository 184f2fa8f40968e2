// Which tags there are, and which of them stand in each of the eight texts.
ghost use Rattle.std.specs.Prelude.{◌≡◌};
ghost use Rattle.gier_symbol.specs.Texts.{is_from, is_tag_of, is_order_tag, is_tag, is_in_text1, is_in_text2, is_in_text3};
ghost use Rattle.gier_symbol.specs.Texts.{is_in_text4, is_in_text5, is_in_text6, is_in_text7, is_in_text8, stands_in};

use crate::Tag;

/// An order's tag is this and the order's number.
pub const ORDER_BASE: u16 = 128;

/// The orders are numbered from 1 up to this.
pub const LAST_ORDER: u16 = 55;

fn is_from(first: Tag, last: Tag, tag: u16) -> bool
    ensures { result ≡ is_from first last tag }
{
    first.number() <= tag && tag <= last.number()
}

fn is_tag_of(kind: Tag, tag: u16) -> bool
    ensures { result ≡ is_tag_of kind tag }
{
    tag == kind.number()
}

fn is_order_tag(tag: u16) -> bool
    ensures { result ≡ is_order_tag tag }
{
    tag > ORDER_BASE && tag <= ORDER_BASE + LAST_ORDER
}

/// Whether the number is a tag: one of the table in `Tag`, or an order's.
pub fn is_tag(tag: u16) -> bool
    ensures { result ≡ is_tag tag }
{
    is_from(Tag::Letter, Tag::TextEnd, tag)
        || is_from(Tag::Plus, Tag::Own, tag)
        || is_from(Tag::LeadingPlus, Tag::OwnEntry, tag)
        || is_from(Tag::Word, Tag::ObjectWords, tag)
        || is_order_tag(tag)
}

fn is_in_text1(tag: u16) -> bool
    ensures { result ≡ is_in_text1 tag }
{
    is_from(Tag::Letter, Tag::Digit, tag)
        || is_from(Tag::StringBegin, Tag::TextEnd, tag)
        || is_from(Tag::Plus, Tag::Own, tag)
}

fn is_in_text2(tag: u16) -> bool
    ensures { result ≡ is_in_text2 tag }
{
    is_from(Tag::Identifier, Tag::TextEnd, tag) || is_from(Tag::Plus, Tag::Own, tag)
}

fn is_in_text3(tag: u16) -> bool
    ensures { result ≡ is_in_text3 tag }
{
    is_in_text2(tag)
        || is_from(Tag::LeadingPlus, Tag::ShutMark, tag)
        || is_tag_of(Tag::OwnNumber, tag)
}

fn is_in_text4(tag: u16) -> bool
    ensures { result ≡ is_in_text4 tag }
{
    is_in_text2(tag)
        || is_from(Tag::LeadingPlus, Tag::Description, tag)
        || is_tag_of(Tag::Count, tag)
        || is_tag_of(Tag::OwnEntry, tag)
}

fn is_in_text5(tag: u16) -> bool
    ensures { result ≡ is_in_text5 tag }
{
    (is_in_text4(tag) && !is_tag_of(Tag::Identifier, tag) && !is_tag_of(Tag::OwnEntry, tag))
        || is_from(Tag::Used, Tag::Place, tag)
}

fn is_in_text6(tag: u16) -> bool
    ensures { result ≡ is_in_text6 tag }
{
    (is_in_text5(tag)
        && !is_from(Tag::Plus, Tag::Equiv, tag)
        && !is_from(Tag::LeadingPlus, Tag::LeadingMinus, tag))
        || is_from(Tag::Operation, Tag::Called, tag)
}

fn is_in_text7(tag: u16) -> bool
    ensures { result ≡ is_in_text7 tag }
{
    is_from(Tag::Word, Tag::ObjectWords, tag) || is_order_tag(tag)
}

fn is_in_text8(tag: u16) -> bool
    ensures { result ≡ is_in_text8 tag }
{
    is_from(Tag::Word, Tag::LabelWord, tag) || is_order_tag(tag)
}

/// Whether the tag stands in the text of this number, from 1 to 8; no tag stands in any other text.
pub fn stands_in(text: usize, tag: u16) -> bool
    ensures { result ≡ stands_in text tag }
{
    match text {
        1 => is_in_text1(tag),
        2 => is_in_text2(tag),
        3 => is_in_text3(tag),
        4 => is_in_text4(tag),
        5 => is_in_text5(tag),
        6 => is_in_text6(tag),
        7 => is_in_text7(tag),
        8 => is_in_text8(tag),
        _ => false,
    }
}
