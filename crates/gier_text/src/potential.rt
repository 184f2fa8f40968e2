// What a tag says of the value beside it, as the bounds on texts need it.
ghost use Rattle.std.specs.Prelude.{◌≡◌};
ghost use Rattle.gier_text.specs.Potential.{is_name};

use gier_symbol::Tag;

/// Whether the value is the number of an identifier.
pub fn is_name(tag: u16) -> bool
    ensures { result ≡ is_name tag }
{
    tag == Tag::Identifier.number()
        || (Tag::Declaring.number() <= tag && tag <= Tag::Specified.number())
        || tag == Tag::Entry.number()
}
