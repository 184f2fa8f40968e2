// How a word tells of an entry: it is the entry's number increased by 1, or 0 where there is none.
ghost use Rattle.std.specs.Prelude.{◌≡◌, ◌<◌, ◌^◌, IfSome};
ghost use Rattle.gier_pass5.specs.OptionalIndices.{link_at, linked_at};

/// The word that tells of an entry or of none.
pub(crate) fn link_to(entry: Option<u32>) -> u64
    ensures value { result ≡ link_at entry }
    ensures small { result < 2 ^ 40 }
{
    match entry {
        Some(at) => u64::from(at) + 1,
        None => 0,
    }
}

/// The entry that a word tells of, where it is below this number.
pub(crate) fn linked(word: u64, below: u32) -> Option<u32>
    ensures value { result ≡ linked_at word below }
    ensures within { IfSome result (λ at. at < below) }
{
    if word > 0 && word <= u64::from(below) {
        Some((word - 1) as u32)
    } else {
        None
    }
}
