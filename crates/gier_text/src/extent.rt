// Where a list of a pass lies in the words of the tables. What its entries mean isn't told here.
ghost use Rattle.std.specs.Prelude.{◌≡◌, ◌<◌, ◌≤◌, ◌^◌, ◌+◌, ◌*◌, ◌⊎◌, ℕ, All, length, slice_index, slice_set, vec_capacity};
ghost use Rattle.gier_text.specs.Lists.{nth_extent};

use gier_region::Region;

#[derive(Debug, Clone, Copy, PartialEq, Eq)]
pub(crate) struct Extent {
    // The place of the first word.
    pub(crate) base: u64,
    // How many words an entry has.
    pub(crate) width: u64,
    // How many entries it has room for, and how many it has.
    pub(crate) capacity: u64,
    pub(crate) count: u64,
}

pub(crate) fn extent_at(extents: &Vec<Extent>, list: u8) -> Extent
    requires { list < length extents.now.items }
    ensures { result ≡ nth_extent extents.now.items list }
{
    extents[list as usize]
}

pub(crate) fn set_count(extents: &mut Vec<Extent>, list: u8, count: u64)
    requires { list < length extents.old.items }
    ensures set { extents.new.items
        ≡ slice_set extents.old.items list (record (nth_extent extents.old.items list) { count = count }) }
    ensures capacity { vec_capacity extents.new ≡ vec_capacity extents.old }
{
    let mut extent = extent_at(extents, list);
    extent.count = count;
    extents[list as usize] = extent;
}

// The place of a word of an entry.
pub(crate) fn word_place(extent: Extent, at: u64, part: u64) -> u64
    requires { extent.base + (extent.width * at + part) < 2 ^ 64 }
    ensures { result ≡ extent.base + (extent.width * at + part) }
{
    extent.base + (extent.width * at + part)
}

// Writes the words of an entry from a place on.
pub(crate) fn copy(words: &mut Region, place: u64, entry: &[u64])
    requires within { place + length entry.now ≤ length words.old.words }
    requires bound { place + length entry.now < 2 ^ 64 }
    requires small { All (λ word. word < 2 ^ 40) entry.now }
    ensures size { length words.new.words ≡ length words.old.words }
    ensures written { (k : ℕ) → k < length entry.now → slice_index words.new.words (place + k) ≡ slice_index entry.now k }
    ensures kept { (k : ℕ) → (k < place) ⊎ (place + length entry.now ≤ k)
        → slice_index words.new.words k ≡ slice_index words.old.words k }
{
    let mut at = place;
    for word in entry {
        words.set(at, *word);
        at += 1;
    }
}
