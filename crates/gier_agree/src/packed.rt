// Ten kinds in a word of 40 bits: four bits each, the first kind in the highest, filled up with 0.
ghost use Rattle.std.specs.Prelude.{◌≡◌, ℕ, ◌<◌, ◌≤◌, ◌^◌, All, length, slice_index};
ghost use Rattle.gier_agree.specs.Packed.{kinds_word, kind_in};

// How many kinds a word has room for.
pub(crate) const PLACES: u8 = 10;

// Values of four bits.
const VALUES: u64 = 16;

/// The four bits of the kind at place `at`, from 0, below 10. Bits of the word above the lowest 40 are not looked at.
pub fn kind_at(word: u64, at: u8) -> u8
    requires { at < 10 }
    ensures value { result ≡ kind_in word at }
    ensures range { result < 16 }
{
    ((word >> (4 * (PLACES - 1 - at))) % VALUES) as u8
}

/// The word of at most ten kinds below 16; it is below 2^40.
pub fn pack(kinds: &[u8]) -> u64
    requires room { length kinds.now ≤ 10 }
    requires bits { All (λ kind. kind < 16) kinds.now }
    ensures value { result ≡ kinds_word kinds.now }
    ensures range { result < 2 ^ 40 }
    ensures back { (at : ℕ) → at < 10 → kind_in result at ≡ slice_index kinds.now at }
{
    let mut word = 0;
    for at in 0..PLACES {
        word = word * VALUES + u64::from(kind_or_none(kinds, at));
    }
    word
}

// The kind at a place, and 0 behind the last.
fn kind_or_none(kinds: &[u8], at: u8) -> u8
    requires { All (λ kind. kind < 16) kinds.now }
    ensures value { result ≡ slice_index kinds.now at }
    ensures range { result < 16 }
{
    let at = usize::from(at);
    if at < kinds.len() { kinds[at] } else { 0 }
}

#[cfg(test)]
mod tests {
    use super::*;

    // An integer by value and a string, as the format's text has them: four bits each, the first in the highest.
    #[test]
    fn packs_from_the_highest_bits(rt: HostRuntime) {
        assert_eq!(rt; pack(&[1, 9]), 0x19_0000_0000);
        assert_eq!(rt; kind_at(0x19_0000_0000, 1), 9);
    }
}
