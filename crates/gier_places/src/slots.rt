// Slots: which track each place holds, in the order of the last references, and where its words are.
ghost use Rattle.std.specs.Prelude.{◌≡◌, ◌==◌, ◌+◌, ◌<◌, ◌≤◌, ◌^◌, ◌∷◌, ℕ, List, All, length, take, position, vec_capacity};
ghost use Rattle.gier_places.specs.HeldTracks.{held_in, moved_first};
ghost use Rattle.gier_places.specs.SlotInvariant.{IsPlaced};

/// A track, and which of the lists of words are its words.
#[derive(Clone, Copy)]
pub(crate) struct Slot {
    pub(crate) track: u32,
    pub(crate) at: u32,
}

/// The place of a track. Most references are to the one in front.
#[inline(always)]
pub(crate) fn place_in(slots: &[Slot], track: u32) -> Option<usize>
    ensures { result ≡ position (λ slot. slot.track == track) slots.now }
{
    match slots {
        [newest, ..] if newest.track == track => Some(0),
        _ => search(slots, track),
    }
}

#[inline(never)]
fn search(slots: &[Slot], track: u32) -> Option<usize>
    ensures { result ≡ position (λ slot. slot.track == track) slots.now }
{
    slots.iter().position(|slot| slot.track == track)
}

/// Moves no more than what stands before the place, since a track that comes back was mostly used a short time ago.
pub(crate) fn move_first(slots: &mut [Slot], place: usize)
    requires { place < length slots.old }
    ensures { slots.new ≡ moved_first slots.old place }
{
    let mut at = place;
    while at > 0 {
        slots.swap(at - 1, at);
        at -= 1;
    }
}

/// Gives up the last track, and takes in another one, whose words stand where those of the last one stood.
pub(crate) fn replace_last(slots: &mut [Slot], words: &mut [[u64; 40]], track: u32, new: &[u64; 40])
    requires some { 0 < length slots.old }
    requires small { All (λ word. word < 2 ^ 40) new.now }
    requires placed { IsPlaced slots.old words.old }
    ensures placed { IsPlaced slots.new words.new }
    ensures held { held_in words.new slots.new
        ≡ take (length slots.old) (record { track = track; words = new.now } ∷ held_in words.old slots.old) }
{
    let last = slots.len() - 1;
    let at = slots[last].at;
    words[at as usize] = *new;
    slots[last] = Slot { track, at };
    move_first(slots, last);
}

/// Takes in a track, where no track has to be given up for it.
pub(crate) fn put_first(
    slots: &mut Vec<Slot>,
    words: &mut Vec<[u64; 40]>,
    track: u32,
    new: &[u64; 40],
)
    requires few { length slots.old.items < 64 }
    requires room { length slots.old.items < vec_capacity slots.old }
    requires words_room { length words.old.items < vec_capacity words.old }
    requires small { All (λ word. word < 2 ^ 40) new.now }
    requires placed { IsPlaced slots.old.items words.old.items }
    ensures placed { IsPlaced slots.new.items words.new.items }
    ensures held { held_in words.new.items slots.new.items ≡ record { track = track; words = new.now }
        ∷ held_in words.old.items slots.old.items }
    ensures capacity { vec_capacity slots.old ≤ vec_capacity slots.new }
    ensures words_capacity { vec_capacity words.old ≤ vec_capacity words.new }
{
    let at = words.len() as u32;
    words.push_reserved(*new);
    put_slot(slots, Slot { track, at });
}

fn put_slot(slots: &mut Vec<Slot>, first: Slot)
    requires { length slots.old.items < vec_capacity slots.old }
    ensures items { slots.new.items ≡ first ∷ slots.old.items }
    ensures capacity { vec_capacity slots.old ≤ vec_capacity slots.new }
{
    match slots.insert(0, first) {
        Ok(()) => (),
        Err(_) => unreachable!(),
    }
}
