// Room that is reserved and not touched.
ghost use Rattle.std.specs.Prelude.{◌≡◌, ◌≤◌, length, vec_capacity, OnOk};

use gier_word::NoMemory;

/// Reserves room for so many items in all.
pub(crate) fn reserve<T>(items: &mut Vec<T>, wanted: usize) -> Result<(), NoMemory>
    requires { length items.old.items ≤ wanted }
    ensures items { items.new.items ≡ items.old.items }
    ensures room { OnOk result (wanted ≤ vec_capacity items.new) }
    ensures larger { vec_capacity items.old ≤ vec_capacity items.new }
{
    match items.reserve(wanted - items.len()) {
        Ok(()) => Ok(()),
        Err(_) => Err(NoMemory),
    }
}
