// That a region and a table can be opened and used, with numbers worked out by hand.

ghost use Rattle.std.specs.Prelude.{Some, slice_index};

use crate::{Full, Packed, Region, Table};
use gier_word::Word40;
use std::test::Fail;

// Two words side by side.
#[derive(Debug, Clone, Copy, PartialEq, Eq)]
struct Pair {
    first: Word40,
    second: Word40,
}

impl Packed for Pair {
    const WORDS: u64 = 2;

    ghost WORDS = { 2 };

    ghost value_of = { λ words. Some (record { first = slice_index words 0; second = slice_index words 1 }) };

    fn pack(&self, region: &mut Region, place: u64) {
        region.set(place, self.first.bits());
        region.set(place + 1, self.second.bits());
    }

    fn unpack(region: &Region, place: u64) -> Option<Pair> {
        Some(Pair {
            first: Word40::of(region.get(place))?,
            second: Word40::of(region.get(place + 1))?,
        })
    }
}

#[test]
fn words_are_taken_and_given_back(rt: HostRuntime) -> Result<(), Fail> {
    let mut region = Region::open(rt.alloc(), 10)?;
    assert_eq!(rt; region.take(4), Ok(0));
    assert_eq!(rt; region.take(6), Ok(4));
    assert_eq!(rt; region.take(1), Err(Full));
    assert_eq!(rt; region.size(), 10);
    region.set(3, 33);
    region.set(9, 99);
    assert_eq!(rt; region.used(), 10);
    region.give_to(4);
    assert_eq!(rt; region.take(6), Ok(4));
    assert_eq!(rt; region.size(), 10);
    assert_eq!(rt; region.get(3), 33);
    for place in 4..10 {
        assert_eq!(rt; region.get(place), 0);
    }
    Ok(())
}

#[test]
fn a_table_takes_its_capacity(rt: HostRuntime) -> Result<(), Fail> {
    let one = Pair {
        first: Word40::of(1).ok_or("no word")?,
        second: Word40::of((1 << 40) - 1).ok_or("no word")?,
    };
    let other = Pair {
        first: one.second,
        second: one.first,
    };
    let mut region = Region::open(rt.alloc(), 10)?;
    let Ok(mut table) = Table::<Pair>::open(&mut region, 1) else {
        return Err("no room")?;
    };
    assert_eq!(rt; region.used(), 2);
    assert_eq!(rt; table.try_push(&mut region, one), Ok(()));
    assert_eq!(rt; table.try_push(&mut region, other), Err(Full));
    assert_eq!(rt; table.len(), 1);
    assert_eq!(rt; table.get(&region, 0), Some(one));
    Ok(())
}
