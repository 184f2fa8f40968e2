// That a run ends, with what a hand-made object of one word must give.

use crate::{Ending, Report, Runner, Settings};
use gier_drum::{Drum, MemDrum};
use gier_io::{MemSink, MemSource};
use gier_order::Object;
use gier_word::Odd;
use std::test::Fail;

// A word of zeros is no order.
#[test]
fn a_word_of_zeros_spoils_the_run(rt: HostRuntime) -> Result<(), Fail> {
    let mut drum = MemDrum::open(rt.alloc(), 0)?;
    drum.make_room(1)?;
    let object = Object {
        first_track: 0,
        words: 1,
        start: 0,
        lengths: [0; 8],
    };
    let settings = Settings {
        places: 1,
        steps: 10,
        stack: 10,
    };
    let mut runner = Runner::open(rt.alloc(), settings)?;
    let mut input = MemSource::of(Vec::new(rt.alloc()));
    let mut out = MemSink::open(rt.alloc(), 0)?;
    let ending = runner.run(&object, &mut drum, &mut input, &mut out);
    assert_eq!(rt; ending, Ending::Spoilt(Odd { place: 0, word: 0 }));
    assert_eq!(rt; runner.stop(), 0);
    assert_eq!(rt; runner.misses(1), 1);
    let report = Report {
        steps: 0,
        transfers: 1,
        words: 0,
    };
    assert_eq!(rt; runner.report(), report);
    Ok(())
}
