// Whether a pass writes a text for another, both spelled in words. Faults are left in the tables.
ghost use Rattle.std.specs.Prelude.{[]};

use crate::spelled::{reads, text_of};
use gier_text::{ListText, Pass, Tables, Text, Way, drive};
use std::alloc::Global;

/// Whether the pass, which reads this way, takes the first text to its end and writes the second one.
pub fn writes<P: Pass>(
    alloc: Global,
    pass: &mut P,
    tables: &mut Tables,
    way: Way,
    read: &str,
    wanted: &str,
) -> bool
    requires stands { P.stands pass.old tables.old [] [] }
{
    let Some(mut input) = text_of(alloc, read) else {
        return false;
    };
    let mut output = ListText::open(alloc);
    if input.rewind(&mut (), way).is_err() {
        return false;
    }
    let driven = drive(pass, &mut (), &mut input, way, &mut output, tables);
    driven.is_ok() && output.rewind(&mut (), way).is_ok() && reads(&mut output, wanted)
}
