// Prints a text with a number behind it, and the line that names a wrong word. What a run ends with is printed in tails.rt.
ghost use Rattle.std.specs.Prelude.{◌++◌, decimal};
ghost use Rattle.gier_io.specs.View.{sink_view, PutsOrFails};
ghost use Rattle.gier_job.specs.Tails.{wrong_word_tail};

use gier_io::{Sink, put_both};
use gier_word::Failed;
use itoa::Buffer;

/// Puts a text and the digits of a number behind it. `Failed` comes only where the printer's count of faults rose.
pub(crate) fn put_named<K: Sink>(text: &[u8], number: u128, out: &mut K) -> Result<(), Failed>
    ensures { PutsOrFails (text.now ++ decimal number) (sink_view K.holds K.faults out.old)
        (sink_view K.holds K.faults out.new) result }
{
    let mut buffer = Buffer::new();
    put_both(text, buffer.format(number).as_bytes(), out)
}

/// Says which word of the command line is wrong.
pub(crate) fn put_wrong_word<K: Sink>(number: u32, out: &mut K) -> Result<(), Failed>
    ensures { PutsOrFails (wrong_word_tail number) (sink_view K.holds K.faults out.old)
        (sink_view K.holds K.faults out.new) result }
{
    put_named(b"\n*** word ", u128::from(number), out)?;
    out.put(b"\n")
}
