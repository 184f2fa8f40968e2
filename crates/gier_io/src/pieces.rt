// Prints in pieces: where one of them fails, what is out is a prefix of all.
ghost use Rattle.std.specs.Prelude.{◌++◌};
ghost use Rattle.gier_io.specs.View.{sink_view, PutsOrFails};

use crate::Sink;
use gier_word::Failed;

/// Puts both, one after the other. `Failed` comes only where the sink's count of faults rose.
pub fn put_both<K: Sink>(first: &[u8], second: &[u8], out: &mut K) -> Result<(), Failed>
    ensures { PutsOrFails (first.now ++ second.now)
        (sink_view K.holds K.faults out.old) (sink_view K.holds K.faults out.new) result }
{
    out.put(first)?;
    out.put(second)
}
