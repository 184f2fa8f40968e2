// Prints the list of errors.
ghost use Rattle.gier_io.specs.View.{sink_view, PutsOrFails};
ghost use Rattle.gier_text.specs.TablesModel.{tables_model};
ghost use Rattle.gier_front.specs.Printed.{errors_text, fault_line, located_line};

use gier_io::{Sink, put_both};
use gier_text::{Fault, FaultKind, Tables};
use gier_word::Failed;
use itoa::Buffer;

/// Prints each fault in order: `line `, the line, a space, its text and byte 10; `program too long` without a line.
///
/// After `Failed`, which comes only where the sink's count of faults rose, a prefix was printed.
pub fn print_errors<K: Sink>(tables: &Tables, out: &mut K) -> Result<(), Failed>
    ensures { PutsOrFails (errors_text (tables_model tables.now).faults) (sink_view K.holds K.faults out.old)
        (sink_view K.holds K.faults out.new) result }
{
    for at in 0..tables.faults() {
        print_fault(tables.fault(at), out)?;
    }
    Ok(())
}

fn print_fault<K: Sink>(fault: Fault, out: &mut K) -> Result<(), Failed>
    ensures { PutsOrFails (fault_line fault) (sink_view K.holds K.faults out.old) (sink_view K.holds K.faults out.new) result }
{
    match fault.kind {
        FaultKind::TooLong => put_both(fault.kind.text().as_bytes(), b"\n", out),
        _ => print_located(fault, out),
    }
}

// A fault with its line.
fn print_located<K: Sink>(fault: Fault, out: &mut K) -> Result<(), Failed>
    ensures { PutsOrFails (located_line fault) (sink_view K.holds K.faults out.old) (sink_view K.holds K.faults out.new) result }
{
    let mut buffer = Buffer::new();
    put_both(b"line ", buffer.format(fault.line).as_bytes(), out)?;
    put_both(b" ", fault.kind.text().as_bytes(), out)?;
    out.put(b"\n")
}
