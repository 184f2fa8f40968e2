// The standard procedures that print: an integer, bytes as they stand, and one byte by its number.
ghost use Rattle.std.specs.Prelude.{◌≡◌, OnOk, OnErr};
ghost use Rattle.gier_word.specs.Cause.{HasCause};
ghost use Rattle.gier_word.specs.Standard.{integer_text, character_text};
ghost use Rattle.gier_io.specs.Device.{Puts, PutsPart};
ghost use Rattle.gier_library.specs.Prints.{Prints, sink_answer};

use gier_io::Sink;
use gier_word::{Alarm, Failed, Int40};
use itoa::Buffer;

/// Why a byte wasn't printed.
#[derive(Debug, Clone, Copy, PartialEq, Eq)]
pub enum OutStop {
    /// `character`: the number isn't 0 to 255. Nothing was printed.
    Alarm(Alarm),
    /// The sink failed.
    Write,
}

/// `outinteger`: prints the decimal digits, with `-` before those of a negative number.
///
/// After `Failed`, which comes only where the sink's count of faults rose, a prefix was printed.
pub fn out_integer<K: Sink>(n: Int40, out: &mut K) -> Result<(), Failed>
    ensures put { OnOk result (Puts (K.holds out.old) (integer_text n) (K.holds out.new)) }
    ensures part { OnErr result (PutsPart (K.holds out.old) (integer_text n) (K.holds out.new)) }
    ensures cause { HasCause (K.faults out.old) (K.faults out.new) result }
{
    out.put(Buffer::new().format(n.get()).as_bytes())
}

/// `outtext` and `outcr`: prints the bytes.
///
/// After `Failed`, which comes only where the sink's count of faults rose, a prefix was printed.
pub fn out_bytes<K: Sink>(bytes: &[u8], out: &mut K) -> Result<(), Failed>
    ensures put { OnOk result (Puts (K.holds out.old) bytes.now (K.holds out.new)) }
    ensures part { OnErr result (PutsPart (K.holds out.old) bytes.now (K.holds out.new)) }
    ensures cause { HasCause (K.faults out.old) (K.faults out.new) result }
{
    out.put(bytes)
}

/// `outchar`: prints the byte with this number.
///
/// The alarm `character` comes exactly where the number isn't 0 to 255, and nothing is printed then.
/// `Write` comes only where the sink's count of faults rose.
pub fn out_char<K: Sink>(n: Int40, out: &mut K) -> Result<(), OutStop>
    ensures prints { Prints K.holds (character_text n) out.old result out.new }
    ensures cause { HasCause (K.faults out.old) (K.faults out.new) (sink_answer result) }
{
    let Ok(byte) = u8::try_from(n.get()) else {
        return Err(OutStop::Alarm(Alarm::Character));
    };
    match out.put(&[byte]) {
        Ok(()) => Ok(()),
        Err(_) => Err(OutStop::Write),
    }
}
