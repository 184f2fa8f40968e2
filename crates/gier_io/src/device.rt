// What a source and a sink mean, where they tell it, and how often they have failed.
ghost use Rattle.std.specs.Prelude.{◌≡◌, List, ℕ, Option, OnOk, OnErr, IfOk};
ghost use Rattle.gier_word.specs.Cause.{HasCause};
ghost use Rattle.gier_io.specs.Device.{Gives, Puts, PutsPart};

use gier_word::Failed;

/// Bytes to be read one after another.
pub trait Source {
    /// The bytes that are left, where they are told. No call changes whether they are.
    ghost left: { Self → Option (List ℕ) };

    /// How often it has failed.
    ghost faults: { Self → ℕ };

    /// The next byte, which is then gone; None exactly where none is left.
    /// After `Failed`, which comes only where the count of faults rose, no byte is gone.
    fn next(&mut self) -> Result<Option<u8>, Failed>
        ensures given { IfOk result (λ byte. Gives (left self.old) byte (left self.new)) }
        ensures kept { OnErr result (left self.new ≡ left self.old) }
        ensures cause { HasCause (faults self.old) (faults self.new) result };
}

/// A place that bytes are put into.
pub trait Sink {
    /// The bytes that it holds, where they are told. No call changes whether they are.
    ghost holds: { Self → Option (List ℕ) };

    /// How often it has failed.
    ghost faults: { Self → ℕ };

    /// Appends all the bytes.
    /// After `Failed`, which comes only where the count of faults rose, a prefix of them was appended.
    fn put(&mut self, bytes: &[u8]) -> Result<(), Failed>
        ensures put { OnOk result (Puts (holds self.old) bytes.now (holds self.new)) }
        ensures part { OnErr result (PutsPart (holds self.old) bytes.now (holds self.new)) }
        ensures cause { HasCause (faults self.old) (faults self.new) result };
}
