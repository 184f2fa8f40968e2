// A sink in memory with a limited room, which is reserved when it is opened.
ghost use Rattle.std.specs.Prelude.{◌≡◌, ◌+◌, ◌≤◌, ◌++◌, [], Some, is_ok, length, vec_capacity, IfOk, OnOk, OnErr};
ghost use Rattle.gier_word.specs.Cause.{HasCause, HasRisen};
ghost use Rattle.gier_io.specs.Device.{Puts, PutsPart};
ghost use Rattle.gier_io.specs.Memory.{fits, after_fault, after_put};

use crate::Sink;
use gier_word::{Failed, NoMemory};
use std::alloc::Global;
use std::marker::Model;

/// Bytes in memory, at most so many as there is room for. A put beyond keeps the prefix that fits and is a counted
/// fault; no other call is.
#[derive(Drop)]
pub struct MemSink {
    bytes: Vec<u8>,
    room: usize,
    failed: u64,
}

impl Model for MemSink {
    ghost use Rattle.std.specs.Prelude.{◌≤◌, length, vec_capacity};
    ghost use Rattle.gier_io.specs.Memory.{Held};

    ghost Value = { Held };

    ghost view = { λ s. record { bytes = s.bytes.items; room = s.room; faults = s.failed } };

    ghost invariant = { λ s. (length s.bytes.items ≤ s.room) × (s.room ≤ vec_capacity s.bytes) };
}

impl MemSink {
    /// An empty sink with room for so many bytes. The room is reserved and not touched.
    pub fn open(alloc: Global, room: usize) -> Result<MemSink, NoMemory>
        ensures { IfOk result (λ s. s ≡ record { bytes = []; room = room; faults = 0 }) }
    {
        match Vec::with_capacity(alloc, room) {
            Ok(bytes) => Ok(MemSink {
                bytes,
                room,
                failed: 0,
            }),
            Err(_) => Err(NoMemory),
        }
    }

    /// What it holds.
    pub fn bytes(&self) -> &[u8]
        ensures { result.now ≡ self.now.bytes }
    {
        self.bytes.as_slice()
    }

    // Counts a fault.
    pub(crate) fn fault(&mut self) -> Failed
        ensures after { self.new ≡ after_fault self.old }
        ensures later { self.old.faults ≤ self.new.faults }
        ensures risen { HasRisen self.old.faults self.new.faults }
    {
        self.failed = self.failed.saturating_add(1);
        Failed
    }
}

impl Sink for MemSink {
    ghost holds = { λ s. Some s.bytes };

    ghost faults = { λ s. s.faults };

    #[tactic(auto, using(crate::proofs::Lists::take_to_room))]
    fn put(&mut self, bytes: &[u8]) -> Result<(), Failed>
        ensures fits { is_ok result ≡ fits self.old bytes.now }
        ensures after { self.new ≡ after_put self.old bytes.now }
        ensures put { OnOk result (Puts (Some self.old.bytes) bytes.now (Some self.new.bytes)) }
        ensures part { OnErr result (PutsPart (Some self.old.bytes) bytes.now (Some self.new.bytes)) }
        ensures cause { HasCause self.old.faults self.new.faults result }
    {
        let free = self.room - self.bytes.len();
        if bytes.len() <= free {
            append(&mut self.bytes, bytes);
            return Ok(());
        }
        append(&mut self.bytes, &bytes[..free]);
        Err(self.fault())
    }
}

// Appends where the capacity has place for it.
fn append(held: &mut Vec<u8>, bytes: &[u8])
    requires { length held.old.items + length bytes.now ≤ vec_capacity held.old }
    ensures items { held.new.items ≡ held.old.items ++ bytes.now }
    ensures capacity { vec_capacity held.old ≤ vec_capacity held.new }
{
    match held.extend_from_slice(bytes) {
        Ok(()) => (),
        Err(_) => unreachable!(),
    }
}
