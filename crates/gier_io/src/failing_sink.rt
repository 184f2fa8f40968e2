// A sink in memory that fails at appointed puts.
ghost use Rattle.std.specs.Prelude.{◌≡◌, ◌&&◌, [], Some, not, is_ok, IfOk, OnOk, OnErr};
ghost use Rattle.gier_word.specs.Cause.{HasCause};
ghost use Rattle.gier_io.specs.Device.{Puts, PutsPart};
ghost use Rattle.gier_io.specs.Memory.{is_due, fits, after_planned_put};

use crate::failure_plan::FailurePlan;
use crate::{MemSink, Sink};
use gier_word::{Failed, NoMemory};
use std::alloc::Global;
use std::marker::Model;

/// A sink as `MemSink` that fails in addition at appointed puts, of which it keeps nothing.
#[derive(Drop)]
pub struct FailingSink {
    inner: MemSink,
    plan: FailurePlan,
}

impl Model for FailingSink {
    ghost use Rattle.gier_io.specs.Memory.{PlannedSink};

    ghost Value = { PlannedSink };

    ghost view = { λ s. record { sink = s.inner; plan = s.plan } };
}

impl FailingSink {
    /// An empty sink with room for so many bytes, which fails in addition at the puts whose numbers, from 0, stand in
    /// `fails`.
    pub fn open(alloc: Global, room: usize, fails: Vec<u64>) -> Result<FailingSink, NoMemory>
        ensures sink { IfOk result (λ s. s.sink ≡ record { bytes = []; room = room; faults = 0 }) }
        ensures plan { IfOk result (λ s. s.plan ≡ record { fails = fails.items; call = 0 }) }
    {
        Ok(FailingSink {
            inner: MemSink::open(alloc, room)?,
            plan: FailurePlan::of(fails),
        })
    }

    /// What it holds.
    pub fn bytes(&self) -> &[u8]
        ensures { result.now ≡ self.now.sink.bytes }
    {
        self.inner.bytes()
    }
}

impl Sink for FailingSink {
    ghost holds = { λ s. Some s.sink.bytes };

    ghost faults = { λ s. s.sink.faults };

    fn put(&mut self, bytes: &[u8]) -> Result<(), Failed>
        ensures ok { is_ok result ≡ (not (is_due self.old.plan) && fits self.old.sink bytes.now) }
        ensures after { self.new ≡ after_planned_put self.old bytes.now }
        ensures put { OnOk result (Puts (Some self.old.sink.bytes) bytes.now (Some self.new.sink.bytes)) }
        ensures part { OnErr result
            (PutsPart (Some self.old.sink.bytes) bytes.now (Some self.new.sink.bytes)) }
        ensures cause { HasCause self.old.sink.faults self.new.sink.faults result }
    {
        if self.plan.take_call() {
            return Err(self.inner.fault());
        }
        self.inner.put(bytes)
    }
}
