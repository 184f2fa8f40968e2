// A source in memory that fails at appointed calls.
ghost use Rattle.std.specs.Prelude.{◌≡◌, Some, is_err, slice_get, OnErr, IfOk};
ghost use Rattle.gier_word.specs.Cause.{HasCause};
ghost use Rattle.gier_io.specs.Device.{Gives};
ghost use Rattle.gier_io.specs.Memory.{Planned, is_due, after_next};

use crate::failure_plan::FailurePlan;
use crate::{MemSource, Source};
use gier_word::Failed;
use std::marker::Model;

/// Bytes in memory, and the calls at which they aren't given. Each failure is counted, and no other call is.
#[derive(Drop)]
pub struct FailingSource {
    inner: MemSource,
    plan: FailurePlan,
    failed: u64,
}

impl Model for FailingSource {
    ghost use Rattle.gier_io.specs.Memory.{Planned};

    ghost Value = { Planned };

    ghost view = { λ s. record { left = s.inner; plan = s.plan; faults = s.failed } };
}

impl FailingSource {
    /// A source of these bytes that fails exactly at the calls of `next` whose numbers, from 0, stand in `fails`.
    pub fn of(bytes: Vec<u8>, fails: Vec<u64>) -> FailingSource
        ensures left { result.left ≡ bytes.items }
        ensures plan { result.plan ≡ record { fails = fails.items; call = 0 } }
        ensures faults { result.faults ≡ 0 }
    {
        FailingSource {
            inner: MemSource::of(bytes),
            plan: FailurePlan::of(fails),
            failed: 0,
        }
    }
}

impl Source for FailingSource {
    ghost left = { λ s. Some s.left };

    ghost faults = { λ s. s.faults };

    fn next(&mut self) -> Result<Option<u8>, Failed>
        ensures fails { is_err result ≡ is_due self.old.plan }
        ensures byte { IfOk result (λ byte. byte ≡ slice_get self.old.left 0) }
        ensures after { self.new ≡ after_next self.old }
        ensures given { IfOk result (λ byte. Gives (Some self.old.left) byte (Some self.new.left)) }
        ensures kept { OnErr result (Some self.new.left ≡ Some self.old.left) }
        ensures cause { HasCause self.old.faults self.new.faults result }
    {
        if self.plan.take_call() {
            self.failed = self.failed.saturating_add(1);
            return Err(Failed);
        }
        self.inner.next()
    }
}
