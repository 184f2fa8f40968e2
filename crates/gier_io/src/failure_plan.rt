// Which calls of a device in memory are to fail.
ghost use Rattle.std.specs.Prelude.{◌≡◌};
ghost use Rattle.gier_io.specs.Memory.{is_due, after_call};

use std::marker::Model;

// The numbers of the calls that are to fail, and the number of the next call, which is None from 2^64 on.
#[derive(Drop)]
pub(crate) struct FailurePlan {
    fails: Vec<u64>,
    call: Option<u64>,
}

impl Model for FailurePlan {
    ghost use Rattle.std.specs.Prelude.{◌^◌, ◌<◌, All, unwrap_or};
    ghost use Rattle.gier_io.specs.Memory.{Plan};

    ghost Value = { Plan };

    ghost view = { λ p. record { fails = p.fails.items; call = unwrap_or p.call (2 ^ 64) } };

    ghost invariant = { λ p. All (λ n. n < 2 ^ 64) p.fails.items };
}

impl FailurePlan {
    // The calls are numbered from 0.
    pub(crate) fn of(fails: Vec<u64>) -> FailurePlan
        ensures { result ≡ record { fails = fails.items; call = 0 } }
    {
        FailurePlan {
            fails,
            call: Some(0),
        }
    }

    // Counts a call, and says whether it is to fail.
    pub(crate) fn take_call(&mut self) -> bool
        ensures due { result ≡ is_due self.old }
        ensures next { self.new ≡ after_call self.old }
    {
        match self.call {
            Some(call) => {
                self.call = call.checked_add(1);
                self.fails.contains(&call)
            }
            None => false,
        }
    }
}
