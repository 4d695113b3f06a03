// A clock in memory.
ghost use Rattle.std.specs.Prelude.{◌≡◌, ◌+◌, [], ◌∷◌, Some};
ghost use Rattle.std.specs.Io.KnownBytes.{Appends};
ghost use Rattle.gw_io.specs.Memory.{TellsOnly, TellsSteps, moment_at, moments_of, plan_of};
ghost use Rattle.gw_io.specs.Outside.{IsAsPlanned};

use crate::Clock;
use rgw_types::Trace;
use std::marker::Model;

/// Tells moments at equal distances.
#[derive(Debug, Drop)]
pub struct StepClock {
    first: u64,
    step: u64,
    next: u64,
    told: Trace,
}

/// Contracts see the first moment, the step, and how many moments were told.
impl Model for StepClock {
    ghost use Rattle.std.specs.Prelude.{◌≡◌, length};
    ghost use Rattle.gw_io.specs.Memory.{StepState, moment_at};

    ghost Value = { StepState };

    ghost view = { λ s. record {
      first = s.first;
      step = s.step;
      calls = length s.told.numbers;
    } };

    ghost invariant = { λ s. s.next ≡ moment_at s.first s.step (length s.told.numbers) };
}

impl StepClock {
    /// A clock whose call number `k` tells `first + k * step`, where the first call has the number 0
    /// and sums stop at the greatest `u64`.
    pub fn new(first: u64, step: u64) -> Self
        ensures fresh { result ≡ record { first = first; step = step; calls = 0 } }

        // What is told in calls that a caller does not see.
        ensures steps { TellsSteps result first step }
        ensures still { step ≡ 0 → TellsOnly result first }
    {
        StepClock {
            first,
            step,
            next: first,
            told: Trace::new(),
        }
    }
}

impl Clock for StepClock {
    ghost told = { λ s. Some (moments_of s) };

    ghost plan = { plan_of };

    fn now(&mut self) -> u64
        ensures told { Appends (Some (moments_of self.old)) (Some (moments_of self.new))
            (result ∷ []) }
        ensures plan { plan_of self.new ≡ plan_of self.old }
        ensures as_planned { IsAsPlanned (plan_of self.new) (Some (moments_of self.new)) }

        ensures moment { result ≡ moment_at self.old.first self.old.step self.old.calls }
        ensures after { self.new ≡ record self.old { calls = self.old.calls + 1 } }
    {
        let moment = self.next;
        self.next = moment.saturating_add(self.step);
        self.told = self.told.with_moments(&[moment]);
        moment
    }

    fn twin(&self) -> Self
        ensures told { Some (moments_of result) ≡ Some (moments_of self.now) }
        ensures plan { plan_of result ≡ plan_of self.now }

        ensures same { result ≡ self.now }
    {
        StepClock {
            first: self.first,
            step: self.step,
            next: self.next,
            told: self.told.with_moments(&[]),
        }
    }
}
