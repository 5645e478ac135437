//! How many steps are left to a run.

ghost use Rattle.std.specs.Prelude.{◌≡◌, ◌<◌, ◌≤◌, ◌-◌, ◌↔◌, IsTrue, MatchOption};
ghost use Rattle.sl_machine.specs.inner.UnderWay.{steps_left};

/// The steps that are left to a run, counted where it jumps: so many from the place on to which it jumped last. In between it makes a
/// step a place.
#[derive(Clone, Copy)]
pub(crate) struct Clock {
    pub left: u64,
    pub since: usize,
}

impl Clock {
    /// Whether no step is left at a place.
    pub(crate) fn is_out(&self, place: usize) -> bool
        requires { self.now.since ≤ place }
        ensures { IsTrue result ↔ (steps_left self.now place ≡ 0) }
    {
        self.left <= (place - self.since) as u64
    }

    /// The clock after a jump from a place to a target; `None` where no step is left for it.
    pub(crate) fn after_jump(&self, place: usize, target: usize) -> Option<Clock>
        requires { self.now.since ≤ place }
        ensures { MatchOption result (steps_left self.now place ≡ 0)
            (λ after. (0 < steps_left self.now place) × (after ≡ record { left = steps_left self.now place - 1; since = target })) }
    {
        if self.is_out(place) {
            return None;
        }
        Some(Clock {
            left: self.left - (place - self.since) as u64 - 1,
            since: target,
        })
    }
}
