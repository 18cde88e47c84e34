//! A clock that goes on.
use std::cell::Cell;
use trace_api::Clock;

/// A clock that goes on by so many nanoseconds with each reading.
#[derive(Drop)]
pub(crate) struct Steps {
    now: Cell<u64>,
    step: u64,
}

impl Steps {
    /// A clock that was read at this moment, in nanoseconds since 1970, and goes on by this step.
    pub(crate) fn after(moment: u64, step: u64) -> Steps {
        Steps {
            now: Cell::new(moment),
            step,
        }
    }
}

impl Clock for Steps {
    ghost use Rattle.std.specs.Prelude.{⊤};

    ghost tells = { λ clock at. ⊤ };

    fn now(&self) -> u64 {
        let now = self.now.get().saturating_add(self.step);
        self.now.set(now);
        now
    }
}
