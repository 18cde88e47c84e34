//! How long a worker waits until it looks again whether a batch is due: no end of a span wakes it.
ghost use Rattle.std.specs.Prelude.{◌≡◌, ◌≢◌, ◌≤◌};

/// How long the worker waits while spans come, in milliseconds.
const LOOK_MS: u64 = 1;

/// How long it waits while none comes, and while it isn't time to send a batch again.
pub(super) const PAUSE_MS: u64 = 5;

/// So many looks in a row find no further span before the worker waits longer: a second of them.
const QUIET_LOOKS: u32 = 1000;

/// What a worker's looks found so far.
#[derive(Clone, Copy, Default)]
pub(crate) struct Pace {
    // How many spans were accepted in all, at the last look.
    accepted: u64,
    // How many looks in a row found no further one.
    quiet: u32,
}

impl Pace {
    /// How long to wait after a look that found so many spans accepted in all, in milliseconds.
    pub(super) fn next_ms(&mut self, accepted: u64) -> u64
        ensures seen { self.new.accepted ≡ accepted }
        ensures waits { 1 ≤ result }
        ensures looks { result ≤ 5 }
        ensures came { accepted ≢ self.old.accepted → result ≡ 1 }
    {
        if accepted != self.accepted {
            *self = Pace { accepted, quiet: 0 };
            return LOOK_MS;
        }
        if self.quiet >= QUIET_LOOKS {
            return PAUSE_MS;
        }
        self.quiet += 1;
        LOOK_MS
    }
}
