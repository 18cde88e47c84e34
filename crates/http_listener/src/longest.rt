//! Which peer is closed where there is no room for another one.
ghost use Rattle.std.specs.Prelude.{◌≡◌, [], ◌∷◌, ◌++◌, List};
ghost use Rattle.http_listener.specs.Waiting.{IsLongest};
ghost use Rattle.http_listener.specs.declared.longest.Waiter.{Waiter as AWaiter};

/// A peer that waits.
#[derive(Clone, Copy, Debug, PartialEq, Eq)]
pub struct Waiter {
    /// Its key.
    pub key: usize,
    /// Since when it waits, in milliseconds.
    pub since_ms: u64,
}

/// The one that has waited longest, of the peers that were looked at.
#[derive(Clone, Copy, Debug, PartialEq, Eq)]
pub struct Longest {
    /// It, or `None` where none was looked at.
    pub found: Option<Waiter>,
}

impl Longest {
    /// None was looked at.
    pub fn new() -> Longest
        ensures { IsLongest [] result.found }
    {
        Longest { found: None }
    }

    /// Looks at one more.
    pub fn look(&mut self, waiter: Waiter)
        ensures { (seen : List AWaiter) → IsLongest seen self.old.found
            → IsLongest (seen ++ waiter ∷ []) self.new.found }
    {
        match self.found {
            Some(found) if found.since_ms <= waiter.since_ms => {}
            _ => self.found = Some(waiter),
        }
    }
}
