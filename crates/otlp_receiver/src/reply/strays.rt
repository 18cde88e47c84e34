//! Which signals beside traces were posted.

ghost use Rattle.std.specs.Prelude.{◌≡◌, false};
ghost use Rattle.otlp_receiver.specs.Strays.{noted};

use crate::reply::denial::Denial;

/// Which signals beside traces were posted to a service, so that a program can say so once for each.
#[derive(Clone, Copy, Debug, PartialEq, Eq)]
pub struct Strays {
    /// Metrics were.
    pub metrics: bool,
    /// Logs were.
    pub logs: bool,
}

impl Strays {
    /// None were yet.
    pub fn new() -> Strays
        ensures { result ≡ record { metrics = false; logs = false } }
    {
        Strays {
            metrics: false,
            logs: false,
        }
    }

    /// Notes that a request was refused for this reason.
    pub fn note(&mut self, denial: Denial)
        ensures { self.new ≡ noted self.old denial }
    {
        match denial {
            Denial::NoMetrics => self.metrics = true,
            Denial::NoLogs => self.logs = true,
            _ => {}
        }
    }
}

impl Default for Strays {
    /// As `Strays::new`.
    fn default() -> Strays {
        Strays::new()
    }
}
