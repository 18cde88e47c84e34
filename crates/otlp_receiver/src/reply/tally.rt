//! What a service counts beside its spans.

ghost use Rattle.std.specs.Prelude.{◌≡◌, ◌+◌, ℕ, IfSome, List, min, replicate};
ghost use Rattle.otlp_receiver.specs.Tallies.{CountsAnswer, MOST, Tally, count_of};

use http::StatusCode;
use std::marker::Model;

/// How many statuses there may be: 100 to 999 (RFC 9110, section 15).
const STATUSES: usize = 900;

/// How many connections came, and how many answers were given with each status. Each number stops
/// at 2^64 - 1.
#[derive(Debug, Drop)]
pub struct Tallies {
    connections: u64,
    answers: [u64; 900],
}

impl Model for Tallies {
    ghost use Rattle.otlp_receiver.specs.Tallies.{Tally};

    ghost Value = { Tally };

    ghost view = { λ t. record {
      connections = t.connections;
      answers = t.answers;
    } };
}

impl Tallies {
    /// Nothing was counted yet.
    pub fn new() -> Tallies
        ensures { result ≡ record { connections = 0; answers = replicate 900 0 } }
    {
        Tallies {
            connections: 0,
            answers: [0; STATUSES],
        }
    }

    /// Counts a connection.
    pub fn count_connection(&mut self)
        ensures { self.new ≡ record self.old {
          connections = min (self.old.connections + 1) MOST;
        } }
    {
        self.connections = self.connections.saturating_add(1);
    }

    /// Counts an answer.
    pub fn count_answer(&mut self, status: StatusCode)
        ensures { CountsAnswer self.old self.new status }
    {
        let place = usize::from(status.as_u16()) - 100;
        self.answers[place] = self.answers[place].saturating_add(1);
    }

    /// How many connections came.
    pub fn connections(&self) -> u64
        ensures { result ≡ self.now.connections }
    {
        self.connections
    }

    /// How many answers had a status.
    pub fn answers(&self, status: StatusCode) -> u64
        ensures { result ≡ count_of self.now status }
    {
        self.answers[usize::from(status.as_u16()) - 100]
    }
}

impl Default for Tallies {
    /// As `Tallies::new`.
    fn default() -> Tallies {
        Tallies::new()
    }
}
