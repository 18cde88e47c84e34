//! Why the program ends before its time, and how that is reported.

ghost use Rattle.std.specs.Prelude.{◌≡◌, ◌⊎◌};
ghost use Rattle.otlp_collector.specs.Failures.{status_of};

use std::io::{ErrorKind, Write};
use thiserror::Error;

/// Why the program ends before all connections are served.
#[derive(Debug, Clone, Copy, PartialEq, Eq, Error)]
pub enum Failure {
    /// This port of 127.0.0.1 can't be listened at, for this cause.
    #[error("cannot listen on 127.0.0.1:{0}: {1}; choose another --port")]
    Listen(u16, ErrorKind),
    /// A line can't be written.
    #[error("cannot write")]
    Write,
    /// Memory was refused.
    #[error("out of memory")]
    OutOfMemory,
}

impl Failure {
    /// The status that the program ends with: 3 for memory, and else 1.
    pub fn status(self) -> u8
        ensures { result ≡ status_of self }
    {
        match self {
            Failure::Listen(..) | Failure::Write => 1,
            Failure::OutOfMemory => 3,
        }
    }
}

/// Reports a failure and answers its status, or 1 where it can't be reported.
pub fn tell<F: Write>(faults: &mut F, failure: Failure) -> u8
    ensures { (result ≡ status_of failure) ⊎ (result ≡ 1) }
{
    match writeln!(faults, "{failure}") {
        Ok(()) => failure.status(),
        Err(_) => 1,
    }
}
