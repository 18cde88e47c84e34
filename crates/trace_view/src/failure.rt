//! Why the program ends, and how that is reported.

ghost use Rattle.std.specs.Prelude.{◌≡◌, ◌⊎◌};
ghost use Rattle.trace_view.specs.Failures.{status_of};

use http_listener::ListenFault;
use std::io::Write;
use std::net::SocketAddr;
use thiserror::Error;

/// Why the program ends.
#[derive(Debug, Clone, Copy, PartialEq, Eq, Error)]
pub enum Failure {
    /// This address can't be listened at.
    #[error("cannot listen on {0}: {1}")]
    Listen(SocketAddr, ListenFault),
    /// The system gave no random numbers, by which traces are found whatever their identifiers are.
    #[error("cannot get random numbers from the system; try again, or let the process ask for them")]
    Random,
    /// The system refused what is needed to wait for connections.
    #[error("cannot wait for connections: the system refused it; let the process open more files")]
    Wait,
    /// The line with the address can't be written.
    #[error("cannot write the address to standard output; start with one that can be written to")]
    Write,
    /// Memory was refused.
    #[error("out of memory; start with a smaller --keep-mb or --pending-mb, or with more memory")]
    OutOfMemory,
}

impl Failure {
    /// The status that the program ends with: 3 for memory, and else 1.
    pub fn status(self) -> u8
        ensures { result ≡ status_of self }
    {
        match self {
            Failure::Listen(..) | Failure::Random | Failure::Wait | Failure::Write => 1,
            Failure::OutOfMemory => 3,
        }
    }
}

/// Reports a failure and answers its status, or 1 where it can't be reported.
pub(crate) fn tell<F: Write>(faults: &mut F, failure: Failure) -> u8
    ensures { (result ≡ status_of failure) ⊎ (result ≡ 1) }
{
    match writeln!(faults, "{failure}") {
        Ok(()) => failure.status(),
        Err(_) => 1,
    }
}
