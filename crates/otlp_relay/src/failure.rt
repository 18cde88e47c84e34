//! Why the program ends, and how that is reported.

ghost use Rattle.std.specs.Prelude.{◌≡◌, ◌⊎◌};
ghost use Rattle.otlp_relay.specs.Failures.{status_of};

use http_listener::ListenFault;
use std::io::Write;
use std::net::SocketAddr;
use thiserror::Error;

/// Why the program ends before it is stopped.
#[derive(Debug, Clone, Copy, PartialEq, Eq, Error)]
pub enum Failure {
    /// This address can't be listened at.
    #[error("cannot listen on {0}: {1}")]
    Listen(SocketAddr, ListenFault),
    /// The folder of the spool can't be made, read or written, or another program has it.
    #[error("cannot open the spool: the folder can't be made, read or written, or another program has \
        it; choose another --spool, or let the process write there")]
    Spool,
    /// The folder of the spool has files of several spools.
    #[error("cannot open the spool: the numbers of its files overlap, so they are of several spools; \
        move the files of the others to folders of their own")]
    Overlap,
    /// A body that waits in the spool is above the memory that bodies may take: an earlier run had
    /// more.
    #[error("a body that waits in the spool is larger than --memory-mb; start with a larger one")]
    LargeBody,
    /// The file for the names of lost spans can't be opened.
    #[error("cannot open the file of --names; choose another, or let the process write there")]
    Names,
    /// The system refused a thread.
    #[error("cannot start the thread that sends; let the process have more threads")]
    Thread,
    /// The system refused what is needed to wait for connections.
    #[error("cannot wait for connections: the system refused it; let the process open more files")]
    Wait,
    /// A line can't be written.
    #[error("cannot write to standard output; start with one that can be written to")]
    Write,
    /// So many names of lost spans are not written, since that failed.
    #[error("{0} names of lost spans could not be written; see that the disk of --names has room, and \
        that standard error is read")]
    Unwritten(u64),
    /// Memory was refused.
    #[error("out of memory; start with a smaller --memory-mb or --pending-mb, or with more memory")]
    OutOfMemory,
}

impl Failure {
    /// The status that the program ends with: 3 for memory, and else 1.
    pub fn status(self) -> u8
        ensures { result ≡ status_of self }
    {
        match self {
            Failure::Listen(..)
            | Failure::Spool
            | Failure::Overlap
            | Failure::LargeBody
            | Failure::Names
            | Failure::Thread
            | Failure::Wait
            | Failure::Write
            | Failure::Unwritten(_) => 1,
            Failure::OutOfMemory => 3,
        }
    }
}

/// Reports a failure and answers its status, or 1 where it can't be reported.
pub(crate) fn tell<F: Write>(faults: &mut F, failure: Failure) -> u8
    ensures { (result ≡ status_of failure) ⊎ (result ≡ 1) }
{
    match writeln!(faults, "otlp-relay: {failure}") {
        Ok(()) => failure.status(),
        Err(_) => 1,
    }
}
