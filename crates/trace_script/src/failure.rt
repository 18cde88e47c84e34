//! Why a script has no answer, and how it is reported.
ghost use Rattle.std.specs.Prelude.{◌≡◌, ◌⊎◌};
ghost use Rattle.trace_script.specs.Program.{status_of};

use crate::parse::ScriptError;
use otlp_ids::OutOfMemory;
use otlp_proto::EncodeFault;
use std::io::Write;
use thiserror::Error;

/// Why a script has no answer.
#[derive(Debug, Drop, Error)]
pub enum Failure {
    /// The script cannot be read.
    #[error("cannot read the script")]
    Read,
    /// The answer cannot be written.
    #[error("cannot write the answer")]
    Write,
    /// The text is no script, or there was no memory to read it.
    #[error("{0}")]
    Script(ScriptError),
    /// Memory was refused.
    #[error("out of memory")]
    OutOfMemory,
    /// The body would have more bytes than the script's greatest.
    #[error("too large")]
    TooLarge,
}

impl Failure {
    /// The status that the program ends with.
    pub fn status(&self) -> u8
        ensures { result ≡ status_of self.now }
    {
        match self {
            Failure::Read | Failure::Write => 1,
            Failure::Script(ScriptError::BadLine(_)) => 2,
            Failure::Script(ScriptError::OutOfMemory) | Failure::OutOfMemory | Failure::TooLarge =>
                3,
        }
    }
}

impl From<OutOfMemory> for Failure {
    ghost use Rattle.std.specs.Prelude.{◌≡◌};
    ghost use Rattle.trace_script.specs.declared.failure.Failure.{Failure};
    ghost use Rattle.trace_script.specs.declared.failure.Failure.TheVariants as failures;

    ghost from_gives = { λ _ failure. failure ≡ failures.OutOfMemory };

    fn from(_: OutOfMemory) -> Failure {
        Failure::OutOfMemory
    }
}

impl From<EncodeFault> for Failure {
    ghost use Rattle.std.specs.Prelude.{◌≡◌};
    ghost use Rattle.trace_script.specs.Program.{failure_of};

    ghost from_gives = { λ fault failure. failure ≡ failure_of fault };

    fn from(fault: EncodeFault) -> Failure {
        match fault {
            EncodeFault::OutOfMemory => Failure::OutOfMemory,
            EncodeFault::TooLarge => Failure::TooLarge,
        }
    }
}

/// Reports a failure and answers its status, or 1 where it can't be reported.
pub fn tell<F: Write>(faults: &mut F, failure: &Failure) -> u8
    ensures { (result ≡ status_of failure.now) ⊎ (result ≡ 1) }
{
    match writeln!(faults, "{failure}") {
        Ok(()) => failure.status(),
        Err(_) => 1,
    }
}
