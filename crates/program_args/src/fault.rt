//! Why the words of a command line ask for no run, and how that is reported.
ghost use Rattle.std.specs.Prelude.{◌≡◌, ◌≤◌, ◌⊎◌};
ghost use Rattle.std.specs.Io.KnownBytes.{Keeps};
ghost use Rattle.program_args.specs.Faults.{IsMistake, fault_of_error, status_of};
ghost use Rattle.program_args.specs.declared.fault.ArgFault.TheVariants as faults;

use clap::Error;
use clap::error::ErrorKind;
use std::alloc::AllocError;
use std::fmt::Display;
use std::io;
use std::io::Write;

/// Why the words of a command line ask for no run.
#[derive(Debug, Drop, thiserror::Error)]
pub enum ArgFault {
    /// They ask for help, which is the text.
    #[error("{0}")]
    Help(Error),
    /// They ask for the version, which is the text: the program's name and `VERSION`.
    #[error("{0}")]
    Version(Error),
    /// A word isn't known, an option is twice or without what it takes, a number is none or out of
    /// its range, or options don't go together.
    #[error("{0}")]
    Mistake(Error),
    /// Memory was refused.
    #[error("out of memory")]
    OutOfMemory,
}

impl From<Error> for ArgFault {
    ghost from_gives = { λ error fault. fault ≡ fault_of_error error };

    fn from(error: Error) -> ArgFault {
        match error.kind() {
            ErrorKind::DisplayHelp => ArgFault::Help(error),
            ErrorKind::DisplayVersion => ArgFault::Version(error),
            ErrorKind::OutOfMemory => ArgFault::OutOfMemory,
            _ => ArgFault::Mistake(error),
        }
    }
}

impl From<AllocError> for ArgFault {
    ghost from_gives = { λ _ fault. fault ≡ faults.OutOfMemory };

    fn from(_: AllocError) -> ArgFault {
        ArgFault::OutOfMemory
    }
}

impl ArgFault {
    /// Prints help or the version, or reports a mistake or refused memory. Answers the program's
    /// status: 0 after help or the version, 2 for a mistake, 3 for memory, or 1 where the text
    /// can't be written. Help or a version that can't be written is reported as `cannot write`.
    pub fn tell<W: Write, F: Write>(&self, output: &mut W, faults: &mut F) -> u8
        ensures status { (result ≡ status_of self.now) ⊎ (result ≡ 1) }
        ensures quiet { 2 ≤ result → Keeps (W.contents output.old) (W.contents output.new) }
        ensures unasked { IsMistake self.now
            → Keeps (W.contents output.old) (W.contents output.new) }
        ensures untold { result ≡ 0 → Keeps (F.contents faults.old) (F.contents faults.new) }
    {
        match self {
            ArgFault::Help(text) | ArgFault::Version(text) => match print_text(output, text) {
                Ok(()) => 0,
                Err(_) => tell_unwritten(faults),
            },
            ArgFault::Mistake(text) => status_after(print_text(faults, text), 2),
            ArgFault::OutOfMemory => status_after(print_text(faults, &"out of memory\n"), 3),
        }
    }
}

/// Reports on `faults` that the program's output can't be written, as `cannot write`. Answers the
/// program's status, which is 1.
pub fn tell_unwritten<F: Write>(faults: &mut F) -> u8
    ensures { result ≡ 1 }
{
    // Where this can't be written either, the status alone says it.
    let _ = print_text(faults, &"cannot write\n");
    1
}

/// This status after a text that was written, and else 1.
fn status_after(told: io::Result<()>, status: u8) -> u8
    ensures { (result ≡ status) ⊎ (result ≡ 1) }
{
    match told {
        Ok(()) => status,
        Err(_) => 1,
    }
}

/// Writes a text, and flushes.
fn print_text<W: Write>(writer: &mut W, text: &impl Display) -> io::Result<()> {
    write!(writer, "{text}")?;
    writer.flush()
}
