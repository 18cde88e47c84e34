//! The command line of `trace-script`.
ghost use Rattle.std.specs.Prelude.{◌≡◌, IfErr, IfOk, true, false};
ghost use Rattle.program_args.specs.Words.{IsCause};
ghost use Rattle.trace_script.specs.Command.{AskForBody, AskForRun, IsTaken, command};

use program_args::{ArgFault, CommandLine, FlagOption};
use std::alloc::Global;

/// `--body`.
const BODY: FlagOption<'static> = FlagOption {
    name: "body",
    help: "Print, in hexadecimal, the body that exports the spans which the script ends",
};

/// The options, and what the program does.
const LINE: CommandLine<'static> = CommandLine {
    program: "trace-script",
    about: "Runs a script of spans on standard input",
    numbers: &[],
    texts: &[],
    flag: Some(BODY),
};

/// Reads the words of the command line, of which the first is the program's name. The answer is
/// whether they ask for the body.
///
/// # Errors
///
/// A mistake, a request for help or for the version, or refused memory.
pub fn read_words(alloc: Global, words: &[String]) -> Result<bool, ArgFault>
    ensures taken { IfOk result (λ _. IsTaken words.now) }
    ensures set { AskForBody words.now → IfOk result (λ body. body ≡ true) }
    ensures unset { AskForRun words.now → IfOk result (λ body. body ≡ false) }
    ensures refused { IfErr result (IsCause command words.now) }
{
    let found = LINE.read(alloc, words)?;
    Ok(found.is_set)
}
