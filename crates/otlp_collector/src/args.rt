//! The command line of `otlp-collector`.
ghost use Rattle.std.specs.Prelude.{◌≡◌, codes, IfErr, IfOk};
ghost use Rattle.program_args.specs.Words.{IsCause, IsTaken, number_in};
ghost use Rattle.otlp_collector.specs.Command.{command};

use program_args::{ArgFault, CommandLine, NumberOption};
use std::alloc::Global;

/// The port where none is named, that of OTLP/HTTP (OTLP Specification, "OTLP/HTTP Default Port").
pub const DEFAULT_PORT: u16 = 4318;

/// How many connections are served where that isn't named. (profile)
pub const DEFAULT_COUNT: u64 = 1;

/// The most bytes of a body where that isn't named: 16 MiB. (profile)
pub const DEFAULT_MAX_BODY: u64 = 16_777_216;

/// What the command line asks for.
#[derive(Clone, Copy, Debug, PartialEq, Eq)]
pub struct CollectorArgs {
    /// `--port`: the port to listen at. 0 takes a free one.
    pub port: u16,
    /// `--count`: how many connections are served.
    pub count: u64,
    /// `--max-body`: the most bytes of a body.
    pub max_body: u64,
}

/// `--port P`.
const PORT: NumberOption<'static> = NumberOption {
    name: "port",
    value: "P",
    least: 0,
    most: 65_535,
    default: DEFAULT_PORT as u64,
    help: "The port to listen at, where 0 takes a free one [default: 4318]",
};

/// `--count N`.
const COUNT: NumberOption<'static> = NumberOption {
    name: "count",
    value: "N",
    least: 0,
    most: u64::MAX,
    default: DEFAULT_COUNT,
    help: "How many connections to serve [default: 1]",
};

/// `--max-body BYTES`.
const MAX_BODY: NumberOption<'static> = NumberOption {
    name: "max-body",
    value: "BYTES",
    least: 0,
    most: u64::MAX,
    default: DEFAULT_MAX_BODY,
    help: "The most bytes of a request's body [default: 16777216]",
};

/// The options, in the order of help.
const NUMBERS: [NumberOption<'static>; 3] = [PORT, COUNT, MAX_BODY];

impl CollectorArgs {
    /// Reads the words of the command line, of which the first is the program's name. An option
    /// that they don't name has its default.
    ///
    /// # Errors
    ///
    /// A mistake, a number past its bounds among them, a request for help or for the version, or
    /// refused memory.
    pub fn read(alloc: Global, words: &[String]) -> Result<CollectorArgs, ArgFault>
        ensures taken { IfOk result (λ _. IsTaken command words.now) }
        ensures port { IfOk result (λ args.
            args.port ≡ number_in command (codes "port") 4318 words.now) }
        ensures count { IfOk result (λ args.
            args.count ≡ number_in command (codes "count") 1 words.now) }
        ensures max_body { IfOk result (λ args.
            args.max_body ≡ number_in command (codes "max-body") 16_777_216 words.now) }
        ensures refused { IfErr result (IsCause command words.now) }
    {
        let line = CommandLine {
            program: "otlp-collector",
            about: "Serves OTLP/HTTP on 127.0.0.1, and prints the spans that it takes",
            numbers: &NUMBERS,
            texts: &[],
            flag: None,
        };
        let found = line.read(alloc, words)?;
        Ok(CollectorArgs {
            port: found.numbers[0] as u16,
            count: found.numbers[1],
            max_body: found.numbers[2],
        })
    }
}
