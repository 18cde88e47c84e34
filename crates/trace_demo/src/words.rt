//! The command line of `trace-demo`.
ghost use Rattle.std.specs.Prelude.{IfErr, IfOk};
ghost use Rattle.program_args.specs.Faults.{IsMistake};
ghost use Rattle.program_args.specs.Words.{IsTaken};
ghost use Rattle.trace_demo.specs.Args.{IsInRange};
ghost use Rattle.trace_demo.specs.Command.{IsAskedBy, IsCause, command};

use crate::args::{DEFAULT_SLACK, DemoArgs};
use program_args::{ArgFault, CommandLine, FlagOption, NumberOption};
use std::alloc::Global;

/// How many spans wait at most, where that isn't named. (profile)
const DEFAULT_QUEUE: u64 = 64;

/// How many spans a batch has at most, where that isn't named. (profile)
const DEFAULT_BATCH: u64 = 16;

/// The options that take a number.
const NUMBERS: [NumberOption<'static>; 7] = [
    NumberOption {
        name: "seed",
        value: "N",
        least: 0,
        most: u64::MAX,
        default: 1,
        help: "The first thread's seed; each further one is one more [default: 1]",
    },
    NumberOption {
        name: "threads",
        value: "N",
        least: 1,
        most: 63,
        default: 4,
        help: "How many threads end spans: 1 to 63 [default: 4]",
    },
    NumberOption {
        name: "spans",
        value: "N",
        least: 1,
        most: 1_000_000,
        default: 1000,
        help: "How many spans each of them ends: 1 to 1,000,000 [default: 1000]",
    },
    NumberOption {
        name: "queue",
        value: "N",
        least: 1,
        most: 65_536,
        default: DEFAULT_QUEUE,
        help: "How many spans wait at most: 1 to 65,536 [default: 64]",
    },
    NumberOption {
        name: "batch",
        value: "N",
        least: 1,
        most: 65_536,
        default: DEFAULT_BATCH,
        help: "How many spans a batch has at most: 1 to as many as wait [default: 16]",
    },
    NumberOption {
        name: "soak",
        value: "N",
        least: 0,
        most: 1_000_000_000,
        default: 0,
        help: "Ends N spans in all, over links that fail at random, and balances them",
    },
    NumberOption {
        name: "slack",
        value: "KB",
        least: 0,
        most: u64::MAX,
        default: DEFAULT_SLACK,
        help: "By how many kB memory may rise after a soak's first rounds [default: 2048]",
    },
];

/// The command line.
const LINE: CommandLine<'static> = CommandLine {
    program: "trace-demo",
    about: "Ends spans on threads, and posts them to a collector of its own",
    numbers: &NUMBERS,
    texts: &[],
    flag: Some(FlagOption {
        name: "verbose",
        help: "Shows counts on standard error",
    }),
};

impl DemoArgs {
    /// Reads the words of the command line, of which the first is the program's name: `--seed`,
    /// `--threads`, `--spans`, `--queue`, `--batch`, `--soak` and `--slack`, each with a number
    /// after it, and each at most once; and `--verbose`. Numbers that are left out are 1, 4, 1000,
    /// 64, 16, 0 and 2048.
    ///
    /// # Errors
    ///
    /// `Help` and `Version` where the words ask for them. `Mistake` where a word isn't known, an
    /// option is twice or without its number, a number is none or out of its range, or the batch is
    /// larger than the queue. `OutOfMemory` where memory was refused.
    pub fn read(alloc: Global, words: &[String]) -> Result<DemoArgs, ArgFault>
        ensures taken { IfOk result (λ _. IsTaken command words.now) }
        ensures values { IfOk result (IsAskedBy words.now) }
        ensures in_range { IfOk result (λ a. IsInRange a.threads a.spans a.queue a.batch) }
        ensures refused { IfErr result (IsCause words.now) }
    {
        let found = LINE.read(alloc, words)?;
        let (seed, spans) = (found.numbers[0], found.numbers[2]);
        let threads = found.numbers[1] as usize;
        let (queue, batch) = (found.numbers[3] as usize, found.numbers[4] as usize);
        match DemoArgs::new(seed, threads, spans, queue, batch) {
            Some(mut args) => {
                args.soak = found.numbers[5];
                args.slack = found.numbers[6];
                args.is_verbose = found.is_set;
                Ok(args)
            }
            None => Err(large_batch(alloc, &LINE, batch as u64, queue as u64)),
        }
    }
}

/// The mistake that a batch is larger than the queue.
fn large_batch(alloc: Global, line: &CommandLine<'_>, batch: u64, queue: u64) -> ArgFault
    ensures { IsMistake result }
{
    let (of_batch, of_queue) = (note(batch, DEFAULT_BATCH), note(queue, DEFAULT_QUEUE));
    let cause = format!(in alloc;
        "the batch is larger than the queue: --batch is {batch}{of_batch}, \
         --queue is {queue}{of_queue}"
    );
    match cause {
        Ok(cause) => line.mistake(alloc, cause.as_str()),
        Err(_) => ArgFault::OutOfMemory,
    }
}

/// What is said after a number that is an option's default.
fn note(number: u64, default: u64) -> &'static str {
    if number == default {
        " (its default)"
    } else {
        ""
    }
}
