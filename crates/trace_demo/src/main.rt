//! `trace-demo` ends spans on threads, posts them to a collector of its own, some of whose replies
//! are those of one that fails, and prints what became of them. Or, as a soak, it does so for as
//! long as is asked for, over links that fail at random, and looks for each span again.
#![tactic(auto)]

mod args;
mod batches;
mod ends;
mod live;
mod program;
mod soak;
mod sums;
mod words;

use crate::program::trace_demo;
use std::process::ExitCode;
use std::{env, io};

fn main(rt: HostRuntime) -> io::Result<ExitCode> {
    let mut words = Vec::new(rt.alloc());
    for word in env::args(&rt)? {
        words.push(word)?;
    }
    let (mut output, mut faults) = (rt.stdout(), rt.stderr());
    let status = trace_demo(rt, rt.alloc(), &words, &mut output, &mut faults);
    Ok(ExitCode::from(status))
}
