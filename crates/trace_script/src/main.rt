//! `trace-script` reads a script of spans on standard input, runs it, and prints what each step was
//! answered and what is left; or the body of the request that exports the sampled spans that it
//! ends.
//!
//! [`trace_script`] is the whole program, over readers and writers. The language of scripts is
//! explained in `src/parse.rt`.
#![tactic(auto)]

mod call;
mod command;
mod context;
mod draft;
mod failure;
mod line;
mod outcome;
mod parse;
mod program;
mod recorder;
mod sampler;
mod scope;
mod step;
mod text;
mod value;

use crate::program::trace_script;
use std::io::{BufReader, BufWriter};
use std::process::ExitCode;
use std::{env, io};

fn main(rt: HostRuntime) -> io::Result<ExitCode> {
    let mut words = Vec::new(rt.alloc());
    for word in env::args(&rt)? {
        words.push(word)?;
    }
    let mut input = BufReader::new(rt.alloc(), rt.reader())?;
    let mut output = BufWriter::new(rt.alloc(), io::writer(&rt))?;
    let mut faults = rt.stderr();
    let words = words.as_slice();
    let status = trace_script(rt.alloc(), words, &mut input, &mut output, &mut faults);
    Ok(ExitCode::from(status))
}
