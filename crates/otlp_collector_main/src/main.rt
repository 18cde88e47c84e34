//! `otlp-collector` serves OTLP/HTTP on 127.0.0.1: so many connections, one after another, and
//! prints the spans of each request that it takes.
#![tactic(auto)]

use otlp_collector::run_collector;
use std::io::BufWriter;
use std::process::ExitCode;
use std::{env, io};

fn main(rt: HostRuntime) -> io::Result<ExitCode> {
    let mut words = Vec::new(rt.alloc());
    for word in env::args(&rt)? {
        words.push(word)?;
    }
    let mut output = BufWriter::new(rt.alloc(), io::writer(&rt))?;
    let mut faults = rt.stderr();
    let words = words.as_slice();
    let status = run_collector(&rt, rt.alloc(), words, &mut output, &mut faults);
    Ok(ExitCode::from(status))
}
