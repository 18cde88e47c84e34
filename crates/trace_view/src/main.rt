//! `trace-view` receives spans by OTLP/HTTP, keeps the newest traces, and shows them in a browser.
//!
//! [`ViewArgs`](args::ViewArgs) are its arguments, and [`run_view`] is the whole program, over a
//! runtime and writers. Its peers are served by turns, by `http_listener`.
#![tactic(auto)]

mod address;
mod args;
mod failure;
mod origins;
mod program;
mod report;

use crate::program::run_view;
use std::io::BufWriter;
use std::process::ExitCode;
use std::{env, io};
use view_service::Site;

fn main(rt: HostRuntime) -> io::Result<ExitCode> {
    let mut words = Vec::new(rt.alloc());
    for word in env::args(&rt)? {
        words.push(word)?;
    }
    let mut output = BufWriter::new(rt.alloc(), io::writer(&rt))?;
    let mut faults = rt.stderr();
    let site = Site::new(rt.alloc());
    let words = words.as_slice();
    let status = run_view(rt, rt.alloc(), site, words, &mut output, &mut faults);
    Ok(ExitCode::from(status))
}
