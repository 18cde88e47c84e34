//! `otlp-relay` receives spans by OTLP/HTTP, keeps them in memory or on a disk, and hands them on to a
//! collector.
//!
//! [`RelayArgs`](args::RelayArgs) are its arguments, and [`run_relay`] is the whole program, over a
//! runtime and writers. Its peers are served by turns, by `http_listener`, on the thread that calls
//! it; a second thread sends. What it answers for is kept by `relay_store`, in memory or in a spool,
//! whose folder [`Folders`] open.
#![tactic(auto)]

mod address;
mod args;
mod balance;
mod collector;
mod course;
mod failure;
mod folder;
mod header;
mod keeping;
mod lost;
mod moments;
mod names;
mod program;
mod report;
mod sending;
mod serving;
mod settings;
mod target;
mod told;

use crate::folder::Folders;
use crate::program::{Outside, run_relay};
use relay_store::RelayBlank;
use std::io::BufWriter;
use std::marker::Brand;
use std::process::ExitCode;
use std::{env, io};
use timely_log::{Log, SharedLog};

/// The descriptors of standard input and of standard error.
const INPUT: i32 = 0;

const FAULTS: i32 = 2;

fn main(rt: HostRuntime) -> io::Result<ExitCode> {
    let mut words = Vec::new(rt.alloc());
    for word in env::args(&rt)? {
        words.push(word)?;
    }
    let mut output = BufWriter::new(rt.alloc(), io::writer(&rt))?;
    let log = SharedLog::new(rt, rt.alloc(), rt.stderr(), FAULTS)?;
    let mut faults = log.try_clone()?;
    let outside = Outside {
        folders: Folders { rt },
        input: INPUT,
        log,
    };
    // `Brand` stands for the name of this one relay, which the types of its accounts have.
    let status = run_relay::<Brand, _, _, _, _>(
        rt,
        rt.alloc(),
        RelayBlank::new(),
        outside,
        words.as_slice(),
        &mut output,
        &mut faults,
    );
    Ok(ExitCode::from(status))
}
