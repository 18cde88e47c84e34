//! The program `otlp-collector` as a library, over a runtime, readers and writers: a collector of
//! spans that prints them (OTLP Specification, "OTLP/HTTP").
//!
//! - [`answer`] reads the one request of a connection and answers it.
//! - [`print_spans`] prints the spans of a request as lines, of words with a space between them
//!   (profile).
//! - [`serve`] does both for one connection, [`collect`] for one connection after another, and
//!   [`run_collector`] is the whole program.
#![tactic(auto)]

mod args;
mod canned;
mod connection;
mod failure;
mod judge;
mod line;
mod link;
mod print;
mod print_fault;
mod program;
mod served;
mod value;
mod words;

pub use args::{CollectorArgs, DEFAULT_COUNT, DEFAULT_MAX_BODY, DEFAULT_PORT};
pub use canned::{Canned, CannedStatus};
pub use connection::{Answered, answer};
pub use print::print_spans;
pub use print_fault::PrintFault;
pub use program::{collect, run_collector};
pub use served::{print_connection, serve};
