//! The command line of a program whose options take numbers and texts: it is read by clap's rules,
//! and why it asks for no run is reported, with the status that the program ends with.
#![tactic(auto)]

mod fault;
mod line;
mod read;

pub use fault::{ArgFault, tell_unwritten};
pub use line::{CommandLine, FlagOption, NumberOption, TextOption};
pub use otlp_ids::VERSION;
pub use read::OptionValues;
