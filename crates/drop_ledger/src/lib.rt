//! The names of spans that aren't delivered: where they wait, and where they go then (profile).
//!
//! A [`Ledger`] has them, the newest first. Each name is kept on its own span's slip, so that
//! naming a span takes no memory. [`DropCounts`] counts them by reason.
//!
//! A [`NameSink`] takes the names that are popped from the ledgers: [`NewestNames`] keeps the
//! newest of them, and [`NameLines`] writes a line for each.
#![tactic(auto)]

mod counts;
mod history;
mod ledger;
mod lines;
mod names;
mod newest;
mod reason_counts;
mod sink;

pub use counts::DropCounts;
pub use ledger::Ledger;
pub use lines::NameLines;
pub use names::{DEFAULT_NAMES, NewestNames};
pub use reason_counts::ReasonCounts;
pub use sink::NameSink;
