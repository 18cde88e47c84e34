//! What is shown of traces, whatever it is written in (profile).
//!
//! `TraceLines` owns the spans of a trace together with others, and finds step by step in which row
//! each span is and what is said of it beside the others: whether another span has its identifier,
//! and which colour its service has. No step takes time for all spans but three, which only move
//! numbers. `TraceText` is the text of the rows, written in pieces.
//!
//! [`Summary`] is what a list says of a trace, and [`Filter`] says which traces a list has. Times
//! are shares of the time of their trace, or days of the calendar ([`YearDay`], [`MonthDay`]).
#![tactic(auto)]

mod cut;
mod date;
mod filter;
mod gathered;
mod line;
mod planning;
mod repeat;
mod rows;
mod service;
mod summary;
mod text;
mod times;

pub use cut::front_of;
pub use date::{MonthDay, YearDay, month_of, year_of};
pub use filter::{Filter, FilterFault};
pub use line::Line;
pub use repeat::Mark;
pub use rows::TraceLines;
pub use summary::{Summary, summary_of_digest};
pub use text::TraceText;
pub use times::{ends_early, share_of, time_of, width_of};
