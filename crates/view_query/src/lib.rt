//! Searches of kept spans: what a search text asks for, and which traces it finds.
//!
//! A text such as `service=payments duration>100ms -root` is read into a [`Query`], or it has a
//! [`Mistake`] at a place. A trace is found where one of its spans fulfils all terms. (profile)
#![tactic(auto)]

mod compare;
mod fault;
mod lex;
mod number;
mod parse;
mod query;
mod term;
mod test;
mod worked;

pub use fault::{Mistake, SearchFault, Why};
pub use query::Query;
