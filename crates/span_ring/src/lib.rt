//! A bounded ring of items, which go in one by one and leave in runs, first come, first out.
//!
//! [`SpanRing::new`] takes all the memory that a ring ever needs: for the items that wait, and for
//! the one run that may be out. No later call takes any, so none can fail for lack of it. The
//! memory is in segments, and a run is one of them, taken out whole: no item is moved for it.
#![tactic(auto)]

mod fault;
mod places;
mod ring;
mod room;
mod run;
mod segment;
mod segments;

pub use fault::RingFault;
pub use ring::{MAX_QUEUE, SpanRing};
pub use run::Run;
