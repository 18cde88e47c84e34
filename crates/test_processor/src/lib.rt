//! Tests of the two processors over their public calls. Of each: what it answers on one thread,
//! with memory that is refused at each place in turn, and what its threads do with each other; of
//! the batch processor's worker, what it sends and when again, and what is left when it leaves.
//! And two processors side by side.
#![tactic(auto)]

pub mod batch;
#[cfg(test)]
mod bodies;
#[cfg(test)]
mod clocks;
#[cfg(test)]
mod equal;
#[cfg(test)]
mod notes;
#[cfg(test)]
mod roots;
pub mod simple;
#[cfg(test)]
mod texts;
