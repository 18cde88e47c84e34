//! Tests of `batch_processor`: what is done on one thread, written down answer by answer, each
//! refusal of memory, and threads; and two processors side by side.

#[cfg(test)]
mod cases;
#[cfg(test)]
mod collector;
mod neighbors;
#[cfg(test)]
mod player;
#[cfg(test)]
mod refusals;
#[cfg(test)]
mod tasks;
#[cfg(test)]
mod threads;

pub use neighbors::close_two;
