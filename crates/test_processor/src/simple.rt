//! Tests of `simple_processor`: what it answers on one thread, each refusal of memory, and threads
//! that share one exporter; and two processors side by side.

mod neighbors;
#[cfg(test)]
mod one_thread;
#[cfg(test)]
mod threads;

pub use neighbors::close_two;
