//! Tests of what a service comes to, over public calls of `batch_service`: threads end spans on its
//! passes while its worker sends them. And of the spans of one thread, over those of
//! `thread_tracer`: in depth, out of order, and where memory is refused. And of `traced_service`: a
//! whole service by settings, and by the environment. The crate has no items of its own.
#![tactic(auto)]

#[cfg(test)]
mod tests;
