//! Tests, over public calls alone, of what keeps a relay's bodies (`relay_store`, `relay_queue`), of
//! its spool, and of how its service keeps posts together. The crate has no items of its own.
//!
//! What is kept and sent, sent again, lost, given up and read at a start is a table of steps with
//! their answers, in memory and over a spool. A device fails at each call in turn, a file changes
//! while it is open, and thousands of bodies are kept by a thread while another one sends them. Each
//! call for memory is refused once.
#![tactic(auto)]

#[cfg(test)]
mod tests;
