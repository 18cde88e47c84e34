//! A test over public calls of `trace_run`: runs in which memory, wires, replies and clocks fail at
//! random, whose bodies are read without the code that wrote them. What a run answers and prints is
//! tried by the stored runs of `trace-script`, in examples/. The crate has no items of its own.
#![tactic(auto)]

#[cfg(test)]
mod tests;
