//! Worked examples of the model of a trace export (crates `model_message`, `model_span`,
//! `model_export`): bytes and values that were written out by hand. The checker computes what the
//! definitions make of each, and compares.
//!
//! Each function is a group of examples. Its clauses are the examples, and it does nothing when it
//! is called. In them `hex "0a 3e"` is a list of bytes and `codes "a"` a text. `span_a` is a root
//! span named `a` in a scope named `s`, started at 1 and ended at 2, on which the calls after it
//! were made.
#![tactic(auto)]

pub mod attributes;
pub mod bodies;
pub mod calls;
pub mod edges;
pub mod faults;
pub mod history;
pub mod identifiers;
pub mod readings;
pub mod responses;
pub mod starts;
pub mod values;
