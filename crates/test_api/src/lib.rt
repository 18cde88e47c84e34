//! Tests, over public calls alone, of what a program makes spans with.
//!
//! Contracts say what each call answers. What they leave open is here: that memory which is there
//! is used, that each call for memory may be refused, how large lists and texts are taken, and how
//! faults are displayed. The crate has no items of its own.
#![tactic(auto)]

#[cfg(test)]
mod tests;
