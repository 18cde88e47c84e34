//! Tests, over public calls alone, of what is written and read for OTLP: messages as bytes and as
//! JSON, gzip files, trees of spans, and settings.
//!
//! Contracts say what is written, and what is read of each input. What they leave open is here:
//! that memory which is there is used, that each call for memory may be refused, how large inputs
//! do, how much shorter a gzip file is, and how faults are displayed. The crate has no items of its
//! own.
#![tactic(auto)]

#[cfg(test)]
mod tests;
