//! The tests, a module for each part of what is tested, and what they share.

mod equal;
mod large;
mod refusals;
mod short_spans;
mod spans;
mod texts;
