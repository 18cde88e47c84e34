//! The tests.

mod calls;
mod equal;
mod peers;
mod traces;
