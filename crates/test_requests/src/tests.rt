//! The tests, by what they try, and what they share.

mod client;
mod clock;
mod contexts;
mod equal;
mod far_side;
mod probe;
mod server;
mod spans;
