//! The tests, and what they share.

mod device;
mod equal;
mod failing;
mod kept;
mod refusals;
mod relay;
mod spools;
mod steps;
mod threads;
mod together;
