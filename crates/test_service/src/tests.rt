//! The tests, a module for each part of what is tested, and what they share.

mod environment;
mod equal;
mod requests;
mod serving;
mod starting;
mod thread;
mod thread_paths;
mod thread_refusals;
