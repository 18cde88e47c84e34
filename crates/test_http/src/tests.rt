//! The tests, a module for each part of what is tested, and what they share.

mod equal;
mod exporter;
mod fixture;
mod memory;
mod messages;
mod network;
mod sockets;
mod texts;
