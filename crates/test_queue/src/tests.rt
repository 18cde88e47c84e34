//! The tests, a module for each part of what is tested, and what they share.

mod desk;
mod driver;
mod equal;
mod locked;
mod names;
mod plain_desk;
mod random_calls;
mod refusals;
mod spans;
mod texts;
