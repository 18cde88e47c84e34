//! The tests, a module for each part of what is tested, and what they share.

mod bodies;
mod environment;
mod equal;
mod gzip_files;
mod large;
mod refusals;
mod samples;
mod settings;
mod texts;
mod trees;
