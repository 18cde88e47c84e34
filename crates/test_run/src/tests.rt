//! The test, and what it makes and reads.

mod bodies;
mod book;
mod equal;
mod far_side;
mod random_programs;
mod random_runs;
