//! A log for several threads, such as standard error, whose reader holds up nobody for longer than a
//! second.
//!
//! A write to a pipe that is full waits for its reader, for ever where nobody reads. A
//! [`TimelyWriter`] waits a second for room and then fails; until there is room again its writes fail
//! at once. [`SharedLog`] is one for several threads, and [`CountedLines`] counts the lines that
//! could not be written, and says how many they were once lines can be written again.
#![tactic(auto)]

mod counted;
mod shared;
mod timely;

pub use counted::CountedLines;
pub use shared::{Log, SharedLog};
pub use timely::{PIECE_BYTES, TimelyWriter, WAIT_MS};
