//! The text that a run prints (profile): a line for each step's answer, and the report that comes
//! after the last step.
//!
//! A line is words with a space between them. It begins with the word of its step. In the line of a
//! start, a call or an end, the number of the span comes next: starts are counted from 0. Then
//! comes the answer to the step. Numbers are decimal, identifiers and bodies are lower case
//! hexadecimal digits.

mod answers;
mod lines;
mod place;
mod report;

pub use answers::write_answers;
pub use report::write_report;
