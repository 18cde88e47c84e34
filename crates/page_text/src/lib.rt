//! What a page of HTML says of a value: a text from outside, and a double as text.
//!
//! `write_text` appends a text to a page, so that a browser reads exactly this text there and no
//! part of it as markup. That holds between tags and in a quoted value of an attribute.
//!
//! `write_double` (profile) writes the number that a double is, in the fewest places after the
//! point with which no other double is as near: `2.5`, `0.1`, `-3`. What is no number is `NaN`,
//! `Infinity` or `-Infinity`. A number that is very large or very small is written exactly, as a
//! whole number times a power of two: `7*2^200`, `7*2^-200`.
#![tactic(auto)]

mod decimal;
mod double;
pub mod worked;
pub mod worked_double;
mod write;

pub use double::write_double;
pub use write::write_text;
