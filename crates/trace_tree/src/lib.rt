//! The spans of one trace as a tree, and the text that shows it in a terminal (profile).
//!
//! `arrange` puts the spans into rows: each span after its parent, and the children of a span by
//! their start. `write_tree` writes a line for each row, with a bar that shows when the span ran,
//! and `write_line` one line alone. They take any list of spans, also one in which spans are
//! missing, named twice, or parents of one another in a circle. `Arranging` arranges in steps.
#![tactic(auto)]

mod bars;
mod cycles;
mod draw;
mod order;
mod parents;
mod span;
mod steps;
mod tree;
mod words;

pub use draw::{Frame, write_line, write_tree};
pub use span::{Place, Row, TreeSpan};
pub use steps::{Arranging, Kin, Opened, arrange};
