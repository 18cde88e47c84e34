//! What becomes of the bodies of requests that a relay keeps to hand them on, and which spans they
//! have: definitions, worked values, and laws of them, each as a function's contract.
#![tactic(auto)]

pub mod laws;
pub mod worked;
