//! Tests, over public calls alone, of traces that cross services.
//!
//! `trace_context`, by the cases of the standard's own tests and where memory is refused;
//! `traced_http` and `http_client`, by requests, replies and faults over links of our own, with the
//! spans that come of them. Worked examples of all three are in `worked_sdk`.
#![tactic(auto)]

#[cfg(test)]
mod tests;
