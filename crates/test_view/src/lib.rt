//! Tests, over public calls alone, of what `trace-view` is made of.
//!
//! What each call gives that takes memory, and that it is an error where memory is refused: of
//! `page_text`, `trace_store`, `trace_lines`, `view_pages` and `view_json`. How a server of
//! `http_listener` is stopped, and shows requests before they are answered. What pages and answers say
//! of traces is tried by `tools/view-runs`. The crate has no items of its own.
#![tactic(auto)]

#[cfg(test)]
mod tests;
