//! Tests of `http_wire`, `otlp_http`, `otlp_serve` and `http_exporter` over public calls alone: large
//! and changed messages, readers that fail and memory that is refused, texts for a person, and links
//! over a network of our own and over the system's sockets. The crate has no items of its own.
#![tactic(auto)]

#[cfg(test)]
mod tests;
