//! The meaning of the calls on spans (OpenTelemetry Trace API and Trace SDK), as definitions; their
//! laws are in crate `law_export`.
//!
//! `Attributes`, `Spans` and `Starts` define what attributes, calls and starts make of a span,
//! `Identifiers` and `Sampling` how identifiers are drawn and samplers decide. `Dropped` defines
//! why an ended span isn't delivered, and the name that is kept of it (profile).
#![tactic(auto)]
