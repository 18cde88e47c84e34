//! A tracing kit by OpenTelemetry's API and SDK: the names of all that a program needs, in groups.
//!
//! A [`service`] is the short way. A program makes its spans with [`trace`], and hands them to an
//! exporter by [`processor`], or by [`queue`] and [`export`]; [`propagation`] carries a trace to
//! other services, [`http`] has exporters to a collector, [`settings`] what the environment sets.
#![tactic(auto)]

pub mod export;
pub mod http;
pub mod processor;
pub mod propagation;
pub mod queue;
pub mod service;
pub mod settings;
pub mod trace;
