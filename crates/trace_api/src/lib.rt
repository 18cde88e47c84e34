//! Spans as a program makes them (OpenTelemetry Trace API): a [`Provider`] gives tracers, a
//! [`Tracer`] starts spans, and a [`Span`] that ends goes to a pass, which implements [`EndPass`].
//!
//! - [`BodyPass`] is a pass that keeps the spans.
//! - [`SpanExt`] and [`start_span`] are short calls: they copy the names, keys and texts that they
//!   are lent, and then do what the calls of the Trace API do.
//! - [`end_span`] ends the span of a request over HTTP, a server's or a client's (OpenTelemetry
//!   Semantic Conventions, "HTTP spans").
//! - [`Clock`] is what spans are timed by: a [`SystemClock`], or a [`ManualClock`], which is set.
//! - [`WordsRng`] is a generator of listed words, for identifiers that are known beforehand.
#![tactic(auto)]

mod attribute;
mod clock;
mod end;
mod extension;
mod lent;
mod pass;
mod provider;
mod request;
mod span;
mod words;

pub use attribute::{count_untraced, int_value, text_pair};
pub use clock::{Clock, ManualClock, SystemClock};
pub use end::{Ending, end_span};
pub use extension::SpanExt;
pub use lent::{KeyValue, ToValue, ValueRef};
pub use pass::{BodyPass, EndPass, Ended};
pub use provider::{Provider, StartFault, Tracer};
pub use request::{LinkRef, SpanRequest, start_span};
pub use span::Span;
pub use words::WordsRng;
