//! The bodies of requests that a relay keeps to hand them on (profile), and how it does (OTLP
//! Specification, "OTLP/HTTP Response", "Retry").
//!
//! - A [`BodyDesk`] has the bodies that wait, the batch that is out, and counts of all of them. It is
//!   what threads share under a lock, but it knows of neither: each of its calls is one step, which
//!   the caller takes alone. A body that ends is handed out, so that it is freed, or its spans are
//!   named, once a lock is given back.
//! - A [`BodySender`] takes a batch from a desk of bodies and hands it to an exporter. The outcome is
//!   judged and noted at the desk: the batch was delivered, is sent again with the same bytes, is
//!   sent body by body, or is lost, and then its spans are named. By default no attempt is the last
//!   one. The sender has a step for each of these.
//! - [`name_lost`] goes through a lost body (opentelemetry-proto, trace_service.proto:
//!   ExportTraceServiceRequest) field by field and gives the names of its spans to a [`LostSink`]. It
//!   takes no memory, so that no name is lost for want of it.
//! - A [`BodyKeeper`] is what a relay's service gives bodies to: it keeps them, as at a desk, and
//!   says what became of them, by a [`Report`] and by each [`LostSpan`].
#![tactic(auto)]

mod bodies;
mod config;
mod counts;
mod desk;
mod ends;
mod fate;
mod fault;
mod keeper;
mod line;
mod lost;
mod names;
mod report;
mod send_config;
mod sender;
mod sink;
mod stage;
mod turn;

pub use config::BodyConfig;
pub use counts::BodyCounts;
pub use desk::BodyDesk;
pub use ends::name_ended;
pub use fate::is_loss;
pub use fault::AdmitFault;
pub use keeper::{BodyKeeper, KeepFault};
pub use lost::{Loss, LostSpan};
pub use names::name_lost;
pub use report::{Amounts, Report};
pub use send_config::SendConfig;
pub use sender::{BodySender, Settled};
pub use sink::LostSink;
