//! Batches that are sent over HTTP (OTLP Specification, "OTLP/HTTP"; RFC 9112): an exporter that
//! posts each body over a link of its own, which a [`Dial`] gives. Over TCP it is the
//! [`HttpExporter`]. A [`KeptExporter`] keeps its link for the next body as long as replies let it.
//! A [`CompressedExporter`] has either send bodies as gzip files. A [`Failure`] is why the last
//! failed attempt failed; a [`FailureWatch`] shows it while the exporter works on another thread.
#![tactic(auto)]

mod buffer;
mod compressed;
mod deadline;
mod dial;
mod exporter;
mod failure;
mod front;
mod kept;
mod kept_file;
mod kept_link;
mod reports;
mod tcp;
mod watched;

pub use buffer::Buffered;
pub use compressed::{CodesBodies, CompressedExporter};
pub use deadline::{Countdown, Deadline, IdleStream, Monotonic, RuntimeClock, TimedStream};
pub use dial::Dial;
pub use exporter::LinkExporter;
pub use failure::{Failure, MESSAGE_ROOM, Message};
pub use kept::KeptExporter;
pub use kept_link::{KeptLink, PeekLink, ready};
pub use reports::ReportsFailure;
pub use tcp::{DEFAULT_EXPORT_TIMEOUT_MS, HttpExporter, Socket, TcpDial};
pub use watched::{FailureWatch, WatchedExporter};
