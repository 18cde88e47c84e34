//! What batches of spans are handed to (Trace SDK, "Span Exporter"): each as the body of a request,
//! once for each attempt to send it.
#![tactic(auto)]

mod exporter;
mod handed;
mod listed;
mod memory;
mod room;

pub use exporter::Exporter;
pub use handed::Handed;
pub use memory::MemoryExporter;
