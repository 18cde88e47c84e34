//! A service of HTTP that receives spans by OTLP and keeps the bodies that carry them, until they
//! are handed on: exports come by `POST /v1/traces` (OTLP Specification, "OTLP/HTTP").
//!
//! [`RelayService`] is what an `http_connection` calls. A [`BodyKeeper`](relay_queue::BodyKeeper) keeps the bodies: a post is
//! answered 200 only where it has kept the body's own bytes, and nothing is kept of any other post.
//! By `GET` the service answers whether it is well, and what became of what it received, as the
//! keeper says.
#![tactic(auto)]

mod lost;
mod metrics;
mod receive;
mod route;
mod service;
mod show;
mod stats;

pub use lost::write_lost;
pub use metrics::write_metrics;
pub use otlp_receiver::reply::{Denial, Format, Hosts, Strays, Tallies};
pub use route::{Page, route_of};
pub use service::{NoPieces, RelayService};
pub use stats::write_stats;
