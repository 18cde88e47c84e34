//! What services that receive spans over HTTP share (OTLP Specification, "OTLP/HTTP"): which posts
//! they refuse, and what the body of one means, in Protocol Buffers and in JSON, as it is and in
//! gzip.
//!
//! - [`content_in`] answers the bytes that the body of a post means, its content, or why the post is
//!   refused. [`read_content`] reads these, and [`size_of_content`] is how much memory that takes.
//! - The module [`reply`] has what a service says where it refuses a request, under which hosts it
//!   may be asked, in what formats it answers, and how many answers it gave. [`push_metric`] and its
//!   parts write what it has counted, for Prometheus.
#![tactic(auto)]

mod content;
mod metric;
mod post;
mod reading;
mod refusal;
pub mod reply;

pub use content::Undecoded;
pub use metric::{push_help, push_metric, push_sample, push_type};
pub use post::content_in;
pub use reading::{
    Bounds, Unread, is_above, read_content, room_alone, size_denial, size_of_content,
};
