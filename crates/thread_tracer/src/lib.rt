//! Spans as a thread of a service makes them: one value starts them, ends them, and knows the
//! current one. None of its calls fails, and a span that isn't ended doesn't compile.
#![tactic(auto)]

mod count;
mod made;
mod open_spans;
mod span;
mod thread_trace;
mod tracer;

pub use span::ThreadSpan;
pub use thread_trace::ThreadTrace;
pub use tracer::{Refused, ThreadTracer};
