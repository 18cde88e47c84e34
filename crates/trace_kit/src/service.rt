//! A whole service from the environment: [`serve_from_environment`] reads its settings, starts its
//! threads, and exports their spans over HTTP; a [`ServiceSetup`] does the same in two steps. Each
//! thread does a [`TracedWork`], and is lent what it makes its spans with: a [`ThreadTrace`], whose
//! spans can't be forgotten and whose calls don't fail.
pub use thread_tracer::{Refused, ThreadSpan, ThreadTrace, ThreadTracer};
pub use traced_service::{
    ServiceLog, ServiceSetup, ThreadDone, TracedDone, TracedWork, serve_from_environment,
};
