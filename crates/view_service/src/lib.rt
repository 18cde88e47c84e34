//! A service of HTTP that receives spans by OTLP, keeps them and shows them: exports come by `POST
//! /v1/traces` (OTLP Specification, "OTLP/HTTP"), and what is kept is read by `GET`.
//!
//! [`ViewService`] is what an `http_connection` calls. A [`TraceKeeper`] keeps the spans, and what
//! implements [`Pages`] writes the pages. [`Site`] is that of `trace-view`: the pages of
//! `view_pages`, the answers for programs of `view_json`, and what is counted, for Prometheus
//! ([`write_metrics`]).
#![tactic(auto)]

mod counts;
mod filter;
mod keeper;
mod lists;
mod metrics;
mod page;
mod pages;
mod receive;
mod route;
mod script;
mod service;
mod show;
mod site;
mod site_filter;

pub use filter::TraceFilter;
pub use keeper::{Counts, Listed, TraceKeeper};
pub use metrics::{Answered, write_metrics};
pub use otlp_receiver::reply::{Denial, Format, Hosts, Strays, Tallies};
pub use page::SitePage;
pub use pages::{Asked, Extent, ListForm, Pages, TraceForm};
pub use route::{Route, route_of};
pub use service::ViewService;
pub use show::Shown;
pub use site::Site;
pub use site_filter::SiteFilter;
