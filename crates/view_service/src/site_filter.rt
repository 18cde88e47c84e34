//! Which traces are listed.

use crate::TraceFilter;
use std::collections::LinkedList;
use std::sync::Arc;
use trace_lines::{Filter, summary_of_digest};
use trace_store::{TraceDigest, ViewSpan};
use view_query::Query;

/// The filter of a query, over what a store keeps.
#[derive(Drop)]
pub struct SiteFilter {
    pub(crate) filter: Filter,
    pub(crate) query: Query,
    pub(crate) after: Option<u128>,
}

impl TraceFilter<Arc<ViewSpan>, TraceDigest> for SiteFilter {
    ghost use Rattle.view_service.specs.Listed.{begins_after, takes};

    ghost begins_after = { begins_after };

    ghost takes = { takes };

    fn after(&self) -> Option<u128> {
        self.after
    }

    fn takes(&self, trace: u128, digest: &TraceDigest, spans: &LinkedList<Arc<ViewSpan>>) -> bool {
        match summary_of_digest(trace, digest) {
            Some(summary) => {
                self.filter.matches(&summary)
                    && self.filter.has_service(spans)
                    && self.query.finds(spans)
            }
            None => false,
        }
    }
}
