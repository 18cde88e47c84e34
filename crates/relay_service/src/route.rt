//! What paths name.

ghost use Rattle.std.specs.Prelude.{◌≡◌};
ghost use Rattle.relay_service.specs.Shows as spec;

/// What a service shows. (profile)
#[derive(Clone, Copy, Debug, PartialEq, Eq)]
pub enum Page {
    /// `/healthz`: that the service is well, or that what keeps bodies has failed.
    Health,
    /// `/metrics`: what became of what was received, for Prometheus.
    Metrics,
    /// `/api/stats`: the same, for programs.
    Stats,
    /// `/api/lost`: the spans that were lost last, for programs.
    Lost,
}

/// What a path names, which has no query. None where nothing is there.
#[tactic(auto, unfolding(crate::specs::Shows::page_of))]
pub fn route_of(path: &str) -> Option<Page>
    ensures { result ≡ spec.page_of path.now }
{
    match path {
        "/healthz" => Some(Page::Health),
        "/metrics" => Some(Page::Metrics),
        "/api/stats" => Some(Page::Stats),
        "/api/lost" => Some(Page::Lost),
        _ => None,
    }
}
