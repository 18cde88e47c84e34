//! What paths name.

ghost use Rattle.std.specs.Prelude.{◌≡◌, MatchOption, Some, None};
ghost use Rattle.view_service.specs.Routes as spec;
ghost use Rattle.view_service.specs.Routes.{NamesNoTrace, NamesNone, NamesTrace, Names};

use otlp_ids::TraceId;

/// What a request for a page names by its path. (profile)
#[derive(Clone, Copy, Debug, PartialEq, Eq)]
pub enum Route {
    /// `/`: the list of traces.
    List,
    /// `/trace/ID`, where ID is 32 hexadecimal digits: the page of a trace.
    Trace(TraceId),
    /// `/trace/ID.txt`: the same as a text.
    TraceText(TraceId),
    /// `/style.css`: what the pages look like.
    Style,
    /// `/view.js`: a script that no page needs.
    Script,
    /// `/healthz`: that the service answers.
    Health,
    /// `/metrics`: what is counted, for Prometheus.
    Metrics,
    /// `/api/traces`: the list, for programs.
    ApiTraces,
    /// `/api/trace/ID`: a trace, for programs.
    ApiTrace(TraceId),
    /// `/api/stats`: what is counted, for programs.
    ApiStats,
    /// Any other path.
    Unknown,
}

/// What a path names that is always the same.
#[tactic(auto, unfolding(crate::specs::Routes::fixed_route))]
fn fixed_route(path: &str) -> Option<Route>
    ensures { result ≡ spec.fixed_route path.now }
{
    match path {
        "/" => Some(Route::List),
        "/style.css" => Some(Route::Style),
        "/view.js" => Some(Route::Script),
        "/healthz" => Some(Route::Health),
        "/metrics" => Some(Route::Metrics),
        "/api/traces" => Some(Route::ApiTraces),
        "/api/stats" => Some(Route::ApiStats),
        _ => None,
    }
}

/// The trace whose digits are between these texts, if the path has this form.
fn trace_between(path: &str, front: &str, end: &str) -> Option<TraceId>
    ensures { MatchOption result (NamesNone front.now end.now path.now)
        (NamesTrace front.now end.now path.now) }
{
    let Some(rest) = path.strip_prefix(front) else {
        return None;
    };
    let Some(digits) = rest.strip_suffix(end) else {
        return None;
    };
    match TraceId::from_hex(digits) {
        Ok(trace) => Some(trace),
        Err(_) => None,
    }
}

/// What a path names, which has no query.
pub fn route_of(path: &str) -> Route
    ensures { Names path.now result }
{
    if let Some(route) = fixed_route(path) {
        return route;
    }
    if let Some(trace) = trace_between(path, "/trace/", "") {
        return Route::Trace(trace);
    }
    if let Some(trace) = trace_between(path, "/trace/", ".txt") {
        return Route::TraceText(trace);
    }
    if let Some(trace) = trace_between(path, "/api/trace/", "") {
        return Route::ApiTrace(trace);
    }
    Route::Unknown
}
