//! Spans of a thread to which memory or randomness is refused.
use crate::tests::equal::assert_equal;
use crate::tests::thread::{Case, Thread, run};
use otlp_span::{Kind, SpanData, Status};
use std::alloc::Allocator;
use std::process::Abort;
use test_support::FailingAllocator;
use thread_tracer::Refused;
use trace_api::{BodyPass, KeyValue};

/// A request of three spans, one in the other, with seven calls on them.
struct Request;

/// What came of it: how many spans ended, how many calls took effect on them, and how many spans
/// and calls were refused.
#[derive(Debug, Clone, Copy, PartialEq, Eq)]
struct Came {
    ended: usize,
    effects: usize,
    not_started: u64,
    left_out: u64,
}

/// How many calls took effect on a span: its attributes, its events, its links, its error and its
/// new name.
fn effects_on<A: Allocator>(span: &SpanData<A>) -> usize {
    let is_renamed = span.name() == "render cart";
    let is_error = matches!(span.status(), Status::Error(_));
    let lists = span.attributes().len().saturating_add(span.events().len());
    let all = lists.saturating_add(span.links().len());
    all.saturating_add(usize::from(is_renamed))
        .saturating_add(usize::from(is_error))
}

impl<A: Allocator + Copy> Case<A> for Request {
    type Found = Came;

    fn work<R: Abort>(&self, rt: &R, trace: &mut Thread<'_, A>) {
        let mut request = trace.start("GET /cart", Kind::Server);
        request.set("http.route", "/cart/{id}");
        let mut query = trace.child(&request, "SELECT", Kind::Client);
        query.set("db.rows", usize::MAX);
        let mut render = trace.start("render", Kind::Internal);
        let at = trace.now();
        render.event("cache miss", at, &[KeyValue::new("cache.key", &"cart:7")]);
        render.exception("E", "bad", "", at, &[]);
        render.set_error("bad");
        render.rename("render cart");
        render.link(query.context(), &[]);
        trace.end(render);
        trace.end(query);
        trace.end(request);
        assert_equal(rt, trace.current().is_none(), true);
    }

    fn look<R: Abort>(&self, _rt: &R, pass: &BodyPass<A>, refused: Refused) -> Came {
        let mut effects = 0_usize;
        for span in pass.spans() {
            effects = effects.saturating_add(effects_on(span));
        }
        Came {
            ended: pass.spans().len(),
            effects,
            not_started: refused.not_started,
            left_out: refused.left_out,
        }
    }
}

/// The words of its spans: enough for three roots.
const WORDS: [u64; 9] = [1, 2, 3, 4, 5, 6, 7, 8, 9];

/// More calls for memory than the request makes.
const MOST: u64 = 64;

/// Asserts that each span has ended or is counted, and so is each call on one that has started,
/// where one call for memory was refused.
fn assert_accounts(rt: &impl Abort, index: u64, came: Came) {
    let asked = (came.ended as u64).saturating_add(came.not_started);
    assert_equal(rt, (index, asked), (index, 3));
    let refused = came.not_started.saturating_add(came.left_out);
    assert_equal(rt, (index, refused), (index, 1));
    let is_whole = came.left_out == 0 || came.effects == 6;
    assert_equal(rt, (index, is_whole), (index, true));
}

#[test]
fn of_three_spans_each_ends_or_is_counted_whatever_memory_is_refused(rt: HostRuntime) {
    let ample = FailingAllocator::new(rt.alloc(), u64::MAX);
    let mut spans = 0_u64;
    let mut calls = 0_u64;
    for index in 0..MOST {
        let scarce = FailingAllocator::new(rt.alloc(), index);
        let came = run(&rt, &ample, &scarce, &WORDS, 3, &Request);
        if !scarce.has_failed() {
            assert_equal(&rt, (came.ended, came.effects), (3, 7));
            break;
        }
        assert_accounts(&rt, index, came);
        spans = spans.saturating_add(came.not_started);
        calls = calls.saturating_add(came.left_out);
    }
    assert_equal(&rt, (spans >= 3, calls >= 7), (true, true));
}
