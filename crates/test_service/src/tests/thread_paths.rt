//! Functions with several paths, on each of which their span ends: the edits of `wont-compile` let
//! it go on one of them. And spans in a field, in an `Option` and in a list.
use crate::tests::equal::assert_equal;
use crate::tests::thread::{Case, Thread, run, span_at};
use otlp_span::Kind;
use std::alloc::Global;
use std::num::ParseIntError;
use std::process::Abort;
use thread_tracer::{Refused, ThreadSpan, ThreadTrace};
use trace_api::BodyPass;

/// Reads a number of rows.
fn rows_of(trace: &mut impl ThreadTrace, text: &str) -> Result<u64, ParseIntError> {
    let mut span = trace.start("parse", Kind::Internal);
    let rows = text.parse::<u64>();
    span.set("input", text);
    trace.end(span);
    rows
}

/// Does a step that is good or bad.
fn do_step(trace: &mut impl ThreadTrace, is_good: bool) {
    let mut span = trace.start("step", Kind::Internal);
    if is_good {
        trace.end(span);
    } else {
        span.set_error("bad");
        trace.end(span);
    }
}

/// Makes so many attempts.
fn attempt(trace: &mut impl ThreadTrace, attempts: u64) {
    for attempt in 0..attempts {
        let mut span = trace.start("attempt", Kind::Client);
        span.set("attempt", attempt);
        trace.end(span);
    }
}

/// Does two steps, one after the other.
fn in_turn(trace: &mut impl ThreadTrace) {
    let mut span = trace.start("first", Kind::Internal);
    trace.end(span);
    span = trace.start("second", Kind::Internal);
    trace.end(span);
}

/// Starts a span of each kind of parent.
fn with_parents(trace: &mut impl ThreadTrace) {
    let root = trace.root("root", Kind::Server);
    let child = trace.child(&root, "child", Kind::Internal);
    let remote = trace.with_remote(child.context(), "remote", Kind::Internal);
    trace.end(remote);
    trace.end(child);
    trace.end(root);
}

/// A step of a request, with its span.
struct Step {
    span: ThreadSpan,
    rows: usize,
}

impl Step {
    /// Starts the step.
    fn start(trace: &mut impl ThreadTrace, rows: usize) -> Step {
        let span = trace.start("step", Kind::Internal);
        Step { span, rows }
    }

    /// Ends it.
    fn end(self, trace: &mut impl ThreadTrace) {
        let Step { mut span, rows } = self;
        span.set("db.rows", rows);
        trace.end(span);
    }
}

/// A span, if one is wanted.
fn start_if(trace: &mut impl ThreadTrace, is_wanted: bool) -> Option<ThreadSpan> {
    if is_wanted {
        Some(trace.start("wanted", Kind::Internal))
    } else {
        None
    }
}

/// Ends the span, if there is one.
fn end_if_any(trace: &mut impl ThreadTrace, span: Option<ThreadSpan>) {
    if let Some(span) = span {
        trace.end(span);
    }
}

/// Starts so many spans. One that finds no room in the list ends at once.
fn start_all(trace: &mut impl ThreadTrace, alloc: Global, spans: usize) -> Vec<ThreadSpan> {
    let mut all = Vec::new(alloc);
    for _ in 0..spans {
        let span = trace.start("one of many", Kind::Internal);
        if let Err(full) = all.push(span) {
            trace.end(full.value);
        }
    }
    all
}

/// Ends them, the newest first.
fn end_all(trace: &mut impl ThreadTrace, mut spans: Vec<ThreadSpan>) {
    while let Some(span) = spans.pop() {
        trace.end(span);
    }
    spans.destroy_empty();
}

/// Seven spans of functions with several paths.
fn in_functions(rt: &impl Abort, trace: &mut impl ThreadTrace) {
    assert_equal(rt, rows_of(trace, "7").is_ok(), true);
    assert_equal(rt, rows_of(trace, "many").is_ok(), false);
    do_step(trace, true);
    do_step(trace, false);
    attempt(trace, 1);
    in_turn(trace);
}

/// Eight spans with a parent, or in something else.
fn in_shapes(alloc: Global, trace: &mut impl ThreadTrace) {
    with_parents(trace);
    let step = Step::start(trace, 3);
    let wanted = start_if(trace, true);
    let unwanted = start_if(trace, false);
    end_if_any(trace, unwanted);
    end_if_any(trace, wanted);
    step.end(trace);
    let all = start_all(trace, alloc, 3);
    end_all(trace, all);
}

/// Starts a span, and so many more, each in the one before, and ends them all.
fn nest(trace: &mut impl ThreadTrace, more: usize) {
    let span = trace.start("nested", Kind::Internal);
    if more > 0 {
        nest(trace, more - 1);
    }
    trace.end(span);
}

/// How many spans are nested.
const DEPTH: usize = 1_000;

/// All of these, after nested ones.
#[derive(Drop)]
struct Paths {
    alloc: Global,
}

impl Case<Global> for Paths {
    type Found = usize;

    fn work<R: Abort>(&self, rt: &R, trace: &mut Thread<'_, Global>) {
        nest(trace, DEPTH - 1);
        in_functions(rt, trace);
        in_shapes(self.alloc, trace);
        assert_equal(rt, trace.current().is_none(), true);
    }

    /// Each nested span is a child of the one that ended after it.
    fn look<R: Abort>(&self, rt: &R, pass: &BodyPass, refused: Refused) -> usize {
        for place in 0..DEPTH - 1 {
            let (span, parent) = (span_at(rt, pass, place), span_at(rt, pass, place + 1));
            assert_equal(rt, span.parent_span_id(), Some(parent.context().span));
        }
        assert_equal(rt, (refused.not_started, refused.left_out), (0, 0));
        pass.spans().len()
    }
}

/// A root takes two words for its trace, and each span takes one.
#[test]
fn a_span_ends_on_each_path_and_in_depth(rt: HostRuntime) {
    let alloc = rt.alloc();
    let mut words = Vec::new(alloc);
    for word in 1..2_000 {
        words.push(word).expect(&rt, "memory");
    }
    let spans = run(
        &rt,
        alloc,
        alloc,
        words.as_slice(),
        DEPTH + 15,
        &Paths { alloc },
    );
    assert_equal(&rt, spans, DEPTH + 15);
}
