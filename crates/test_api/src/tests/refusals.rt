//! All that takes memory, made where it is there, and with each call for memory refused in turn.
use crate::tests::equal::{assert_equal, shown};
use crate::tests::short_spans;
use crate::tests::spans::{
    CALLS, END, START, WORD, call, limits, only_span, opening, provider, remote, scope, text, words,
};
use linked_list_allocator::LocalHeap;
use otlp_ids::copy_text;
use otlp_span::{Kind, Resource, Scope, SpanCall, SpanData, replay};
use otlp_value::{AttributeList, Limits, Value};
use std::alloc::{Allocator, Global};
use std::process::Abort;
use test_support::FailingAllocator;
use trace_api::{BodyPass, Ended, Span, StartFault};

/// What is made.
#[derive(Debug, Clone, Copy, PartialEq, Eq)]
enum Making {
    CopiedText,
    TextValue,
    NamedScope,
    CopiedContext,
    /// A copy of the value of this number.
    CopiedValue(u32),
    /// A list of ten attributes.
    List,
    /// The resource of a service, with attributes over its own.
    Resource,
    /// A pass with room for a span.
    Pass,
    /// A child that is started by `start` and called through `Span::call`.
    CalledSpan,
    /// A child that is started and called by what copies all that it is lent, and then does as
    /// `start_copied` and as the methods of the same names.
    LentCalls,
    /// The calls, in a list.
    Replay,
}

/// A value of each kind whose copy takes memory.
fn value_at<A: Allocator + Copy>(rt: &impl Abort, alloc: A, number: u32) -> Value<A> {
    match number {
        0 => Value::Text(text(rt, alloc, "café")),
        1 => Value::Bools(Vec::from_slice(alloc, &[true, false]).expect(rt, "memory")),
        2 => Value::Ints(Vec::from_slice(alloc, &[i64::MIN, -1, 7]).expect(rt, "memory")),
        _ => Value::Texts(texts(rt, alloc)),
    }
}

fn texts<A: Allocator + Copy>(rt: &impl Abort, alloc: A) -> Vec<String<A>, A> {
    let mut texts = Vec::new(alloc);
    for part in ["one", "", "two"] {
        texts.push(text(rt, alloc, part)).expect(rt, "memory");
    }
    texts
}

fn copied_value<A: Allocator + Copy>(
    rt: &impl Abort,
    alloc: Global,
    (ample, scarce): (A, A),
    number: u32,
) -> Result<String, StartFault> {
    let copied = value_at(rt, ample, number).copy(scarce)?;
    Ok(shown(rt, alloc, &copied))
}

/// How many pairs a list has of eleven that are set, how many it has dropped, and the last one that
/// it has. The keys are on ample memory.
fn list<A: Allocator + Copy>(
    rt: &impl Abort,
    alloc: Global,
    (ample, scarce): (A, A),
) -> Result<String, StartFault> {
    let limits = Limits {
        count: 10,
        value_length: None,
    };
    let mut list = AttributeList::new(scarce, limits);
    for key in ["a", "b", "c", "d", "e", "f", "g", "h", "i", "j", "k"] {
        list.set(text(rt, ample, key), Value::Int(1))?;
    }
    let dropped = list.dropped();
    let pairs = list.into_pairs();
    Ok(shown(rt, alloc, &(pairs.len(), dropped, pairs.last())))
}

/// How many attributes the resource of a service has, and which is the first one and the last one.
fn resource<A: Allocator + Copy>(
    rt: &impl Abort,
    alloc: Global,
    (ample, scarce): (A, A),
) -> Result<String, StartFault> {
    let mut attributes = Vec::new(ample);
    for (key, value) in [("service.name", "till"), ("a", "1")] {
        let pair = (text(rt, ample, key), Value::Text(text(rt, ample, value)));
        attributes.push(pair).expect(rt, "memory");
    }
    let made = Resource::service(scarce, "shop")?.with_attributes(scarce, attributes)?;
    let all = &made.attributes;
    Ok(shown(rt, alloc, &(all.len(), all.first(), all.last())))
}

/// What a span that has ended has.
fn shown_span<A: Allocator>(rt: &impl Abort, alloc: Global, span: &SpanData<A>) -> String {
    let times = (span.start_time(), span.end_time());
    let parent = (span.parent_span_id(), span.has_remote_parent());
    let schema = span.resource().schema_url.as_str();
    let from = (schema, span.scope().name.as_str());
    let named = (span.name(), span.kind(), times, parent, from);
    let attributes = (span.attributes(), span.dropped_attributes_count());
    let lists = (attributes, span.events(), span.links());
    shown(rt, alloc, &(named, span.status(), lists))
}

/// Ends a span, and shows what its pass has then.
fn end<A: Allocator>(
    rt: &impl Abort,
    alloc: Global,
    span: &mut Span<A>,
    pass: &mut BodyPass<A>,
) -> String {
    assert_equal(rt, span.end(pass, END), Ended::Queued(0));
    shown_span(rt, alloc, only_span(rt, pass))
}

fn called_span<A: Allocator + Copy>(
    rt: &impl Abort,
    alloc: Global,
    (ample, scarce): (A, A),
) -> Result<String, StartFault> {
    let provider = provider(rt, ample, limits());
    let tracer = provider.tracer(scope(rt, ample));
    let (parent, name) = (remote(rt, ample), text(rt, ample, "GET /"));
    let mut words = words(rt, ample, WORD);
    let mut pass = BodyPass::new(ample, 1).expect(rt, "memory");
    let mut span = tracer.start(scarce, &mut words, Some(&parent), name, Kind::Server, START)?;
    for number in 0..CALLS {
        span.call(&mut pass, call(rt, ample, number))?;
    }
    Ok(end(rt, alloc, &mut span, &mut pass))
}

fn lent_calls<A: Allocator + Copy>(
    rt: &impl Abort,
    alloc: Global,
    (ample, scarce): (A, A),
) -> Result<String, StartFault> {
    let mut words = words(rt, ample, WORD);
    let mut span = short_spans::start(rt, ample, scarce, &mut words)?;
    let to = remote(rt, ample);
    for number in 0..short_spans::CALLS {
        short_spans::call(&mut span, &to, number)?;
    }
    let mut pass = BodyPass::new(ample, 1).expect(rt, "memory");
    Ok(end(rt, alloc, &mut span, &mut pass))
}

/// What is made of the calls, the end, and a call after it.
fn replayed<A: Allocator + Copy>(
    rt: &impl Abort,
    alloc: Global,
    (ample, scarce): (A, A),
) -> Result<String, StartFault> {
    let mut calls = Vec::new(ample);
    for number in 0..CALLS {
        calls.push(call(rt, ample, number)).expect(rt, "memory");
    }
    calls.push(SpanCall::End(END)).expect(rt, "memory");
    calls.push(call(rt, ample, 0)).expect(rt, "memory");
    let span = replay(scarce, opening(rt, ample), &limits(), calls.as_slice())?;
    Ok(shown_span(rt, alloc, &span))
}

/// Makes this on scarce memory, of what is on ample memory, and shows it.
fn made<A: Allocator + Copy>(
    rt: &impl Abort,
    alloc: Global,
    (ample, scarce): (A, A),
    making: Making,
) -> Result<String, StartFault> {
    match making {
        Making::CopiedText => Ok(shown(rt, alloc, &copy_text(scarce, "café")?)),
        Making::TextValue => Ok(shown(rt, alloc, &Value::text(scarce, "café")?)),
        Making::NamedScope => Ok(shown(rt, alloc, &Scope::named(scarce, "café")?)),
        Making::CopiedContext => Ok(shown(rt, alloc, &remote(rt, ample).copy(scarce)?)),
        Making::CopiedValue(number) => copied_value(rt, alloc, (ample, scarce), number),
        Making::List => list(rt, alloc, (ample, scarce)),
        Making::Resource => resource(rt, alloc, (ample, scarce)),
        Making::Pass => Ok(shown(rt, alloc, &BodyPass::new(scarce, 1)?)),
        Making::CalledSpan => called_span(rt, alloc, (ample, scarce)),
        Making::LentCalls => lent_calls(rt, alloc, (ample, scarce)),
        Making::Replay => replayed(rt, alloc, (ample, scarce)),
    }
}

/// What was made, to be compared.
fn plain(made: &Result<String, StartFault>) -> Result<&str, StartFault> {
    match made {
        Ok(text) => Ok(text),
        Err(fault) => Err(*fault),
    }
}

/// Makes this while the call for memory of this index is refused, which has to be the answer.
/// Answers whether there was such a call. Nothing is kept of what is made.
fn is_refused(
    rt: &impl Abort,
    alloc: Global,
    (making, text): (Making, &str),
    fail_index: u64,
) -> bool {
    let heap = LocalHeap::new(alloc, 65_536).expect(rt, "memory");
    let ample = FailingAllocator::new(&heap, u64::MAX);
    let scarce = FailingAllocator::new(&heap, fail_index);
    let made = made(rt, alloc, (&ample, &scarce), making);
    let is_refused = scarce.has_failed();
    let want = if is_refused {
        Err(StartFault::OutOfMemory)
    } else {
        Ok(text)
    };
    let place = (making, fail_index);
    assert_equal(rt, (place, plain(&made)), (place, want));
    assert_equal(rt, (place, heap.used()), (place, 0));
    is_refused
}

/// How many calls for memory are refused, each in its turn, before this is made.
fn count_refused(rt: &impl Abort, alloc: Global, row: (Making, &str)) -> u64 {
    for fail_index in 0..100u64 {
        if !is_refused(rt, alloc, row, fail_index) {
            return fail_index;
        }
    }
    100
}

/// The context of the remote parent.
const REMOTE: &str = concat!(
    "SpanContext { trace: TraceId([7, 7, 7, 7, 7, 7, 7, 7, 7, 7, 7, 7, 7, 7, 7, 7]), ",
    "span: SpanId([25, 26, 27, 28, 29, 30, 31, 32]), flags: TraceFlags(1), remote: true, ",
    "state: \"k=v\" }",
);

/// What the calls that `call` gives make of a span.
const CALLED: &str = concat!(
    "((\"x\", Server, (1000, 2000), (Some(SpanId([25, 26, 27, 28, 29, 30, 31, 32])), true), ",
    "(\"urn:resource\", \"library\")), Error(\"x\"), (([(\"a\", Int(1))], 1), ",
    "[Event { timestamp: 5, name: \"x\", ",
    "attributes: [(\"k\", Text(\"long\"))], dropped_attributes_count: 0 }, ",
    "Event { timestamp: 6, name: \"exception\", attributes: ",
    "[(\"exception.type\", Text(\"E\")), (\"exception.message\", Text(\"x\"))], ",
    "dropped_attributes_count: 0 }], [Link { span_context: SpanContext { ",
    "trace: TraceId([7, 7, 7, 7, 7, 7, 7, 7, 7, 7, 7, 7, 7, 7, 7, 7]), ",
    "span: SpanId([25, 26, 27, 28, 29, 30, 31, 32]), flags: TraceFlags(1), remote: true, ",
    "state: \"k=v\" }, attributes: [(\"k\", Text(\"long\"))], dropped_attributes_count: 0 }]))",
);

/// What those of `short_spans` make of one.
const LENT: &str = concat!(
    "((\"SELECT cart\", Client, (1000, 2000), ",
    "(Some(SpanId([25, 26, 27, 28, 29, 30, 31, 32])), true), ",
    "(\"urn:resource\", \"library\")), Error(\"bad\"), (([",
    "(\"db.system\", Text(\"postgresql\")), (\"db.rows\", Int(3)), ",
    "(\"db.shards\", Texts([\"eu\", \"us\"])), (\"text\", Text(\"y\")), (\"truth\", Bool(true)), ",
    "(\"number\", Int(-1)), (\"empty\", Text(\"\")), (\"truths\", Bools([true, false])), ",
    "(\"numbers\", Ints([1, -2])), (\"lent\", Int(4)), (\"c\", Int(2))], 0), ",
    "[Event { timestamp: 1500, name: \"cache miss\", ",
    "attributes: [(\"cache.key\", Text(\"cart:7\"))], dropped_attributes_count: 0 }, ",
    "Event { timestamp: 5, name: \"miss\", attributes: [], dropped_attributes_count: 0 }, ",
    "Event { timestamp: 6, name: \"exception\", attributes: ",
    "[(\"exception.type\", Text(\"E\")), (\"exception.message\", Text(\"x\")), (\"n\", Int(7))], ",
    "dropped_attributes_count: 0 }], [Link { span_context: SpanContext { ",
    "trace: TraceId([7, 7, 7, 7, 7, 7, 7, 7, 7, 7, 7, 7, 7, 7, 7, 7]), ",
    "span: SpanId([25, 26, 27, 28, 29, 30, 31, 32]), flags: TraceFlags(1), remote: true, ",
    "state: \"k=v\" }, attributes: [(\"messaging.batch\", Int(7))], ",
    "dropped_attributes_count: 0 }, Link { span_context: SpanContext { ",
    "trace: TraceId([7, 7, 7, 7, 7, 7, 7, 7, 7, 7, 7, 7, 7, 7, 7, 7]), ",
    "span: SpanId([25, 26, 27, 28, 29, 30, 31, 32]), flags: TraceFlags(1), remote: true, ",
    "state: \"k=v\" }, attributes: [], dropped_attributes_count: 0 }]))",
);

/// What is made, how many calls for memory that takes, and what it is.
const MADE: [(Making, u64, &str); 14] = [
    (Making::CopiedText, 1, "\"café\""),
    (Making::TextValue, 1, "Text(\"café\")"),
    (
        Making::NamedScope,
        1,
        "Scope { name: \"café\", version: \"\", attributes: [], schema_url: \"\" }",
    ),
    (Making::CopiedContext, 1, REMOTE),
    (Making::CopiedValue(0), 1, "Text(\"café\")"),
    (Making::CopiedValue(1), 1, "Bools([true, false])"),
    (
        Making::CopiedValue(2),
        1,
        "Ints([-9223372036854775808, -1, 7])",
    ),
    (Making::CopiedValue(3), 3, "Texts([\"one\", \"\", \"two\"])"),
    // The list has room for eight, and grows once.
    (Making::List, 2, "(10, 1, Some((\"j\", Int(1))))"),
    (
        Making::Resource,
        // The room of its own attributes, their keys and texts, and the room of all.
        1 + 4 * 2 + 1,
        "(5, Some((\"service.name\", Text(\"till\"))), Some((\"a\", Text(\"1\"))))",
    ),
    (Making::Pass, 1, "BodyPass { spans: [], dropped: 0 }"),
    // A start takes the trace state twice, the slip and the record. A call takes the room of its
    // list, once, and of its attributes; an exception two keys, the room of its attributes and its
    // name.
    (Making::CalledSpan, 4 + 1 + 2 + 4 + 2, CALLED),
    // The start also takes the name, two keys, a text and the room of the list; and of the link its
    // trace state, its pairs with a key, what is kept of them, and its room. A call mostly takes a
    // key, and what its value takes; the list of attributes grows once more.
    (Making::LentCalls, 14 + 38, LENT),
    // The slip and the record, and of each call its copy and what is kept of it.
    (Making::Replay, 25, CALLED),
];

#[test]
fn each_call_for_memory_is_refused_in_turn(rt: HostRuntime) {
    for (making, calls, text) in MADE {
        let refused = count_refused(&rt, rt.alloc(), (making, text));
        assert_equal(&rt, (making, refused), (making, calls));
    }
}
