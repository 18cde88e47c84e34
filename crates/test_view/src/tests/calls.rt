//! What each call gives that takes memory, and that it is an error where memory is refused.
use crate::tests::equal::assert_equal;
use crate::tests::traces::{Facts, Form, Kept, parts, request, spans, whole};
use page_text::write_text;
use std::alloc::{AllocError, Allocator, Global};
use std::collections::LinkedList;
use std::hash::{BuildHasherDefault, FoldHasher};
use test_support::FailingAllocator;
use trace_lines::{Filter, Summary, TraceText, summary_of_digest};
use trace_store::{Digest, Limits, SpanSize, TraceDigest, TraceStore, service_of, take_apart};
use view_json::{Stats, TraceJson, write_stats, write_traces};
use view_pages::{TracePage, write_list_page, write_mistake_page, write_notice_page};
use view_query::Query;

/// A call, or several that go together.
#[derive(Clone, Copy)]
enum Call {
    Text,
    Parts,
    Store,
    Filter,
    Search,
    List,
    Mistake,
    Notice,
    Page,
    Lines,
    Json,
    Traces,
    Stats,
}

/// Each call, with a part of what it gives.
const ROWS: [(Call, &str); 13] = [
    (
        Call::Text,
        concat!(
            "&lt;/p&gt;&lt;script&gt;alert(&quot;1&quot; &amp; &#39;2&#39;)",
            "&lt;/script&gt;\u{202e}&#13;\u{fffd}\u{1f980}",
        ),
    ),
    (
        Call::Parts,
        "10 child 1450 645; 10 <root> 1556 0; 11  1437 645; ",
    ),
    (
        Call::Store,
        concat!(
            "11: 3 spans, 1 errors, 0 to 1500000010,  of shop<; ",
            "12: 2 spans, 1 errors, 10 to 1500000010, <root> of shop<; ",
            "1 went, 7 received, 5 kept, 2 evicted",
        ),
    ),
    (Call::Filter, "10: true true; 11: true false; "),
    (Call::Search, "10: true; 11: false; "),
    (
        Call::List,
        concat!(
            "<p>Showing 1 of 2</p></header>",
            "<main><table><tr><th>Name<th>Service<th>Spans<th>Errors<th>Duration<th>Start (UTC)",
            "<tr><td><a href='/trace/00000000000000000000000000000abc?q=&lt;'>&lt;root&gt;</a>",
            "<td>shop&lt;<td>3<td>1<td>1.50 s<td>2026-09-21 14:13:20</table></main>",
            "<form class='more'><input type='hidden' name='q' value=''>",
            "<input type='hidden' name='service' value=''><input type='hidden' name='name' value=''>",
            "<input type='hidden' name='least' value='0'>",
            "<input type='hidden' name='after' value='00000000000000000000000000000abc'>",
            "<button>Older traces</button></form><footer>Dulhafrin ",
        ),
    ),
    (
        Call::Mistake,
        concat!(
            "<p class='mistake' role='alert'>The search can't be read from byte 7 on: ",
            "&lt;why&gt;</p></header><footer>Dulhafrin ",
        ),
    ),
    (
        Call::Notice,
        "<a href='/?errors=1'>All traces</a><h1>No &lt;trace&gt;</h1><p>Look at the list.</p>",
    ),
    (
        Call::Page,
        concat!(
            "<li data-row='0' class='row c0 bad' id='s-0000000000000002' aria-level='2' ",
            "style='--d:1;--s:0;--w:0'><details><summary><span class='label'><b>child</b> ",
            "<small>shop&lt;</small> <em>error</em></span>",
        ),
    ),
    (
        Call::Lines,
        concat!(
            "<root>                                   |########################################| ",
            "1.50s\n",
            "  child                                  |#                                       | ",
            "0.03us  error\n",
        ),
    ),
    (
        Call::Json,
        concat!(
            r#""name":"<root>","kind":0,"startTimeUnixNano":"10","endTimeUnixNano":"1500000010","#,
            r#""attributes":[{"key":"k","value":{"doubleValue":2.5}}],"#,
            r#""droppedAttributesCount":0,"events":[{"timeUnixNano":"30","name":"e","#,
            r#""attributes":[{"key":"k"}],"droppedAttributesCount":0}],"droppedEventsCount":0,"#,
            r#""links":[{"traceId":"0c","spanId":"0d","traceState":"","attributes":[{"key":"k","#,
            r#""value":{"arrayValue":{"values":[{"boolValue":true},{"boolValue":false}]}}}],"#,
            r#""droppedAttributesCount":0,"flags":0}],"droppedLinksCount":0,"#,
            r#""status":{"message":"","code":0}}],"schemaUrl":""}],"schemaUrl":""}]}"#,
        ),
    ),
    (
        Call::Traces,
        concat!(
            r#"{"traces":[{"traceId":"00000000000000000000000000000abc","service":"shop<","#,
            r#""name":"<root>","startTimeUnixNano":"1790000000000000000","#,
            r#""endTimeUnixNano":"1790000001500000000","spans":3,"errors":1}]}"#,
        ),
    ),
    (
        Call::Stats,
        concat!(
            r#"{"received":12,"kept":10,"evicted":2,"traces":3,"evictedTraces":1,"#,
            r#""pendingBytes":4096,"lastEvicted":["00000000000000000000000000000abc","#,
            r#""0000000000000000000000000000000a"]}"#,
        ),
    ),
];

/// A name that tries to leave its place, to turn the text around it, and to end early.
const HOSTILE: &str = "</p><script>alert(\"1\" & '2')</script>\u{202e}\r\0\u{1f980}";

/// A query that the first trace passes.
const QUERY: &str = "service=shop%3C&name=%3Cro&least=1500&errors=1";

/// A search that finds the first trace.
const SEARCH: &str = "root name:\"<RO\" service=shop< -unknown=1 duration>1s";

/// What is counted.
const STATS: Stats = Stats {
    received: 12,
    kept: 10,
    evicted: 2,
    traces: 3,
    evicted_traces: 1,
    pending_bytes: Some(4_096),
};

/// What a list has of a trace.
const SUMMARY: Summary<'static> = Summary {
    trace: 0xabc,
    service: "shop<",
    name: "<root>",
    start_time_unix_nano: 1_790_000_000_000_000_000,
    end_time_unix_nano: 1_790_000_001_500_000_000,
    span_count: 3,
    error_count: 1,
};

/// A text on a page.
fn text_on_page<A: Allocator>(alloc: A) -> Option<String<A>> {
    let mut page = String::new(alloc);
    write_text(&mut page, HOSTILE).ok()?;
    Some(page)
}

/// The parts of the request, each with the size of its spans and what they share, and the size of
/// what is shared that counts with each.
fn parts_of_request<A: Allocator + Copy>(ample: A, alloc: A) -> Option<String<A>> {
    let parts = take_apart(alloc, request(ample)?).ok()?;
    let mut text = String::new(ample);
    for (trace, spans) in &parts {
        for span in spans.iter() {
            let (name, size, shared) = (span.span.name.as_str(), span.size(), span.shared);
            write!(text, "{trace} {name} {size} {shared}; ").ok()?;
        }
    }
    Some(text)
}

/// A store that received both traces, and the spans of the first one again as those of a third and
/// of the second, and gave up the oldest: what it keeps and counts.
fn stored<A: Allocator + Copy>(ample: A, alloc: A) -> Option<String<A>> {
    let limits = Limits {
        max_spans: 9,
        max_bytes: 99_999,
    };
    let mut store = store(alloc, limits).ok()?;
    let Ok(parts) = take_apart(ample, request(ample)?) else {
        return None;
    };
    store.insert_all(parts).ok()?;
    for trace in [12, 11] {
        let copies = store.copy(10).ok()??;
        if copies.is_empty() {
            return None;
        }
        store.insert(trace, copies).ok()?;
    }
    let went = store.make_room(1);
    seen(ample, &store, went).ok()
}

/// A store with these limits.
fn store<A: Allocator + Copy>(alloc: A, limits: Limits) -> Result<Store<A>, AllocError> {
    TraceStore::new(alloc, BuildHasherDefault::new(), limits)
}

/// A store of spans, with what is kept in short of each trace.
type Store<A> = TraceStore<Kept<A>, Facts<A>, BuildHasherDefault<FoldHasher>, A>;

/// What a store keeps, the newest trace first, and what it counts.
fn seen<A: Allocator + Copy>(
    alloc: A,
    store: &Store<A>,
    went: u64,
) -> Result<String<A>, AllocError> {
    let mut text = String::new(alloc);
    for (trace, kept) in store.iter() {
        let digest = kept.digest();
        let (start, end) = (digest.start_time_unix_nano(), digest.end_time_unix_nano());
        let (spans, errors) = (digest.span_count(), digest.error_count());
        write!(
            text,
            "{trace}: {spans} spans, {errors} errors, {start} to {end}"
        )?;
        if let Some(root) = digest.root() {
            write!(text, ", {} of {}; ", root.span.name, service_of(root))?;
        }
    }
    let (received, kept, evicted) = (store.received(), store.len(), store.evicted());
    write!(
        text,
        "{went} went, {received} received, {kept} kept, {evicted} evicted"
    )?;
    Ok(text)
}

/// Whether the services of a trace, and what is said of it, pass a filter.
fn passes<A: Allocator + Copy>(
    filter: &Filter<A>,
    spans: &LinkedList<Kept<A>, A>,
) -> Option<(bool, bool)> {
    let mut digest: Facts<A> = TraceDigest::empty();
    for span in spans.iter() {
        digest.add(span).ok()?;
    }
    let summary = summary_of_digest(10, &digest)?;
    Some((filter.has_service(spans), filter.matches(&summary)))
}

/// Which traces pass the query of a list.
fn filtered<A: Allocator + Copy>(ample: A, alloc: A) -> Option<String<A>> {
    let filter = Filter::parse(alloc, QUERY).ok()?;
    let mut text = String::new(ample);
    for (trace, spans) in &parts(ample)? {
        let (service, other) = passes(&filter, spans)?;
        write!(text, "{trace}: {service} {other}; ").ok()?;
    }
    Some(text)
}

/// Which traces a search finds.
fn searched<A: Allocator + Copy>(ample: A, alloc: A) -> Option<String<A>> {
    let query = Query::parse(alloc, SEARCH).ok()?;
    let mut text = String::new(ample);
    for (trace, spans) in &parts(ample)? {
        let found = query.finds(spans);
        write!(text, "{trace}: {found}; ").ok()?;
    }
    Some(text)
}

/// A list of one trace of two.
fn list<A: Allocator + Copy>(alloc: A) -> Option<String<A>> {
    let mut page = String::new(alloc);
    write_list_page(
        &mut page,
        &Filter::new(alloc),
        "q=<",
        "",
        &[SUMMARY],
        2,
        true,
    )
    .ok()?;
    Some(page)
}

/// The list where a search can't be read.
fn mistake<A: Allocator + Copy>(alloc: A) -> Option<String<A>> {
    let mut page = String::new(alloc);
    write_mistake_page(&mut page, &Filter::new(alloc), 7, "<why>").ok()?;
    Some(page)
}

/// The page that says why there is no other.
fn notice<A: Allocator>(alloc: A) -> Option<String<A>> {
    let mut page = String::new(alloc);
    write_notice_page(&mut page, "errors=1", "No <trace>", "Look at the list.").ok()?;
    Some(page)
}

/// What a call gives with this memory. What it needs is made of ample memory.
fn made<A: Allocator + Copy>(ample: A, alloc: A, call: Call) -> Option<String<A>> {
    match call {
        Call::Text => text_on_page(alloc),
        Call::Parts => parts_of_request(ample, alloc),
        Call::Store => stored(ample, alloc),
        Call::Filter => filtered(ample, alloc),
        Call::Search => searched(ample, alloc),
        Call::List => list(alloc),
        Call::Mistake => mistake(alloc),
        Call::Notice => notice(alloc),
        Call::Page => whole(alloc, Form::Page(TracePage::new(alloc, 10, spans(ample)?))),
        Call::Lines => whole(alloc, Form::Lines(TraceText::new(alloc, spans(ample)?))),
        Call::Json => whole(alloc, Form::Json(TraceJson::new(alloc, spans(ample)?))),
        Call::Traces => String::from_utf8(write_traces(alloc, &[SUMMARY]).ok()?).ok(),
        Call::Stats => String::from_utf8(write_stats(alloc, &STATS, &[0xabc, 10]).ok()?).ok(),
    }
}

/// Whether a call gives this part of a text, with memory of which a call may be refused.
fn gives<A: Allocator + Copy>(ample: A, alloc: A, call: Call, part: &str) -> Option<bool> {
    let text = made(ample, alloc, call)?;
    Some(text.contains(part))
}

/// More calls for memory than any of the calls makes.
const MOST: u64 = 500;

/// Whether a call gives this part of a text, and where one of its calls for memory is refused is an
/// error, or does without and gives the same. Answers the first index at which it isn't so.
fn wrong_index(alloc: Global, call: Call, part: &str) -> Option<u64> {
    for index in 0..MOST {
        let ample = FailingAllocator::new(alloc, u64::MAX);
        let scarce = FailingAllocator::new(alloc, index);
        let found = gives(&ample, &scarce, call, part);
        if !scarce.has_failed() {
            return if found == Some(true) {
                None
            } else {
                Some(index)
            };
        }
        if found == Some(false) {
            return Some(index);
        }
    }
    Some(MOST)
}

#[test]
fn each_call_gives_its_text_or_is_refused_memory(rt: HostRuntime) {
    for (call, part) in ROWS {
        let found = wrong_index(rt.alloc(), call, part);
        assert_equal(&rt, (part, found), (part, None));
    }
}
