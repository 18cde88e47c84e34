//! Trees of spans: the text of one, and large lists.

use crate::tests::equal::assert_equal;
use otlp_ids::OutOfMemory;
use std::alloc::{AllocError, Allocator, Global};
use std::process::Abort;
use trace_tree::{Place, Row, TreeSpan, arrange, write_tree};

/// A span without an error.
fn span<'a>(id: &'a [u8], parent: &'a [u8], name: &'a str, start: u64, end: u64) -> TreeSpan<'a> {
    TreeSpan {
        span_id: id,
        parent_span_id: parent,
        name,
        start_time_unix_nano: start,
        end_time_unix_nano: end,
        is_error: false,
    }
}

/// The text of the tree of these spans, with bars of so many columns.
pub(crate) fn text_of<A: Allocator + Copy>(
    alloc: A,
    spans: &[TreeSpan],
    width: usize,
) -> Result<String<A>, OutOfMemory> {
    let rows = arrange(alloc, spans)?;
    let mut text = String::new(alloc);
    write_tree(&mut text, spans, &rows, width)?;
    Ok(text)
}

/// The spans of a request: its root, two children, one of which has an error below it, and a span
/// whose parent was not received.
pub(crate) fn request() -> [TreeSpan<'static>; 5] {
    let mut query = span(
        b"d",
        b"c",
        "SELECT * FROM carts WHERE owner = $1 AND open",
        23_000_000,
        84_200_000,
    );
    query.is_error = true;
    [
        span(b"a", b"", "GET /checkout", 1_000, 120_001_000),
        span(b"b", b"a", "render\u{202e}\n", 85_000_000, 119_000_000),
        span(b"c", b"a", "load cart", 3_000_000, 84_500_000),
        query,
        span(b"e", b"z", "fl\u{fc}sh", 40_000_000, 40_000_450),
    ]
}

/// The text of the tree of a request.
pub(crate) const REQUEST: &str = "\
GET /checkout                            |####################| 120ms
  load cart                              |##############      | 81.5ms
    SELECT * FROM carts WHERE owner = $~ |   ###########      | 61.2ms  error
  render??                               |              ##### | 34.0ms
fl\u{fc}sh                                    |      #             | 0.45us  parent not received
";

/// How many spans each large list has: they take no more stack than small ones.
const COUNT: u64 = 10_000;

/// So many identifiers.
fn ids(alloc: Global) -> Result<Vec<[u8; 8]>, AllocError> {
    let mut ids = Vec::new(alloc);
    for number in 0..COUNT {
        ids.push(number.to_be_bytes())?;
    }
    Ok(ids)
}

/// Spans of these identifiers. The first one has this parent; each other one is the child of the
/// one before it, or else of the first.
fn family<'a>(
    alloc: Global,
    ids: &'a [[u8; 8]],
    first_parent: &'a [u8],
    is_chain: bool,
) -> Result<Vec<TreeSpan<'a>>, AllocError> {
    let mut spans = Vec::new(alloc);
    let mut parent = first_parent;
    for id in ids {
        spans.push(span(id, parent, "span", 1, 2))?;
        if is_chain || spans.len() == 1 {
            parent = id;
        }
    }
    Ok(spans)
}

#[test]
fn ten_thousand_in_one_chain_in_one_cycle_and_under_one_root(rt: HostRuntime) {
    let ids = ids(rt.alloc()).expect(&rt, "memory");
    let last = (COUNT - 1).to_be_bytes();
    for (parent, is_chain, first) in [
        (b"".as_slice(), true, Place::Root),
        (last.as_slice(), true, Place::Cycle),
        (b"".as_slice(), false, Place::Root),
    ] {
        let spans = family(rt.alloc(), &ids, parent, is_chain).expect(&rt, "memory");
        let rows = arrange(rt.alloc(), &spans).expect(&rt, "memory");
        assert_equal(&rt, rows.len() as u64, COUNT);
        for (index, row) in rows.iter().enumerate() {
            let wanted = Row {
                index,
                depth: if is_chain { index } else { index.min(1) },
                place: if index == 0 { first } else { Place::Child },
            };
            assert_equal(&rt, *row, wanted);
        }
    }
}
