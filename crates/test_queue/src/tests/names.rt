//! Large ledgers and sinks of names, and a writer of names that fails.
use crate::tests::equal::assert_equal;
use crate::tests::spans::{Spans, name};
use drop_ledger::{DEFAULT_NAMES, Ledger, NameLines, NameSink, NewestNames};
use otlp_span::{Entry, Reason};
use std::collections::vec_deque::Iter;
use std::io::{self, ErrorKind, Write};
use std::ops::Range;
use std::process::Abort;
use std::test::Fail;

/// More names than a recursion could let go.
const MANY: u64 = 70_000;

/// Of these so many are dropped for lack of room.
const FEW: u64 = 30_000;

/// Drops spans of these numbers.
fn drop_spans(
    rt: &impl Abort,
    spans: &Spans,
    ledger: &mut Ledger,
    numbers: Range<u64>,
    reason: Reason,
) {
    for number in numbers {
        let slip = spans.ended(rt, number).into_slip();
        assert!(rt; ledger.len() < u64::MAX);
        ledger.push(slip, name(number, reason));
    }
}

#[test]
fn a_long_ledger_is_counted_and_let_go(rt: HostRuntime) {
    let spans = Spans::new(&rt, rt.alloc());
    let mut ledger = Ledger::new();
    drop_spans(&rt, &spans, &mut ledger, 0..FEW, Reason::QueueFull);
    drop_spans(&rt, &spans, &mut ledger, FEW..MANY, Reason::TooLarge);
    let few = ledger.count(Reason::QueueFull);
    assert_equal(&rt, (few, ledger.len()), (FEW, MANY));
    let oldest = name(0, Reason::QueueFull);
    assert_equal(&rt, ledger.iter().last(), Some(&oldest));
    drop(ledger);
}

/// More names than a sink keeps where nothing else is said.
const GIVEN: u64 = 100_000;

/// How many of them are no longer kept.
const OLDER: u64 = 34_464;

/// Compares names with those of spans with consecutive numbers, and answers the number after them.
fn compare(rt: &impl Abort, names: Iter<'_, Entry>, first: u64, reason: Reason) -> u64 {
    let mut number = first;
    for entry in names {
        assert_equal(rt, *entry, name(number, reason));
        number = number.wrapping_add(1);
    }
    number
}

#[test]
fn of_a_hundred_thousand_names_the_newest_are_kept(rt: HostRuntime) -> Result<(), Fail> {
    let mut sink = NewestNames::new(rt.alloc(), DEFAULT_NAMES)?;
    for number in 0..GIVEN {
        sink.take_dropped(name(number, Reason::TooLarge));
        sink.take_lost(name(number, Reason::GivenUp));
    }
    let dropped = compare(&rt, sink.dropped(), OLDER, Reason::TooLarge);
    let lost = compare(&rt, sink.lost(), OLDER, Reason::GivenUp);
    assert_equal(&rt, (dropped, lost), (GIVEN, GIVEN));
    let older = sink.older();
    assert_equal(&rt, (older.too_large, older.given_up), (OLDER, OLDER));
    Ok(())
}

/// Takes so many bytes, then fails.
#[derive(Drop)]
struct Narrow {
    taken: Vec<u8>,
    left: usize,
}

impl Write for Narrow {
    fn write(&mut self, bytes: &[u8]) -> io::Result<usize> {
        let count = bytes.len().min(self.left);
        if count == 0 {
            return Err(io::Error::from(ErrorKind::BrokenPipe));
        }
        self.taken.extend_from_slice(&bytes[..count])?;
        self.left -= count;
        Ok(count)
    }

    fn flush(&mut self) -> io::Result<()> {
        Ok(())
    }
}

/// The lines of four names, which have 70, 66, 69 and 71 bytes.
const LINES: &str = concat!(
    "dropped 1 01010101010101010101010101010101 0000000000000001 too-large\n",
    "lost 2 01010101010101010101010101010101 0000000000000002 attempts\n",
    "lost 3 01010101010101010101010101010101 0000000000000003 refused 429\n",
    "dropped 4 01010101010101010101010101010101 0000000000000004 queue-full\n",
);

/// Gives the four names to a sink that writes to this writer, and answers the writer, and for how
/// many names there is no whole line.
fn write_four(rt: &impl Abort, narrow: Narrow) -> (Narrow, u64) {
    let mut sink = NameLines::new(narrow);
    sink.take_dropped(name(1, Reason::TooLarge));
    sink.take_lost(name(2, Reason::GivenUp));
    sink.take_lost(name(3, Reason::Refused(429)));
    sink.take_dropped(name(4, Reason::QueueFull));
    let unwritten = sink.unwritten();
    let failed = sink.error().map(|error| error.kind());
    let want = (unwritten > 0).then_some(ErrorKind::BrokenPipe);
    assert_equal(rt, failed, want);
    (sink.into_writer(), unwritten)
}

#[test]
fn after_a_write_that_fails_names_are_only_counted(rt: HostRuntime) {
    for (left, want) in [(0, 4), (69, 4), (70, 3), (136, 2), (275, 1), (276, 0)] {
        let taken = Vec::new(rt.alloc());
        let (narrow, unwritten) = write_four(&rt, Narrow { taken, left });
        let written = narrow.taken.as_slice();
        let begins = LINES.as_bytes().starts_with(written);
        let found = (begins, written.len(), unwritten);
        assert_equal(&rt, found, (true, left, want));
    }
}
