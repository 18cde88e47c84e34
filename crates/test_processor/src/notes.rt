//! What a processor answered, written down word by word: a test compares the whole text.
use crate::equal::assert_equal;
use crate::roots::named;
use batch_desk::Totals;
use drop_ledger::Ledger;
use otlp_span::Entry;
use std::alloc::Allocator;
use std::fmt::{Debug, Write};
use std::process::Abort;

/// Writes an answer down.
pub(crate) fn note<A: Allocator, T: Debug + Drop>(
    rt: &impl Abort,
    notes: &mut String<A>,
    answer: T,
) {
    write!(notes, " {answer:?}").expect(rt, "memory");
}

/// Writes a name down, or that there is none.
pub(crate) fn note_name<A: Allocator>(rt: &impl Abort, notes: &mut String<A>, name: Option<Entry>) {
    match name {
        Some(entry) => note(rt, notes, named(rt, entry)),
        None => notes.push_str(" None").expect(rt, "memory"),
    }
}

/// Writes the names of a ledger down, the first one first.
pub(crate) fn note_names<A: Allocator, B: Allocator>(
    rt: &impl Abort,
    notes: &mut String<A>,
    ledger: &Ledger<B>,
) {
    for entry in ledger.iter() {
        note(rt, notes, named(rt, *entry));
    }
}

/// Writes down which counts aren't zero.
pub(crate) fn note_totals<A: Allocator>(rt: &impl Abort, notes: &mut String<A>, totals: Totals) {
    let (dropped, fates) = (totals.dropped, totals.fates);
    for (name, count) in [
        ("accepted", totals.accepted),
        ("taken", totals.taken),
        ("handed", totals.handed),
        ("lost", totals.lost),
        ("left", totals.left),
        ("late", totals.late),
        ("full", dropped.queue_full),
        ("no memory", dropped.encode_memory),
        ("too large", dropped.too_large),
        ("unsent", dropped.abandoned),
        ("delivered", fates.delivered),
        ("partial", fates.partial),
        ("refused", fates.refused),
        ("bad", fates.bad_reply),
        ("given up", fates.given_up),
        ("abandoned", fates.abandoned),
        ("closed", u64::from(totals.closed)),
    ] {
        if count > 0 {
            write!(notes, " {name} {count}").expect(rt, "memory");
        }
    }
}

/// The place of a text among these.
pub(crate) fn place_in(rt: &impl Abort, texts: &[&str], text: &str) -> usize {
    for (place, known) in texts.iter().enumerate() {
        if *known == text {
            return place;
        }
    }
    assert_equal(rt, Some(text), texts.first().copied());
    0
}
