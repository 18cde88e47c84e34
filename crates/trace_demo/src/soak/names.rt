//! The names of spans that aren't delivered.
use crate::soak::book::Book;
use crate::soak::losses::Loss;
use drop_ledger::NameSink;
use otlp_span::Entry;
use std::sync::{Arc, Mutex, Wait};
use std::thread;
use std::time::{Clock, Duration};

/// How often names that are on their way are looked for, and how many milliseconds apart.
const LOOKS: u32 = 5_000;

const LOOK_MS: u64 = 1;

/// Notes names in a book.
#[derive(Drop)]
pub(crate) struct NotedNames<R> {
    rt: R,
    book: Arc<Mutex<Book>>,
}

impl<R> NotedNames<R> {
    /// A sink that notes into this book.
    pub(crate) fn new(rt: R, book: Arc<Mutex<Book>>) -> NotedNames<R> {
        NotedNames { rt, book }
    }
}

impl<R: Wait> NameSink for NotedNames<R> {
    ghost use Rattle.std.specs.Prelude.{None};

    ghost named = { λ _. None };

    fn take_dropped(&mut self, entry: Entry) {
        let number = u64::from_be_bytes(entry.span.0);
        self.book.lock(&self.rt).name_dropped(number);
    }

    fn take_lost(&mut self, entry: Entry) {
        let number = u64::from_be_bytes(entry.span.0);
        let reason = entry.reason;
        self.book.lock(&self.rt).name_lost(Loss { number, reason });
    }
}

/// Waits until so many names of a round are noted, or memory for one was refused: the worker gives
/// them to the sink once it has answered the flush. After some seconds it waits no longer.
pub(crate) fn await_names<R: Wait + Clock>(rt: &R, book: &Mutex<Book>, wanted: u64) {
    for _look in 0..LOOKS {
        if book.lock(rt).has_names(wanted) {
            return;
        }
        thread::sleep(rt, Duration::from_millis(LOOK_MS));
    }
}
