//! An exporter over links that fail at random, at whose far side a collector is.
use crate::soak::book::{Attempt, Book, numbers_of};
use crate::soak::course::Course;
use http_exporter::LinkExporter;
use http_wire::{Counted, FailingWire, HeadLimits};
use otlp_http::{DEFAULT_PATH, DEFAULT_PORT, Target};
use otlp_ids::OutOfMemory;
use otlp_read::read_request;
use otlp_serve::read_post;
use rand_core::SeedableRng;
use rand_pcg::Pcg64;
use retry_core::Outcome;
use span_exporter::Exporter;
use std::alloc::{AllocError, Global};
use std::sync::{Arc, Mutex, Wait};

/// How many bytes a call gives or takes.
const MOST: usize = 1_024;

/// Dials nothing: each link is made where it is wanted.
#[derive(Debug, Drop)]
struct NoDial;

/// Posts each body over a link of its own, which goes as a generator says, and notes what both its
/// sides know.
#[derive(Drop)]
pub(crate) struct RandomLinks<R> {
    rt: R,
    alloc: Global,
    /// What the generator of the next attempt begins with.
    seed: u64,
    posts: LinkExporter<NoDial>,
    book: Arc<Mutex<Book>>,
}

impl<R: Wait + Drop> RandomLinks<R> {
    /// An exporter that notes into this book. The generator of its first attempt begins with this
    /// seed, that of each further one with one more, modulo 2^64. `None` where memory was refused.
    pub(crate) fn new(
        rt: R,
        alloc: Global,
        seed: u64,
        book: Arc<Mutex<Book>>,
    ) -> Option<RandomLinks<R>> {
        let target = Target::new(alloc, "127.0.0.1", DEFAULT_PORT, DEFAULT_PATH).ok()?;
        Some(RandomLinks {
            rt,
            alloc,
            seed,
            posts: LinkExporter::over(alloc, alloc, NoDial, target),
            book,
        })
    }

    /// Posts a body over the next link, if there is one, and notes it.
    fn attempt(&mut self, number: u32, body: &[u8]) -> Result<Outcome, AllocError> {
        let course = Course::draw(&mut Pcg64::seed_from_u64(self.seed));
        self.seed = self.seed.wrapping_add(1);
        let mut attempt = Attempt {
            number,
            body,
            course,
            is_whole: false,
            outcome: Outcome::NoReply,
        };
        if course == Course::NoLink {
            self.book.lock(&self.rt).note(&attempt)?;
            return Ok(Outcome::NoReply);
        }
        let (reply, output) = (course.reply(self.alloc)?, Vec::new(self.alloc));
        let mut wire = FailingWire::new(reply, output, MOST, course.failing());
        attempt.outcome = self.posts.post(&mut wire, body);
        let spans = spans_in(self.alloc, wire.taken());
        attempt.is_whole = spans.is_some();
        let mut book = self.book.lock(&self.rt);
        if let Some(spans) = spans {
            if course != Course::Refused {
                book.keep(wire.taken(), spans)?;
            }
        }
        book.note(&attempt)?;
        Ok(attempt.outcome)
    }
}

/// The numbers of the spans of a request, as a collector reads it. `None` where the text isn't the
/// whole of one that it takes, or memory is refused.
fn spans_in(alloc: Global, text: &[u8]) -> Option<Vec<u64>> {
    let limits = HeadLimits {
        body: text.len(),
        ..HeadLimits::default()
    };
    let post = read_post(alloc, alloc, &mut Counted::new(text), &limits).ok()?;
    if post.refusal().is_some() {
        return None;
    }
    let request = read_request(alloc, &post.body).ok()?;
    numbers_of(alloc, &request).ok()
}

impl<R: Wait + Drop> Exporter for RandomLinks<R> {
    ghost use Rattle.std.specs.Prelude.{◌^◌, None};

    ghost handed = { λ _. None };

    ghost room = { λ _ _. 2 ^ 32 };

    fn prepare(&mut self, _size: usize, _attempts: u32) -> Result<(), OutOfMemory> {
        Ok(())
    }

    fn export(&mut self, _number: u64, attempt: u32, body: &[u8]) -> Outcome {
        match self.attempt(attempt, body) {
            Ok(outcome) => outcome,
            Err(_) => {
                self.book.lock(&self.rt).is_short = true;
                Outcome::NoReply
            }
        }
    }
}
