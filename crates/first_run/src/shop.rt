//! The near side: threads of a made-up shop, whose spans end on passes of a service.
use crate::checkout::{self, serve};
use crate::collector::FirstPost;
use anyhow::{Result, ensure};
use std::alloc::Global;
use std::sync::{Arc, Mutex, Wait};
use std::time::Clock;
use trace_kit::export::RetryConfig;
use trace_kit::processor::{BatchConfig, ServicePass, Work};
use trace_kit::queue::DeskConfig;

/// How many threads serve checkouts.
pub const THREADS: usize = 3;

/// How many checkouts are served while the first post has no answer: one thread serves them all.
const EARLY: u64 = 4;

/// How many checkouts there are: each other thread serves one.
const CHECKOUTS: u64 = EARLY + THREADS as u64 - 1;

/// How many spans end.
pub const SPANS: u64 = CHECKOUTS * checkout::SPAN_COUNT as u64;

/// How many spans a batch has: those of a checkout.
const BATCH: usize = checkout::SPAN_COUNT;

/// How many spans wait at most: of those of three checkouts, all but three.
const QUEUE: usize = 3 * checkout::SPAN_COUNT - 3;

/// How the service works. A batch goes out once it is full, or by a flush, and is sent five times
/// at most, with short waits.
pub fn config() -> Result<BatchConfig> {
    Ok(BatchConfig {
        desk: DeskConfig {
            queue: QUEUE,
            batch: BATCH,
            delay_ms: 60_000,
        },
        retry: RetryConfig::new(5, 50, 1000)?,
        ..BatchConfig::default()
    })
}

/// What the threads of the shop share.
#[derive(Drop)]
pub struct Shop<R> {
    rt: R,
    alloc: Global,
    first_post: Arc<FirstPost>,
    /// How many checkouts have a thread.
    taken: Mutex<u64>,
}

impl<R> Shop<R> {
    /// A shop that has served nobody.
    pub fn new(rt: R, alloc: Global, first_post: Arc<FirstPost>) -> Shop<R> {
        Shop {
            rt,
            alloc,
            first_post,
            taken: Mutex::new(0),
        }
    }
}

impl<R: Wait + Clock> Shop<R> {
    /// Serves a checkout, whose spans are the first batch, and the other early ones while the
    /// collector keeps the answer to that: the last three spans find no room.
    fn serve_early<P: ServicePass>(&self, pass: &mut P) -> Result<()> {
        serve(self.alloc, 1, pass)?;
        ensure!(self.first_post.came.wait(&self.rt), "no post came");
        for number in 2..=EARLY {
            serve(self.alloc, number, pass)?;
        }
        Ok(())
    }
}

impl<R: Wait + Clock> Work for Shop<R> {
    type Output = Result<()>;

    /// Serves the early checkouts, or one after these. The thread that comes first serves the early
    /// ones, and the others wait for it. They don't go by their numbers: where the system gives no
    /// more threads, one thread does the work of several, and one that waits for another's work has
    /// to know that it has begun.
    fn work<P: ServicePass>(&self, _thread: usize, pass: &mut P) -> Result<()> {
        let mut taken = self.taken.lock(&self.rt);
        if *taken == 0 {
            *taken = EARLY;
            let served = self.serve_early(pass);
            self.first_post.may_be_answered.open(&self.rt);
            pass.flush()?;
            return served;
        }
        *taken = taken.saturating_add(1);
        let number = *taken;
        drop(taken);
        serve(self.alloc, number, pass)
    }
}
