//! Threads that end their spans on passes of one processor, while another one flushes: it waits as
//! long as a span is exported, since the lock is held.
ghost use Rattle.std.specs.Prelude.{◌≡◌};

use crate::equal::assert_equal;
use crate::roots::end;
use crate::simple::neighbors::{close_out, make};
use otlp_ids::OutOfMemory;
use otlp_proto::DEFAULT_MAX_BODY;
use retry_core::Outcome;
use simple_processor::{Flushed, Naming, SimpleBlank, SimpleParts, SimplePass};
use span_exporter::Exporter;
use std::alloc::Global;
use std::marker::Brand;
use std::process::Abort;
use std::sync::atomic::{AtomicU64, Ordering};
use std::sync::{Arc, Wait};
use std::thread::{self, Threads};
use trace_api::Ended;

/// How far the first export and the flush are.
const EXPORTING: u64 = 1;

const FLUSHING: u64 = 2;

const FLUSHED: u64 = 3;

/// How often an export looks whether the flush has begun.
const BEGIN: u32 = 1_000_000_000;

/// How often it looks whether the flush is answered.
const ANSWER: u32 = 20_000_000;

/// How many threads end spans, and how many each of them.
const THREADS: usize = 4;

const SPANS: u64 = 100;

/// Whether this stage is reached within this number of looks.
fn is_reached(stage: &AtomicU64, wanted: u64, looks: u32) -> bool {
    for _ in 0..looks {
        if stage.load(Ordering::SeqCst) >= wanted {
            return true;
        }
    }
    false
}

/// An exporter whose first export waits for a flush, and for its answer, but not for ever.
#[derive(Drop)]
struct Waiting {
    stage: Arc<AtomicU64>,
    exports: u64,
    was_flushed: bool,
}

impl Exporter for Waiting {
    ghost use Rattle.std.specs.Prelude.{◌^◌, None};

    ghost handed = { λ _. None };

    ghost room = { λ _ _. 2 ^ 32 };

    fn prepare(&mut self, _size: usize, _attempts: u32) -> Result<(), OutOfMemory> {
        Ok(())
    }

    fn export(&mut self, _number: u64, _attempt: u32, _body: &[u8]) -> Outcome {
        if self.exports == 0 {
            self.stage.store(EXPORTING, Ordering::SeqCst);
            is_reached(&self.stage, FLUSHING, BEGIN);
            self.was_flushed = is_reached(&self.stage, FLUSHED, ANSWER);
        }
        self.exports = self.exports.saturating_add(1);
        Outcome::Delivered
    }
}

/// Flushes while the first span is exported.
fn flush<J: Naming, R: Wait + Abort>(
    rt: &R,
    pass: &mut SimplePass<J, Waiting, R>,
    stage: &AtomicU64,
) {
    assert_equal(rt, is_reached(stage, EXPORTING, BEGIN), true);
    stage.store(FLUSHING, Ordering::SeqCst);
    assert_equal(rt, pass.force_flush(), Flushed);
    stage.store(FLUSHED, Ordering::SeqCst);
}

/// Each pass has a thread of its own: the first one flushes, and the others end their spans.
fn use_passes<J, R>(
    rt: R,
    alloc: Global,
    passes: &mut [SimplePass<J, Waiting, R>],
    stage: &AtomicU64,
)
where
    J: Naming + Send + Sync + 'static,
    R: Threads + Wait + Abort + Copy + Send + Sync + 'static,
{
    thread::for_each_mut(
        &rt,
        passes,
        64,
        &|index, pass: &mut SimplePass<J, Waiting, R>| {
            if index == 0 {
                flush(&rt, pass, stage);
                return;
            }
            for _ in 0..SPANS {
                let answer = end(&rt, alloc, "", pass);
                assert_equal(&rt, matches!(answer, Ended::Handed(_)), true);
            }
        },
    );
}

/// Answers how many spans were exported, and whether the flush was answered within an export.
fn run<J, R>(rt: R, alloc: Global, blank: SimpleBlank) -> (u64, bool)
where
    J: Naming + Send + Sync + 'static,
    R: Threads + Wait + Abort + Copy + Send + Sync + 'static,
    requires { blank ≡ J.name }
{
    let stage = Arc::new(alloc, AtomicU64::new(0)).expect(&rt, "memory");
    let exporter = Waiting {
        stage: Arc::try_clone(&stage).expect(&rt, "memory"),
        exports: 0,
        was_flushed: false,
    };
    let made = make::<J, _, R, Global>(alloc, rt, blank, exporter, THREADS + 1, DEFAULT_MAX_BODY);
    let SimpleParts {
        processor,
        mut passes,
    } = made.expect(&rt, "a processor");
    use_passes(rt, alloc, passes.as_mut_slice(), &stage);
    let accounts = close_out(processor, passes).ok();
    let accounts = accounts.expect(&rt, "all passes are there");
    (accounts.exporter.exports, accounts.exporter.was_flushed)
}

#[test]
fn each_span_of_four_threads_is_handed_and_a_flush_waits_for_an_export(rt: HostRuntime) {
    let came = run::<Brand, HostRuntime>(rt, rt.alloc(), SimpleBlank::new());
    assert_equal(&rt, came, (THREADS as u64 * SPANS, false));
}
