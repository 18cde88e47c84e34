//! What threads do with the passes of a batch processor, each of which has a thread of its own.
use crate::equal::assert_equal;
use crate::roots::{end, named};
use batch_processor::{Flushed, Naming, Pass, WorkerLeft};
use otlp_span::Reason;
use std::alloc::Global;
use std::process::Abort;
use std::sync::Wait;
use std::sync::atomic::{AtomicU64, Ordering};
use std::thread::{self, Threads};
use std::time::{Clock, Duration};
use trace_api::Ended;

/// A batch is being sent, or a flush is asked for.
pub(crate) const BEGUN: u64 = 1;

/// A span ended meanwhile, a flush is answered, or two are asked for.
pub(crate) const DONE: u64 = 2;

/// How often a test looks whether another thread has come this far, which takes 20 seconds or more.
/// Then it fails.
pub(crate) const LOOKS: u32 = 4_000_000;

/// Looks `looks` times whether this stage is reached, and lets others go first at each thousandth
/// look.
pub(crate) fn is_reached(rt: &impl Clock, stage: &AtomicU64, wanted: u64, looks: u32) -> bool {
    for look in 0..looks {
        if stage.load(Ordering::SeqCst) >= wanted {
            return true;
        }
        if look % 1000 == 0 {
            thread::sleep(rt, Duration::from_millis(5));
        }
    }
    false
}

/// What is done with the passes of a processor, before it is shut down.
#[derive(Clone, Copy)]
pub(crate) enum Task {
    /// Each thread ends this number of spans. Each is queued, or finds the queue full.
    EndMany(u64),
    /// The same, but the first one shuts the processor down meanwhile, so that spans are late.
    EndLate(u64),
    /// Each thread but the first ends this number of spans, all of which are refused. Meanwhile the
    /// first one takes out their names.
    LoseMany(u64),
    /// A span ends, and another one while it is being sent.
    EndWhileSending,
    /// A span has ended on the last pass, and its batch isn't full. Each other one asks for a
    /// flush. The stage counts how often one asks or is answered.
    Flush,
    /// A span has ended, which no thread sends. A flush asks for it until the worker leaves.
    FlushUntilItLeaves,
    /// Three spans end, one less than a batch has. Some milliseconds later, when the worker waits,
    /// this call has it send them.
    CallWorker(Call),
}

/// What gives a worker that waits a batch to send.
#[derive(Clone, Copy)]
pub(crate) enum Call {
    /// A span ends, and fills the batch.
    End,
    /// A flush, which waits until the batch is sent.
    Flush,
    /// A shutdown, which waits too.
    Shutdown,
    /// A shutdown that doesn't wait.
    BeginShutdown,
}

/// Ends this number of spans on a pass.
fn end_spans<J: Naming, R: Wait + Abort>(
    rt: &R,
    alloc: Global,
    pass: &mut Pass<J, R>,
    spans: u64,
    may_be_late: bool,
) {
    for _ in 0..spans {
        let answer = end(rt, alloc, "", pass);
        let is_given = match answer {
            Ended::Queued(_) | Ended::Dropped(_, Reason::QueueFull) => true,
            Ended::Late => may_be_late,
            _ => false,
        };
        assert_equal(rt, (is_given, answer), (true, answer));
    }
}

/// Takes out the names of this number of lost spans on a pass, as they come: each ticket once.
fn pop_each<J: Naming, R: Wait + Abort + Clock>(
    rt: &R,
    alloc: Global,
    pass: &mut Pass<J, R>,
    spans: u64,
) {
    let mut tickets = Vec::new(alloc);
    for _ in 0..spans.saturating_add(20_000) {
        if let Some(lost) = pass.pop_lost() {
            let (ticket, reason) = named(rt, lost);
            assert_equal(rt, reason, Reason::Refused(400));
            tickets.push(ticket).expect(rt, "memory");
        } else if (tickets.len() as u64) < spans {
            thread::sleep(rt, Duration::from_millis(1));
        }
    }
    tickets.sort().expect(rt, "memory");
    assert_equal(rt, tickets.len() as u64, spans);
    for (ticket, place) in tickets.iter().zip(0..spans) {
        assert_equal(rt, *ticket, place);
    }
}

/// Gives a worker that waits a batch to send, by this call, and looks whether it is sent.
fn call_worker<J: Naming, R: Wait + Abort + Clock>(
    rt: &R,
    alloc: Global,
    pass: &mut Pass<J, R>,
    call: Call,
    stage: &AtomicU64,
) {
    end_spans(rt, alloc, pass, 3, false);
    thread::sleep(rt, Duration::from_millis(2));
    match call {
        Call::End => end_spans(rt, alloc, pass, 1, false),
        Call::Flush => assert_equal(rt, pass.force_flush(), Ok(Flushed)),
        Call::Shutdown => assert_equal(rt, pass.shutdown(), Ok(Flushed)),
        Call::BeginShutdown => pass.begin_shutdown(),
    }
    assert_equal(rt, is_reached(rt, stage, BEGUN, LOOKS), true);
}

/// Asks for a flush, and counts that it asks and that it is answered.
fn flush<J: Naming, R: Wait + Abort>(
    rt: &R,
    pass: &mut Pass<J, R>,
    stage: &AtomicU64,
    is_flushed: bool,
) {
    stage.fetch_add(1, Ordering::SeqCst);
    let want = if is_flushed {
        Ok(Flushed)
    } else {
        Err(WorkerLeft)
    };
    assert_equal(rt, pass.force_flush(), want);
    stage.fetch_add(1, Ordering::SeqCst);
}

/// Does the part of a task that is done on the pass at this place, beside so many others.
fn do_part<J: Naming, R: Wait + Abort + Clock>(
    rt: &R,
    alloc: Global,
    task: Task,
    place: u64,
    others: u64,
    pass: &mut Pass<J, R>,
    stage: &AtomicU64,
) {
    match task {
        Task::EndMany(spans) => end_spans(rt, alloc, pass, spans, false),
        Task::EndLate(_) if place == 0 => assert_equal(rt, pass.shutdown(), Ok(Flushed)),
        Task::EndLate(spans) => end_spans(rt, alloc, pass, spans, true),
        Task::LoseMany(spans) if place == 0 => {
            pop_each(rt, alloc, pass, spans.saturating_mul(others));
        }
        Task::LoseMany(spans) => end_spans(rt, alloc, pass, spans, false),
        Task::EndWhileSending => {
            end_spans(rt, alloc, pass, 1, false);
            assert_equal(rt, is_reached(rt, stage, BEGUN, LOOKS), true);
            end_spans(rt, alloc, pass, 1, false);
            stage.store(DONE, Ordering::SeqCst);
        }
        Task::Flush if place < others => flush(rt, pass, stage, true),
        Task::Flush => {
            let all = others.saturating_mul(2);
            assert_equal(rt, is_reached(rt, stage, all, LOOKS), true);
        }
        Task::FlushUntilItLeaves => flush(rt, pass, stage, false),
        Task::CallWorker(call) => call_worker(rt, alloc, pass, call, stage),
    }
}

/// Each pass has a thread of its own, which does its part.
fn do_on_each<J, R>(rt: R, alloc: Global, passes: &mut [Pass<J, R>], task: Task, stage: &AtomicU64)
where
    J: Naming + Send + Sync + 'static,
    R: Threads + Wait + Abort + Clock + Copy + Send + Sync + 'static,
{
    let others = passes.len().saturating_sub(1) as u64;
    thread::for_each_mut(
        &rt,
        passes,
        64,
        &|index, pass: &mut Pass<J, R>| {
            do_part(&rt, alloc, task, index as u64, others, pass, stage);
        },
    );
}

/// Does a task and shuts the processor down. Then a span that ends is late.
pub(crate) fn do_task<J, R>(
    rt: R,
    alloc: Global,
    mut passes: Vec<Pass<J, R>>,
    task: Task,
    stage: &AtomicU64,
) -> Vec<Pass<J, R>>
where
    J: Naming + Send + Sync + 'static,
    R: Threads + Wait + Abort + Clock + Copy + Send + Sync + 'static,
{
    if matches!(task, Task::Flush | Task::FlushUntilItLeaves) {
        let last = passes.last_mut().expect(&rt, "a pass");
        end_spans(&rt, alloc, last, 1, false);
    }
    do_on_each(rt, alloc, passes.as_mut_slice(), task, stage);
    let last = passes.last_mut().expect(&rt, "a pass");
    let is_flushed = last.shutdown().is_ok();
    let leaves = matches!(task, Task::FlushUntilItLeaves);
    assert_equal(&rt, is_flushed, !leaves);
    let first = passes.first_mut().expect(&rt, "a pass");
    assert_equal(&rt, end(&rt, alloc, "", first), Ended::Late);
    passes
}
