//! What is done with a relay step by step, and what each step answers.
ghost use Rattle.std.specs.Prelude.{◌≡◌};

use crate::tests::device::TestDevice;
use crate::tests::equal::assert_equal;
use crate::tests::relay::{FIRST, Relay, opened};
use relay_queue::{Amounts, BodyKeeper, KeepFault, Loss, Report};
use relay_store::{Holdings, Naming, RelayBlank, Tried};
use retry_core::{Next, Outcome};
use spool::{MemoryFile, SpoolError};
use std::alloc::Global;
use std::marker::Brand;
use std::process::Abort;
use std::sync::Wait;

/// What is done.
#[derive(Clone, Copy, Debug)]
pub(crate) enum Step {
    /// A body is kept.
    Keep(&'static [u8]),
    /// What waits in the spool is read.
    Refill,
    /// The next batch is handed on, at this moment.
    Try(u64),
    /// The last outcome is judged, at the moment 0.
    Finish,
    /// What is kept is given up.
    Drain,
    /// The spool is taken out, a body is to be kept meanwhile, and the spool is given back, opened
    /// again.
    Reopen,
    /// So many bytes were handed on, and the spans of lost bodies are named.
    Look,
    /// What is reported.
    Report,
    /// The newest names of lost spans, so many at most.
    List(usize),
    /// What the balance says.
    Balance,
}

/// What is answered.
#[derive(Clone, Copy, Debug, PartialEq, Eq)]
pub(crate) enum Answer {
    /// Whether a body is kept.
    Kept(Result<(), KeepFault>),
    /// Whether bodies were read.
    Read(Result<bool, SpoolError>),
    /// What came of an attempt.
    Tried(Tried),
    /// What follows from it.
    Follows(Option<Next>),
    /// How many names were given, their digits, and the last status.
    Named(u64, u64, u16),
    /// How many bytes were handed on, in all attempts, and the same of names.
    Seen(usize, u64, u64, u16),
    /// What is reported.
    Reported(Report),
    /// The digits of names, and how the first one was lost.
    Listed(u64, Option<Loss>),
    /// What is kept.
    Holds(Holdings),
}

/// So many were received, of which as many were delivered and lost.
pub(crate) fn amounts(received: u64, delivered: u64, lost: u64) -> Amounts {
    Amounts {
        received,
        kept: received.saturating_sub(delivered).saturating_sub(lost),
        delivered,
        lost,
    }
}

/// How many bytes were handed on, with those of each further attempt.
fn sent_bytes<J: Naming, R>(relay: &Relay<J, R>) -> usize {
    let mut sum: usize = 0;
    for attempt in relay.exporter.handed() {
        sum = sum.saturating_add(attempt.body.len());
    }
    sum
}

/// The newest names of lost spans, of which each identifier is a byte.
fn listed<J: Naming, R: Wait + Abort + Copy>(relay: &Relay<J, R>, most: usize) -> Answer {
    let names = relay.keeper.lost(relay.alloc, most);
    let names = names.expect(&relay.rt, "memory");
    let mut digits: u64 = 0;
    for name in &names {
        for byte in name.trace.iter().chain(name.span.iter()) {
            digits = digits.wrapping_mul(10).wrapping_add(u64::from(*byte));
        }
    }
    Answer::Listed(digits, names.first().map(|name| name.loss))
}

/// Opens the spool again, while which a body is to be kept.
fn reopen<J: Naming, R: Wait + Abort + Copy>(relay: &mut Relay<J, R>) -> Answer {
    let alloc = relay.alloc;
    let files = relay.take_files().expect(&relay.rt, "a spool");
    let kept = relay.keep(FIRST);
    let device = TestDevice::new(alloc, files, u64::MAX);
    let spool = opened(alloc, device, 60).expect(&relay.rt, "a spool");
    relay.restore(spool);
    Answer::Kept(kept)
}

/// Does a step.
fn answer_to<J: Naming, R: Wait + Abort + Copy>(relay: &mut Relay<J, R>, step: Step) -> Answer {
    match step {
        Step::Keep(body) => Answer::Kept(relay.keep(body)),
        Step::Refill => Answer::Read(relay.refill()),
        Step::Try(now) => Answer::Tried(relay.try_next(now)),
        Step::Finish => Answer::Follows(relay.finish()),
        Step::Drain => {
            relay.drain();
            let sink = &relay.sink;
            Answer::Named(sink.names, sink.digits, sink.status)
        }
        Step::Reopen => reopen(relay),
        Step::Look => {
            let sink = &relay.sink;
            Answer::Seen(sent_bytes(relay), sink.names, sink.digits, sink.status)
        }
        Step::Report => Answer::Reported(relay.keeper.report()),
        Step::List(most) => listed(relay, most),
        Step::Balance => Answer::Holds(relay.holdings()),
    }
}

/// Does these steps with a relay, over these files, if it has a spool, in files of sixty bytes, with
/// these outcomes of the first attempts, and compares the answers. The files that are left.
fn play<J: Naming, R: Wait + Abort + Copy>(
    rt: R,
    alloc: Global,
    blank: RelayBlank,
    files: Option<Vec<MemoryFile>>,
    outcomes: &[Outcome],
    steps: &[(Step, Answer)],
) -> Option<Vec<MemoryFile>>
    requires { blank ≡ J.name }
{
    let spool = match files {
        Some(files) => opened(alloc, TestDevice::new(alloc, files, u64::MAX), 60).ok(),
        None => None,
    };
    let mut relay = Relay::<J, R>::new(rt, alloc, blank, 100, spool, outcomes);
    for (index, (step, wanted)) in steps.iter().enumerate() {
        let found = answer_to(&mut relay, *step);
        assert_equal(&rt, (index, found), (index, *wanted));
    }
    relay.take_files()
}

/// The same, with a relay of its own.
pub(crate) fn follow<R: Wait + Abort + Copy>(
    rt: R,
    alloc: Global,
    files: Option<Vec<MemoryFile>>,
    outcomes: &[Outcome],
    steps: &[(Step, Answer)],
) -> Option<Vec<MemoryFile>> {
    play::<Brand, R>(rt, alloc, RelayBlank::new(), files, outcomes, steps)
}
