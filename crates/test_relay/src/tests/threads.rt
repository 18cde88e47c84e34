//! A thread that keeps thousands of bodies, in several files, while another one sends them.
ghost use Rattle.std.specs.Prelude.{◌≡◌};

use crate::tests::device::TestDevice;
use crate::tests::equal::assert_equal;
use crate::tests::relay::{Digits, Relay, keep, numbered, numbers_sent, opened};
use crate::tests::steps::amounts;
use relay_queue::BodyKeeper;
use relay_store::{Accounted, Naming, RelayBlank, RelaySender};
use span_exporter::MemoryExporter;
use std::alloc::Global;
use std::marker::Brand;
use std::process::Abort;
use std::sync::{Mutex, Wait};
use std::thread::{self, Threads};

/// How many bodies there are.
const MANY: u64 = 2_000;

/// Keeps them all.
fn post_all<K: BodyKeeper>(rt: &impl Abort, alloc: Global, keeper: &mut K) {
    for number in 0..MANY {
        let kept = keep(rt, alloc, keeper, &numbered(number));
        assert_equal(rt, kept, Ok(()));
    }
}

/// Sends what is there, so many times.
fn send_all<J: Naming, R: Wait>(
    rt: &R,
    kept: &Mutex<Accounted<J, TestDevice>>,
    sender: &mut RelaySender<J>,
    exporter: &mut MemoryExporter,
    times: u64,
) {
    let mut sink = Digits::new();
    for _ in 0..times {
        let _ = sender.try_next(rt, kept, exporter, 0);
        let _ = sender.finish(rt, kept, 0, 0, &mut sink);
    }
}

/// Keeps bodies while others are sent, and then sends the rest.
fn post_and_send<J, R>(rt: R, alloc: Global, blank: RelayBlank)
where
    J: Naming + Send + Sync,
    R: Threads + Wait + Abort + Copy + Send + Sync,
    requires { blank ≡ J.name }
{
    let device = TestDevice::new(alloc, Vec::new(alloc), u64::MAX);
    let spool = opened(alloc, device, 2_000).expect(&rt, "a spool");
    let Relay {
        kept,
        mut keeper,
        mut sender,
        mut exporter,
        ..
    } = Relay::<J, R>::new(rt, alloc, blank, 1_000, Some(spool), &[]);
    let (lock, hand, outlet) = (&*kept, &mut sender, &mut exporter);
    thread::join(
        &rt,
        move || send_all(&rt, lock, hand, outlet, MANY),
        || post_all(&rt, alloc, &mut keeper),
    );
    send_all(&rt, &kept, &mut sender, &mut exporter, MANY);
    let sent = numbers_sent(&rt, alloc, &exporter);
    let mut count = 0u64;
    for number in &sent {
        count = count.saturating_add(u64::from(*number == count));
    }
    assert_equal(&rt, (count, sent.len()), (MANY, MANY as usize));
    assert_equal(&rt, keeper.report().bodies, amounts(MANY, MANY, 0));
}

#[test]
fn thousands_of_bodies_are_kept_while_others_are_sent(rt: HostRuntime) {
    post_and_send::<Brand, HostRuntime>(rt, rt.alloc(), RelayBlank::new());
}
