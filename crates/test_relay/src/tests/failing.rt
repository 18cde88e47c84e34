//! A device that fails at each call in turn: after the spool was opened again, each body that was
//! answered for is delivered, in order.
ghost use Rattle.std.specs.Prelude.{◌≡◌};

use crate::tests::device::TestDevice;
use crate::tests::equal::assert_equal;
use crate::tests::relay::{Relay, numbered, numbers_sent, opened};
use relay_store::{Naming, RelayBlank};
use spool::{MemoryFile, Spool};
use std::alloc::Global;
use std::marker::Brand;
use std::process::Abort;
use std::sync::Wait;

/// How many bodies there are.
const BODIES: u64 = 6;

/// More calls than all of it takes.
const CALLS: u64 = 60;

/// Opens files in segments of forty bytes, on a device that doesn't fail.
fn open_again(rt: &impl Abort, alloc: Global, files: Vec<MemoryFile>) -> Spool<TestDevice> {
    let device = TestDevice::new(alloc, files, u64::MAX);
    opened(alloc, device, 40).expect(rt, "a spool")
}

/// Opens the spool again, if it failed.
fn mend<J: Naming, R: Wait + Abort + Copy>(relay: &mut Relay<J, R>) {
    if !relay.sender.has_failed(&relay.rt, &relay.kept) {
        return;
    }
    let Some(files) = relay.take_files() else {
        return;
    };
    let spool = open_again(&relay.rt, relay.alloc, files);
    relay.restore(spool);
}

/// Sends a batch, if there is one.
fn send<J: Naming, R: Wait + Abort + Copy>(relay: &mut Relay<J, R>) {
    let _ = relay.try_next(0);
    let _ = relay.finish();
    mend(relay);
}

/// Whether the first list is in the second one, in order.
fn is_in_order(few: &[u64], many: &[u64]) -> bool {
    let mut found: usize = 0;
    for number in many {
        if few.get(found) == Some(number) {
            found = found.saturating_add(1);
        }
    }
    found == few.len()
}

/// Keeps bodies, and sends each second time, over a device that fails after so many calls: the
/// numbers of the bodies that were answered for, and of what was sent.
fn run<J: Naming, R: Wait + Abort + Copy>(
    rt: R,
    alloc: Global,
    blank: RelayBlank,
    calls: u64,
) -> (Vec<u64>, Vec<u64>)
    requires { blank ≡ J.name }
{
    let device = TestDevice::new(alloc, Vec::new(alloc), calls);
    let spool = match opened(alloc, device, 40) {
        Ok(spool) => spool,
        Err(_) => open_again(&rt, alloc, Vec::new(alloc)),
    };
    let mut relay = Relay::<J, R>::new(rt, alloc, blank, 1, Some(spool), &[]);
    let mut answered = Vec::new(alloc);
    for number in 0..BODIES {
        if relay.keep(&numbered(number)).is_ok() {
            answered.push(number).expect(&rt, "memory");
        }
        mend(&mut relay);
        if number % 2 == 1 {
            send(&mut relay);
        }
    }
    for _ in 0..2 * BODIES {
        send(&mut relay);
    }
    (answered, numbers_sent(&rt, alloc, &relay.exporter))
}

#[test]
fn what_was_answered_for_is_delivered(rt: HostRuntime) {
    let mut all = 0u64;
    for calls in 0..CALLS {
        let (answered, sent) = run::<Brand, HostRuntime>(rt, rt.alloc(), RelayBlank::new(), calls);
        let refused = (BODIES as usize).saturating_sub(answered.len());
        let more = sent.len().saturating_sub(answered.len());
        let found = (is_in_order(&answered, &sent), refused <= 1, more <= 2);
        assert_equal(&rt, (calls, found), (calls, (true, true, true)));
        all = if refused == 0 && more == 0 {
            all.saturating_add(1)
        } else {
            0
        };
    }
    // Where no call fails all are answered for, and sent once.
    assert_equal(&rt, 0 < all, true);
}
