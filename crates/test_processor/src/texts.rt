//! How faults are reported.
use crate::equal::assert_equal;
use batch_processor::{NewFault, WorkerLeft};
use simple_processor::SimpleFault;
use std::fmt::{Display, Write};
use std::process::Abort;

/// What a fault says, added to a text.
fn add<T: Display + Drop>(rt: &impl Abort, text: &mut String, fault: T) {
    write!(text, "{fault}; ").expect(rt, "memory");
}

#[test]
fn each_fault_says_what_was_wrong(rt: HostRuntime) {
    let mut text = String::new(rt.alloc());
    for fault in [
        NewFault::BadPasses,
        NewFault::ZeroSize,
        NewFault::BatchAboveQueue,
        NewFault::TooLarge,
        NewFault::OutOfMemory,
    ] {
        add(&rt, &mut text, fault);
    }
    add(&rt, &mut text, SimpleFault::BadPasses);
    add(&rt, &mut text, SimpleFault::OutOfMemory);
    add(&rt, &mut text, WorkerLeft);
    let want = concat!(
        "a processor has 1 to 64 passes; a queue and a batch have room for a span; ",
        "a batch is no larger than the queue; a queue has room for 65,536 spans at most; ",
        "out of memory; a processor has 1 to 64 passes; out of memory; the worker has left; ",
    );
    assert_equal(&rt, text.as_str(), want);
}
