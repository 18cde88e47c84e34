//! Each public call that takes memory, with as much as there is, and with each call for it refused
//! in turn.

use crate::tests::equal::assert_equal;
use crate::tests::fixture::{BODY, Found, MESSAGES, REPLY, read, target, wire};
use http_exporter::{CodesBodies, CompressedExporter, Dial, Failure, LinkExporter, ReportsFailure};
use otlp_http::{
    Coding, FailingCalls, FailingWire, HeaderFault, HeaderFields, HttpFault, Target, TargetFault,
};
use retry_core::Outcome;
use std::alloc::{Allocator, Global};
use std::process::Abort;
use test_support::FailingAllocator;

/// What a call comes to.
#[derive(Clone, Copy, Debug, PartialEq, Eq)]
enum Came {
    /// What it comes to with ample memory.
    Whole,
    /// What it comes to where memory was refused.
    Refused,
    Other,
}

/// What a target came to.
fn of_target<A: Allocator>(target: &Result<Target<A>, TargetFault>) -> Came {
    match target {
        Ok(target) if target.host() == "127.0.0.1" && target.path() == "/v1/traces" => Came::Whole,
        Err(TargetFault::OutOfMemory) => Came::Refused,
        _ => Came::Other,
    }
}

/// Two fields of a program's own, of which the second has an empty value.
fn two_fields<A: Allocator + Copy>(alloc: A) -> Result<HeaderFields<A>, HeaderFault> {
    let mut fields = HeaderFields::new(alloc);
    fields.push("api-key", "s3cret")?;
    fields.push("X-Empty", "")?;
    Ok(fields)
}

/// Their lines.
const LINES: &[u8] = b"api-key: s3cret\r\nX-Empty: \r\n";

/// What these fields came to.
fn of_fields<A: Allocator>(fields: &Result<HeaderFields<A>, HeaderFault>) -> Came {
    match fields {
        Ok(fields) if fields.lines() == LINES => Came::Whole,
        Err(HeaderFault::OutOfMemory) => Came::Refused,
        _ => Came::Other,
    }
}

/// What a message came to.
fn of_message(found: &Found) -> Came {
    match found {
        (body, None, _, _) if body.as_slice() == BODY => Came::Whole,
        (_, Some((_, HttpFault::OutOfMemory)), _, _) => Came::Refused,
        _ => Came::Other,
    }
}

/// An exporter that takes all, and keeps the coding and the length of the last body.
#[derive(Drop)]
struct Last {
    coding: Coding,
    body: (Coding, usize),
}

impl ReportsFailure for Last {
    ghost use Rattle.std.specs.Prelude.{None, ⊤};

    ghost attempts = { λ _ _ _ _. ⊤ };

    ghost reported = { λ _. None };

    fn attempt(&mut self, body: &[u8]) -> Outcome {
        self.body = (self.coding, body.len());
        Outcome::Delivered
    }

    fn last_failure(&self) -> Option<&Failure> {
        None
    }
}

impl CodesBodies for Last {
    ghost coded = { λ last coding. record last { coding = coding } };

    fn set_coding(&mut self, coding: Coding) {
        self.coding = coding;
    }
}

/// What the first body came to of an exporter that compresses: 200 bytes, or a file with a header of
/// ten, a literal of eight bits, a copy of 199 bytes of 13 bits and 5, three bits at the beginning
/// and seven at the end, and eight bytes of check and length.
fn compressed<A: Allocator + Copy + Drop>(alloc: A) -> Came {
    let last = Last {
        coding: Coding::Identity,
        body: (Coding::Identity, 0),
    };
    let mut exporter = CompressedExporter::new(alloc, last, Coding::Gzip);
    exporter.attempt(&[7; 200]);
    match exporter.exporter().body {
        (Coding::Gzip, 23) => Came::Whole,
        (Coding::Identity, 200) => Came::Refused,
        _ => Came::Other,
    }
}

/// A dial that gives one link.
#[derive(Drop)]
struct OneLink(Option<FailingWire>);

impl Dial for OneLink {
    type Link = FailingWire;

    fn dial(&mut self, _host: &str, _port: u16) -> Option<FailingWire> {
        self.0.take()
    }
}

/// What an attempt came to over a link that gives the reply. Memory that is refused for its head is
/// no reply, and for its body a status alone.
fn attempted<A: Allocator + Copy>(alloc: A, global: Global, link: FailingWire) -> Came {
    let Ok(target) = target(alloc) else {
        return Came::Refused;
    };
    let mut exporter = LinkExporter::over(alloc, global, OneLink(Some(link)), target);
    match exporter.attempt(b"abc") {
        Outcome::Partial(2) => Came::Whole,
        Outcome::NoReply | Outcome::Delivered => Came::Refused,
        _ => Came::Other,
    }
}

/// What the call with this number comes to in this memory.
fn call<A: Allocator + Copy + Drop>(
    rt: &impl Abort,
    alloc: A,
    global: Global,
    number: usize,
) -> Came {
    if number < MESSAGES.len() {
        let (is_post, _, text) = MESSAGES[number];
        let mut wire = wire(rt, global, text, 64, FailingCalls::Never);
        return of_message(&read(rt, alloc, &mut wire, global, is_post));
    }
    match number {
        4 => of_target(&target(alloc)),
        5 => of_fields(&two_fields(alloc)),
        6 => compressed(alloc),
        _ => {
            let link = wire(rt, global, REPLY, 64, FailingCalls::Never);
            attempted(alloc, global, link)
        }
    }
}

/// How often each call asks for memory, or oftener.
const LEAST: [u64; 8] = [2, 4, 5, 5, 2, 6, 5, 4];

#[test]
fn each_call_is_made_and_each_memory_of_it_is_refused_in_turn(rt: HostRuntime) {
    let alloc = rt.alloc();
    for (number, least) in LEAST.iter().enumerate() {
        let mut refused = 0u64;
        for fail_index in 0..64u64 {
            let scarce = FailingAllocator::new(alloc, fail_index);
            let came = call(&rt, &scarce, alloc, number);
            // A vector or a text that is refused room for more asks once more, for what it needs.
            let is_right = came == Came::Whole || came == Came::Refused && scarce.has_failed();
            assert_equal(
                &rt,
                (number, fail_index, is_right),
                (number, fail_index, true),
            );
            refused = refused.saturating_add(u64::from(came == Came::Refused));
        }
        assert_equal(&rt, (number, refused >= *least), (number, true));
        assert_equal(
            &rt,
            (number, call(&rt, alloc, alloc, number)),
            (number, Came::Whole),
        );
    }
}
