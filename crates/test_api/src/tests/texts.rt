//! How identifiers, flags and faults are displayed.
use crate::tests::equal::assert_equal;
use otlp_ids::{IdFault, OutOfMemory, SpanId, TraceFlags, TraceId};
use otlp_sampler::RatioFault;
use std::alloc::Global;
use std::fmt::Display;
use std::process::Abort;
use trace_api::StartFault;

/// Asserts what `Display` writes.
fn assert_displayed(rt: &impl Abort, alloc: Global, value: &impl Display, text: &str) {
    let found = format!(in alloc; "{value}").expect(rt, "memory");
    assert_equal(rt, found.as_str(), text);
}

#[test]
fn identifiers_are_displayed_in_lower_case(rt: HostRuntime) {
    let alloc = rt.alloc();
    let trace = TraceId([1, 2, 3, 4, 5, 6, 7, 8, 9, 10, 11, 12, 13, 14, 15, 16]);
    assert_displayed(&rt, alloc, &trace, "0102030405060708090a0b0c0d0e0f10");
    let span = SpanId([0xab, 0xcd, 0xef, 0, 0, 0, 0, 0x0f]);
    assert_displayed(&rt, alloc, &span, "abcdef000000000f");
    assert_displayed(&rt, alloc, &TraceFlags(0x0b), "0b");
    let padded = format!(in alloc; "{span:>18}").expect(&rt, "memory");
    assert_equal(&rt, padded.as_str(), "  abcdef000000000f");
}

const NO_RANDOMNESS: &str = "no randomness: only zeros were drawn";

#[test]
fn faults_are_displayed(rt: HostRuntime) {
    let alloc = rt.alloc();
    for (fault, text) in [
        (IdFault::NoRandomness, NO_RANDOMNESS),
        (
            IdFault::BadLength,
            "bad length: an identifier has two digits a byte",
        ),
        (
            IdFault::BadDigit,
            "bad digit: an identifier is written in hexadecimal",
        ),
    ] {
        assert_displayed(&rt, alloc, &fault, text);
    }
    for (fault, text) in [
        (RatioFault::Empty, "no ratio: the text is empty"),
        (
            RatioFault::NotANumber,
            "bad ratio: it is a decimal number such as 0.25 or 1e-3, without a sign before it",
        ),
        (RatioFault::AboveOne, "bad ratio: it is above 1"),
        (
            RatioFault::ZeroDenominator,
            "bad ratio: its denominator is 0",
        ),
        (
            RatioFault::ThresholdTooLarge,
            "bad threshold: it is above 2^56",
        ),
    ] {
        assert_displayed(&rt, alloc, &fault, text);
    }
    assert_displayed(&rt, alloc, &OutOfMemory, "out of memory");
    assert_displayed(&rt, alloc, &StartFault::OutOfMemory, "out of memory");
    assert_displayed(&rt, alloc, &StartFault::NoRandomness, NO_RANDOMNESS);
}
