//! Large lists, texts and arrays.
use crate::tests::equal::assert_equal;
use crate::tests::short_spans::start;
use crate::tests::spans::{WORD, only_span, words};
use otlp_sampler::TraceIdRatio;
use otlp_value::Value;
use std::alloc::{Allocator, Global};
use std::process::Abort;
use trace_api::{BodyPass, Ended, KeyValue, SpanExt};

const MANY: usize = 1_000;

/// A thousand keys, each of its number in digits.
fn keys(rt: &impl Abort, alloc: Global) -> Vec<String> {
    let mut keys = Vec::new(alloc);
    for number in 0..MANY {
        let key = format!(in alloc; "{number}").expect(rt, "memory");
        keys.push(key).expect(rt, "memory");
    }
    keys
}

/// An attribute of each key, with the value 1.
fn attributes<'a>(rt: &impl Abort, alloc: Global, keys: &'a [String]) -> Vec<KeyValue<'a>> {
    let mut pairs = Vec::new(alloc);
    for key in keys {
        pairs
            .push(KeyValue::new(key.as_str(), &1))
            .expect(rt, "memory");
    }
    pairs
}

/// How many items an array has that was set under the first key.
fn items_of<A: Allocator>(value: Option<&(String<A>, Value<A>)>) -> Option<usize> {
    match value {
        Some((_, Value::Ints(numbers))) => Some(numbers.len()),
        _ => None,
    }
}

#[test]
fn a_thousand_attributes_are_set_as_the_limits_say(rt: HostRuntime) {
    let alloc = rt.alloc();
    let keys = keys(&rt, alloc);
    let pairs = attributes(&rt, alloc, keys.as_slice());
    let mut words = words(&rt, alloc, WORD);
    let mut span = start(&rt, alloc, alloc, &mut words).expect(&rt, "a span starts");
    let numbers = [7i64; MANY];
    assert_equal(&rt, span.set("db.system", numbers.as_slice()), Ok(()));
    assert_equal(&rt, span.set_all(pairs.as_slice()), Ok(()));
    let mut pass = BodyPass::new(alloc, 1).expect(&rt, "memory");
    assert_equal(&rt, span.end(&mut pass, 6), Ended::Queued(0));
    let kept = only_span(&rt, &pass);
    // Two keys were there: 126 of the thousand are kept.
    let counts = (kept.attributes().len(), kept.dropped_attributes_count());
    assert_equal(&rt, counts, (128, 874));
    assert_equal(&rt, items_of(kept.attributes().first()), Some(MANY));
}

#[test]
fn a_ratio_has_a_hundred_thousand_digits(rt: HostRuntime) {
    let mut text = String::from_str(rt.alloc(), "0.").expect(&rt, "memory");
    for _ in 0..100_000 {
        text.push('1').expect(&rt, "memory");
    }
    // It is a little below 1/9, and 2^56 / 9 is 8006399337547548.4.
    let ratio = TraceIdRatio::read(&text).expect(&rt, "a ratio");
    assert_equal(&rt, ratio.threshold(), (1 << 56) - 8_006_399_337_547_548);
}
