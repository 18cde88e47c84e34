//! The sampler by a ratio.

ghost use Rattle.std.specs.Prelude.{◌≡◌, ◌<◌, ◌≤◌, ◌^◌, ◌↔◌, IfOk, IsErrOf, IsOk, IsTrue};
ghost use Rattle.std.specs.Prelude.{false, length, true};
ghost use Rattle.otlp_sampler.specs.Decimal.{denominator, is_decimal, numerator};
ghost use Rattle.otlp_sampler.specs.Ratio.{by_threshold, is_sampled_by, random_part};
ghost use Rattle.otlp_sampler.specs.Ratio.{threshold_of};

use crate::decimal::{count_of, is_decimal};
use crate::fault::RatioFault;
use crate::{Decision, Sampler};
use otlp_ids::{SpanContext, TraceId};
use otlp_span::Kind;
use std::alloc::Allocator;
use std::marker::Model;

/// How many numbers have 56 bits: 2^56.
pub(crate) const NUMBERS: u64 = 1 << 56;

/// Samples a share of all traces: a span is recorded and sampled exactly where the last 7 bytes of
/// its trace id, a number of 56 bits with its most significant byte first, are at least a threshold
/// (OpenTelemetry Trace SDK, "TraceIdRatioBased"; W3C Trace Context level 2, "random-trace-id
/// flag"). Any other span is dropped. It goes by nothing but the trace id, so that all spans of a
/// trace get one answer; as the root of `ParentBased`, it is asked for roots alone.
///
/// In contracts it is its threshold.
#[derive(Debug, Clone, Copy, PartialEq, Eq)]
pub struct TraceIdRatio {
    threshold: u64,
}

impl Model for TraceIdRatio {
    ghost use Rattle.std.specs.Prelude.{ℕ, ◌≤◌, ◌^◌};

    ghost Value = { ℕ };

    ghost view = { λ r. r.threshold };

    ghost inverse = { λ n. record { threshold = n } };

    ghost invariant = { λ r. r.threshold ≤ 2 ^ 56 };
}

impl TraceIdRatio {
    /// The ratio `numerator / denominator`, from 0 to 1. Of the 2^56 numbers that the random part
    /// of a trace id can be, it samples this share, rounded down to a whole number. So 0 samples
    /// none, 1 samples all, and no ratio samples more than its share; one below 2^-56 samples none,
    /// as 0 does. (rounding: profile)
    ///
    /// # Errors
    ///
    /// `ZeroDenominator` where the denominator is 0, else `AboveOne` where the numerator is above
    /// it.
    pub fn of(numerator: u64, denominator: u64) -> Result<TraceIdRatio, RatioFault>
        ensures value { IfOk result (λ ratio. ratio ≡ threshold_of numerator denominator) }
        ensures ok { IsOk result ↔ ((0 < denominator) × (numerator ≤ denominator)) }
        ensures zero_denominator { IsErrOf result RatioFault.ZeroDenominator ↔ (denominator ≡ 0) }
        ensures above_one { IsErrOf result RatioFault.AboveOne
            ↔ ((0 < denominator) × (denominator < numerator)) }
    {
        if denominator == 0 {
            return Err(RatioFault::ZeroDenominator);
        }
        if numerator > denominator {
            return Err(RatioFault::AboveOne);
        }
        let count = u128::from(numerator) * u128::from(NUMBERS) / u128::from(denominator);
        Ok(TraceIdRatio {
            threshold: NUMBERS - count as u64,
        })
    }

    /// The sampler with this threshold, from 0, which samples all, to 2^56, which samples none. It
    /// samples 2^56 less the threshold of the 2^56 numbers.
    ///
    /// # Errors
    ///
    /// `ThresholdTooLarge` where it is above 2^56.
    pub fn with_threshold(threshold: u64) -> Result<TraceIdRatio, RatioFault>
        ensures value { IfOk result (λ ratio. ratio ≡ threshold) }
        ensures ok { IsOk result ↔ (threshold ≤ 2 ^ 56) }
        ensures too_large { IsErrOf result RatioFault.ThresholdTooLarge ↔ (2 ^ 56 < threshold) }
    {
        if threshold > NUMBERS {
            return Err(RatioFault::ThresholdTooLarge);
        }
        Ok(TraceIdRatio { threshold })
    }

    /// The ratio that a decimal text writes, as OTEL_TRACES_SAMPLER_ARG has it: digits with at most
    /// one point before, among or after them, as in `0.1`, `1`, `1.0`, `.5` and `0`, and after them
    /// an exponent of ten, if there is one: `e` or `E`, at most one sign, and digits, as in `1e-3`,
    /// `2.5E-1` and `0.01e+2` (OpenTelemetry Environment Variable Specification,
    /// "OTEL_TRACES_SAMPLER_ARG"; the form: profile). The text and its exponent may have any
    /// length. Its number is taken exactly, and is rounded once, as in `of`.
    ///
    /// # Errors
    ///
    /// `Empty` where the text is empty, else `NotANumber` where it has another form (also one with
    /// a blank, or with a sign before the number), else `AboveOne` where its number is above 1.
    pub fn read(text: &str) -> Result<TraceIdRatio, RatioFault>
        ensures value { IfOk result (λ ratio.
            ratio ≡ threshold_of (numerator text.now) (denominator text.now)) }
        ensures ok { IsOk result
            ↔ (IsTrue (is_decimal text.now) × (numerator text.now ≤ denominator text.now)) }
        ensures empty { IsErrOf result RatioFault.Empty ↔ (length text.now ≡ 0) }
        ensures not_a_number { IsErrOf result RatioFault.NotANumber
            ↔ ((0 < length text.now) × (is_decimal text.now ≡ false)) }
        ensures above_one { IsErrOf result RatioFault.AboveOne
            ↔ (IsTrue (is_decimal text.now) × (denominator text.now < numerator text.now)) }
    {
        if text.is_empty() {
            return Err(RatioFault::Empty);
        }
        let bytes = text.as_bytes();
        if !is_decimal(bytes) {
            return Err(RatioFault::NotANumber);
        }
        let Some(count) = count_of(bytes) else {
            return Err(RatioFault::AboveOne);
        };
        Ok(TraceIdRatio {
            threshold: NUMBERS - count,
        })
    }

    /// From which number on a trace is sampled: 0 to 2^56.
    pub fn threshold(&self) -> u64
        ensures value { result ≡ self.now }
        ensures bound { result ≤ 2 ^ 56 }
    {
        self.threshold
    }

    /// Whether the spans of this trace are sampled.
    pub fn is_sampled(&self, trace: &TraceId) -> bool
        ensures value { result ≡ is_sampled_by self.now trace.now.0 }
        ensures all { self.now ≡ 0 → result ≡ true }
        ensures none { self.now ≡ 2 ^ 56 → result ≡ false }
    {
        random_part(&trace.0) >= self.threshold
    }
}

impl Default for TraceIdRatio {
    ghost use Rattle.std.specs.Prelude.{◌≡◌};

    ghost is_default = { λ ratio. ratio ≡ 0 };

    /// The ratio 1.0, which samples each trace: that of a sampler whose argument isn't set
    /// (OpenTelemetry Environment Variable Specification, "OTEL_TRACES_SAMPLER_ARG").
    fn default() -> TraceIdRatio {
        TraceIdRatio { threshold: 0 }
    }
}

impl Sampler for TraceIdRatio {
    ghost meaning = { λ threshold. by_threshold threshold };

    fn should_sample<A: Allocator>(
        &self,
        _: Option<&SpanContext<A>>,
        trace: &TraceId,
        _: &str,
        _: Kind,
    ) -> Decision {
        if self.is_sampled(trace) {
            Decision::RecordAndSample
        } else {
            Decision::Drop
        }
    }
}

/// The last 7 bytes of a trace id as a number, the most significant one first.
fn random_part(id: &[u8]) -> u64
    requires { length id.now ≡ 16 }
    ensures value { result ≡ random_part id.now }
    ensures bound { result < 2 ^ 56 }
{
    u64::from_be_bytes([0, id[9], id[10], id[11], id[12], id[13], id[14], id[15]])
}
