//! Sampling by a ratio: thresholds, trace ids and texts.

ghost use Rattle.std.specs.Prelude.{◌≡◌, ◌+◌, ◌-◌, ◌^◌, codes, false, true};
ghost use Rattle.model_span.specs.Sampling as model;
ghost use Rattle.otlp_sampler.specs.Decimal.{denominator, is_decimal, numerator};
ghost use Rattle.otlp_sampler.specs.Ratio.{by_threshold, is_sampled_by, random_part};
ghost use Rattle.otlp_sampler.specs.Ratio.{threshold_of};
ghost use Rattle.worked_sdk.specs.OtherRules.{go_samples, python_samples};
ghost use Rattle.worked_sdk.specs.TraceIds.{first_id, second_id};

use otlp_sampler::{ParentBased, Sampler, TraceIdRatio};

/// Thresholds of ratios. OpenTelemetry writes those of 1, 1/2 and 1/4 as `0`, `8` and `c`: their
/// first hexadecimal digits, of 14 (TraceState: Probability Sampling, "Rejection Threshold").
pub fn thresholds()
    ensures all { threshold_of 1 1 ≡ 0 }
    ensures half { threshold_of 1 2 ≡ 0x80000000000000 }
    ensures quarter { threshold_of 1 4 ≡ 0xc0000000000000 }
    ensures unreduced { threshold_of 25 100 ≡ 0xc0000000000000 }
    ensures none { threshold_of 0 1 ≡ 0x100000000000000 }
    // A tenth of the numbers is 7205759403792793.6, and a third 24019198012642645.3.
    ensures tenth { threshold_of 1 10 ≡ 0xe6666666666667 }
    ensures third { threshold_of 1 3 ≡ 0xaaaaaaaaaaaaab }
    // The least ratio that samples a number, and one that is smaller.
    ensures least { threshold_of 1 (2 ^ 56) ≡ 0xffffffffffffff }
    ensures smaller { threshold_of 1 (2 ^ 56 + 1) ≡ 0x100000000000000 }
    ensures almost_all { threshold_of (2 ^ 64 - 2) (2 ^ 64 - 1) ≡ 1 }
{}

/// The trace ids that W3C Trace Context has as examples ("trace-id").
pub fn trace_ids()
    ensures first { random_part first_id ≡ 0xce929d0e0e4736 }
    ensures second { random_part second_id ≡ 0x48eb211c80319c }
    // The first one at 1/4, and at 1/8.
    ensures quarter { is_sampled_by 0xc0000000000000 first_id ≡ true }
    ensures eighth { is_sampled_by 0xe0000000000000 first_id ≡ false }
    // A number is sampled at itself as the threshold, and not at the next one.
    ensures itself { is_sampled_by 0x48eb211c80319c second_id ≡ true }
    ensures next { is_sampled_by 0x48eb211c80319d second_id ≡ false }
{}

/// The same trace ids by the rules of the Go and of the Python SDK, beside this kit's: the share is
/// the same, and which traces are in it is not. The low 64 bits of the first id are
/// `a3ce929d0e0e4736`, those of the second `8448eb211c80319c`, and without their last bit
/// `51e7494e8707239b` and `422475908e4018ce`.
pub fn other_sdks()
    // 1/4 of 2^63 is 0x2000000000000000, and 1/4 of 2^64 is 0x4000000000000000.
    ensures quarter_here { is_sampled_by (threshold_of 1 4) first_id ≡ true }
    ensures quarter_in_go { go_samples 1 4 first_id ≡ false }
    ensures quarter_in_python { python_samples 1 4 first_id ≡ false }
    // 9/16 of 2^63 is 0x4800000000000000, and 9/16 of 2^64 is 0x9000000000000000.
    ensures nine_sixteenths_here { is_sampled_by (threshold_of 9 16) second_id ≡ false }
    ensures nine_sixteenths_in_go { go_samples 9 16 second_id ≡ true }
    ensures nine_sixteenths_in_python { python_samples 9 16 second_id ≡ true }
    // 3/4 of 2^63 is 0x6000000000000000, and 3/4 of 2^64 is 0xc000000000000000.
    ensures three_quarters_here { is_sampled_by (threshold_of 3 4) first_id ≡ true }
    ensures three_quarters_in_go { go_samples 3 4 first_id ≡ true }
    ensures three_quarters_in_python { python_samples 3 4 first_id ≡ true }
{}

/// Texts of ratios.
pub fn texts()
    ensures quarter { numerator (codes "0.25") ≡ 25 }
    ensures quarter_of { denominator (codes "0.25") ≡ 100 }
    ensures one { numerator (codes "1") ≡ 1 }
    ensures one_of { denominator (codes "1") ≡ 1 }
    ensures one_and_zero { numerator (codes "1.0") ≡ 10 }
    ensures one_and_zero_of { denominator (codes "1.0") ≡ 10 }
    ensures no_whole_part { numerator (codes ".5") ≡ 5 }
    ensures no_whole_part_of { denominator (codes ".5") ≡ 10 }
    ensures zero { numerator (codes "0") ≡ 0 }
    ensures leading_zeros { numerator (codes "000.1") ≡ 1 }
    ensures leading_zeros_of { denominator (codes "000.1") ≡ 10 }
    // 2.5E-1 is 25 / 10 / 10, and 0.01e+2 is 1 * 100 / 100.
    ensures lowered { numerator (codes "2.5E-1") ≡ 25 }
    ensures lowered_of { denominator (codes "2.5E-1") ≡ 100 }
    ensures raised { numerator (codes "0.01e+2") ≡ 100 }
    ensures raised_of { denominator (codes "0.01e+2") ≡ 100 }
{}

/// Which texts are decimal numbers.
pub fn forms()
    ensures quarter { is_decimal (codes "0.25") ≡ true }
    ensures whole { is_decimal (codes "1") ≡ true }
    ensures point_first { is_decimal (codes ".5") ≡ true }
    ensures point_last { is_decimal (codes "1.") ≡ true }
    ensures above_one { is_decimal (codes "1.5") ≡ true }
    ensures empty { is_decimal (codes "") ≡ false }
    ensures point_alone { is_decimal (codes ".") ≡ false }
    ensures two_points { is_decimal (codes "0.2.5") ≡ false }
    ensures sign { is_decimal (codes "-0.5") ≡ false }
    ensures plus { is_decimal (codes "+0.5") ≡ false }
    ensures exponent { is_decimal (codes "1e-3") ≡ true }
    ensures exponent_in_capitals { is_decimal (codes "1E3") ≡ true }
    ensures exponent_with_plus { is_decimal (codes "1.5e+3") ≡ true }
    ensures exponent_without_digits { is_decimal (codes "1e") ≡ false }
    ensures exponent_of_a_sign { is_decimal (codes "1e-") ≡ false }
    ensures exponent_with_point { is_decimal (codes "1e0.5") ≡ false }
    ensures exponent_alone { is_decimal (codes "e3") ≡ false }
    ensures two_exponents { is_decimal (codes "1e2E3") ≡ false }
    ensures blank { is_decimal (codes " 1") ≡ false }
    ensures comma { is_decimal (codes "0,5") ≡ false }
{}

/// Roots are sampled by a ratio, and any other span as its parent is: what OTEL_TRACES_SAMPLER
/// calls `parentbased_traceidratio` (OpenTelemetry Environment Variable Specification).
pub fn roots_by_ratio(ratio: TraceIdRatio) -> ParentBased<TraceIdRatio>
    ensures { (span : model.Question) →
        ⟦<ParentBased<TraceIdRatio> as Sampler>⟧.meaning result span
        ≡ model.as_parent (by_threshold ratio) span }
{
    ParentBased::new(ratio)
}
