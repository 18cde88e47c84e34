//! Laws of sampling by a ratio: what holds for each ratio and each trace.

ghost use Rattle.otlp_sampler.specs.Laws.{AllAreSampled, GreaterRatiosSampleMore};
ghost use Rattle.otlp_sampler.specs.Laws.{NoneAreSampled, ShareIsExact};

/// What a smaller ratio samples, a greater one samples, too (OpenTelemetry Trace SDK,
/// "TraceIdRatioBased"). Ratio 0 samples no trace, and ratio 1 samples each.
pub fn greater_ratios_sample_more()
    ensures greater { GreaterRatiosSampleMore }
    ensures none { NoneAreSampled }
    ensures all { AllAreSampled }
{}

/// Of the 2^56 numbers that the random part of a trace id can be, exactly 2^56 less the threshold
/// are sampled.
pub fn shares_are_exact()
    ensures { ShareIsExact }
{}
