//! What is counted, as Prometheus reads it: one number.

ghost use Rattle.std.specs.Prelude.{◌≡◌, ◌++◌, OnOk, string_bytes};
ghost use Rattle.otlp_receiver.specs.Metrics.{help_text, metric_text, sample_text, type_text};

use std::alloc::{AllocError, Allocator};

/// Appends what a metric is (Prometheus, "Exposition formats", text format 0.0.4).
///
/// # Errors
///
/// `AllocError` where the text could not be stored. It may then have been appended in part.
#[tactic(auto, unfolding(crate::specs::Metrics::help_text))]
pub fn push_help<A: Allocator>(
    out: &mut String<A>,
    name: &str,
    help: &str,
) -> Result<(), AllocError>
    ensures { OnOk result (string_bytes out.new
        ≡ string_bytes out.old ++ help_text name.now help.now) }
{
    out.push_str("# HELP ")?;
    out.push_str(name)?;
    out.push_str(" ")?;
    out.push_str(help)?;
    out.push('\n')
}

/// Appends the type of a metric, which is `counter` or `gauge`.
///
/// # Errors
///
/// `AllocError` where the text could not be stored. It may then have been appended in part.
#[tactic(auto, unfolding(crate::specs::Metrics::type_text))]
pub fn push_type<A: Allocator>(
    out: &mut String<A>,
    name: &str,
    kind: &str,
) -> Result<(), AllocError>
    ensures { OnOk result (string_bytes out.new
        ≡ string_bytes out.old ++ type_text name.now kind.now) }
{
    out.push_str("# TYPE ")?;
    out.push_str(name)?;
    out.push_str(" ")?;
    out.push_str(kind)?;
    out.push('\n')
}

/// Appends a number of a metric, where it has this name or these labels.
///
/// # Errors
///
/// `AllocError` where the text could not be stored. It may then have been appended in part.
#[tactic(auto, unfolding(crate::specs::Metrics::sample_text))]
pub fn push_sample<A: Allocator>(
    out: &mut String<A>,
    name: &str,
    number: u64,
) -> Result<(), AllocError>
    ensures { OnOk result (string_bytes out.new
        ≡ string_bytes out.old ++ sample_text name.now number) }
{
    out.push_str(name)?;
    out.push_str(" ")?;
    write!(out, "{number}")?;
    out.push('\n')
}

/// Appends a metric of one number: what it is, its type, which is `counter` or `gauge`, and the
/// number (Prometheus, "Exposition formats", text format 0.0.4).
///
/// # Errors
///
/// `AllocError` where the text could not be stored. It may then have been appended in part.
#[tactic(auto, unfolding(crate::specs::Metrics::metric_text))]
pub fn push_metric<A: Allocator>(
    out: &mut String<A>,
    name: &str,
    help: &str,
    kind: &str,
    number: u64,
) -> Result<(), AllocError>
    ensures { OnOk result (string_bytes out.new
        ≡ string_bytes out.old ++ metric_text name.now help.now kind.now number) }
{
    push_help(out, name, help)?;
    push_type(out, name, kind)?;
    push_sample(out, name, number)
}
