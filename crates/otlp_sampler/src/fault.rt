//! Why there is no ratio.

use thiserror::Error;

/// Why a ratio is refused.
#[derive(Debug, Clone, Copy, PartialEq, Eq, Error)]
pub enum RatioFault {
    /// The text is empty.
    #[error("no ratio: the text is empty")]
    Empty,
    /// The text isn't decimal digits with at most one point, with or without an exponent after
    /// them. A blank is refused, too, and so is a sign before the number.
    #[error("bad ratio: it is a decimal number such as 0.25 or 1e-3, without a sign before it")]
    NotANumber,
    /// The ratio is above 1.
    #[error("bad ratio: it is above 1")]
    AboveOne,
    /// The denominator is 0.
    #[error("bad ratio: its denominator is 0")]
    ZeroDenominator,
    /// The threshold is above 2^56.
    #[error("bad threshold: it is above 2^56")]
    ThresholdTooLarge,
}
