//! Spans that are lost, and why.
ghost use Rattle.std.specs.Prelude.{◌≡◌, IfOk, IsTrue};
ghost use Rattle.trace_demo.specs.Losses.{AreNamed, numbers_of};

use otlp_span::Reason;
use std::alloc::{AllocError, Global};

/// A lost span.
#[derive(Debug, Clone, Copy, PartialEq, Eq)]
pub(crate) struct Loss {
    /// Its number.
    pub(crate) number: u64,
    /// Why it is lost.
    pub(crate) reason: Reason,
}

/// The numbers of lost spans, in their order.
pub(crate) fn loss_numbers(alloc: Global, losses: &[Loss]) -> Result<Vec<u64>, AllocError>
    ensures { IfOk result (λ numbers. numbers.items ≡ numbers_of losses.now) }
{
    let mut numbers = Vec::with_capacity(alloc, losses.len())?;
    for loss in losses {
        numbers.push(loss.number)?;
    }
    Ok(numbers)
}

/// Whether the spans that are named as lost are just those that have to be, each once and with its
/// reason. A `true` is promised to be right. (profile)
pub(crate) fn are_named(alloc: Global, named: &[Loss], wanted: &[Loss]) -> Result<bool, AllocError>
    ensures { IfOk result (λ yes. IsTrue yes → AreNamed named.now wanted.now) }
{
    let mut named = Vec::from_slice(alloc, named)?;
    let mut wanted = Vec::from_slice(alloc, wanted)?;
    named.sort_unstable_by_key(|loss| loss.number);
    wanted.sort_unstable_by_key(|loss| loss.number);
    Ok(named.as_slice() == wanted.as_slice())
}
