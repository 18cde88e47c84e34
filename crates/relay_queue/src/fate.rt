//! What a fate means for the bodies of a batch.
ghost use Rattle.std.specs.Prelude.{◌≡◌, ◌+◌, ◌^◌, ◌<◌, if◌then◌else◌};
ghost use Rattle.model_desk.specs.Desks.{is_loss};
ghost use Rattle.model_body.specs.Histories.{is_split};
ghost use Rattle.retry_core.specs.Retries.{fate_view};

use retry_core::Fate;

/// Whether the bodies that end by this fate are lost: all but those that a collector took, as a
/// whole or in part (OTLP Specification, "OTLP/HTTP Response"; profile).
pub fn is_loss(fate: Fate) -> bool
    ensures { result ≡ is_loss (fate_view fate) }
{
    !matches!(fate, Fate::Delivered | Fate::Partial(_))
}

/// Whether a batch of so many bodies, which ends by this fate, is split.
pub(crate) fn is_split(fate: Fate, count: usize) -> bool
    ensures { result ≡ is_split (fate_view fate) count }
{
    matches!(fate, Fate::Refused(_) | Fate::BadReply) && count > 1
}

/// How many bodies are delivered and how many are lost, after so many more ended by this fate.
pub(crate) fn counts_after(fate: Fate, count: u64, delivered: u64, lost: u64) -> (u64, u64)
    requires { delivered + lost + count < 2 ^ 64 }
    ensures delivered { result.0
        ≡ (if is_loss (fate_view fate) then delivered else delivered + count) }
    ensures lost { result.1 ≡ (if is_loss (fate_view fate) then lost + count else lost) }
    ensures sum { result.0 + result.1 ≡ delivered + lost + count }
{
    if is_loss(fate) {
        return (delivered, lost + count);
    }
    (delivered + count, lost)
}
