//! Counts of what was refused.
ghost use Rattle.std.specs.Prelude.{◌≡◌, ◌+◌};
ghost use Rattle.thread_tracer.specs.Counts.{counted};

/// One more, up to 2^64 - 1, where a count stops.
pub(crate) fn one_more(count: u64) -> u64
    ensures { result ≡ counted (count + 1) }
{
    count.saturating_add(1)
}

/// Both together, up to 2^64 - 1, where a count stops.
pub(crate) fn both(count: u64, more: u64) -> u64
    ensures { result ≡ counted (count + more) }
{
    count.saturating_add(more)
}
