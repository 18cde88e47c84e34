//! What a flush waits for.

use std::marker::Model;

/// Up to which span the queue was asked to be emptied (Trace SDK, "ForceFlush"). In contracts it
/// is the number of spans that had been accepted by then.
#[derive(Debug, Clone, Copy, PartialEq, Eq)]
pub struct Mark {
    pub(crate) accepted: u64,
}

impl Model for Mark {
    ghost use Rattle.std.specs.Prelude.{ℕ};

    ghost Value = { ℕ };

    ghost view = { λ m. m.accepted };

    ghost inverse = { λ n. record { accepted = n } };
}
