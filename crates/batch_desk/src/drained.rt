//! The names that were taken out of both ledgers.
ghost use Rattle.std.specs.Prelude.{◌≡◌, reverse};

use drop_ledger::Ledger;
use std::alloc::{Allocator, Global};

/// The names of dropped and of lost spans that were taken out of both ledgers at once.
#[derive(Drop)]
#[derive_where(Debug)]
pub struct DrainedNames<A: Allocator = Global> {
    /// Those of dropped spans: their batch was not handed to an exporter.
    pub dropped: Ledger<A>,
    /// Those of lost spans: their batch was handed, and not delivered.
    pub lost: Ledger<A>,
}

impl<A: Allocator> DrainedNames<A> {
    /// The same names in reverse order: a ledger has the newest first, these the oldest. No memory
    /// is taken or freed.
    pub fn reversed(self) -> DrainedNames<A>
        ensures dropped { result.dropped ≡ reverse self.dropped }
        ensures lost { result.lost ≡ reverse self.lost }
    {
        let DrainedNames { dropped, lost } = self;
        DrainedNames {
            dropped: reversed(dropped),
            lost: reversed(lost),
        }
    }
}

/// The names of a ledger in reverse order.
fn reversed<A: Allocator>(ledger: Ledger<A>) -> Ledger<A>
    ensures { result ≡ reverse ledger }
{
    let mut turned = Ledger::new();
    turned.append_reversed(ledger);
    turned
}
