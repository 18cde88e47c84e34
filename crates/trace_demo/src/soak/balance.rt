//! The balance of a round.
ghost use Rattle.std.specs.Prelude.{◌≡◌, ◌++◌, IfOk, IsTrue};
ghost use Rattle.std.specs.List.Sorted.{IsStrictlyIncreasing};
ghost use Rattle.trace_demo.specs.Rounds.{IsBalanced};
ghost use Rattle.trace_demo.specs.Losses.{numbers_of};

use crate::soak::losses::{Loss, loss_numbers};
use std::alloc::{AllocError, Global};

/// Where the spans of a round were found, by their numbers.
#[derive(Drop)]
pub(crate) struct Found {
    /// In the bodies that the collector kept of batches that a reply said were taken whole.
    pub(crate) delivered: Vec<u64>,
    /// In those of batches that a reply said were taken but for some of their spans.
    pub(crate) partial: Vec<u64>,
    /// Among the names of lost spans.
    pub(crate) lost: Vec<Loss>,
    /// Among the names of dropped spans.
    pub(crate) dropped: Vec<u64>,
}

impl Found {
    /// Of no span.
    pub(crate) fn new(alloc: Global) -> Found {
        Found {
            delivered: Vec::new(alloc),
            partial: Vec::new(alloc),
            lost: Vec::new(alloc),
            dropped: Vec::new(alloc),
        }
    }

    /// All of them, one after the other.
    fn all(&self, alloc: Global) -> Result<Vec<u64>, AllocError>
        ensures { IfOk result (λ all. all.items ≡ self.now.delivered.items
            ++ self.now.partial.items ++ numbers_of self.now.lost.items
            ++ self.now.dropped.items) }
    {
        let lost = loss_numbers(alloc, self.lost.as_slice())?;
        let mut all = Vec::from_slice(alloc, self.delivered.as_slice())?;
        all.extend_from_slice(self.partial.as_slice())?;
        all.extend_from_slice(lost.as_slice())?;
        all.extend_from_slice(self.dropped.as_slice())?;
        Ok(all)
    }

    /// Whether each span that ended was found in exactly one of the four, and no other was. A
    /// `true` is promised to be right. (profile)
    pub(crate) fn balances(&self, alloc: Global, ended: &[u64]) -> Result<bool, AllocError>
        ensures { IfOk result (λ yes. IsTrue yes → IsBalanced ended.now
            self.now.delivered.items self.now.partial.items self.now.lost.items
            self.now.dropped.items) }
    {
        let mut ended = Vec::from_slice(alloc, ended)?;
        let mut found = self.all(alloc)?;
        ended.sort_unstable();
        found.sort_unstable();
        Ok(ended.as_slice() == found.as_slice() && rise(ended.as_slice()))
    }
}

/// Whether each of these numbers is below the next one.
fn rise(numbers: &[u64]) -> bool
    ensures { IsTrue result → IsStrictlyIncreasing numbers.now }
{
    let mut at = 1;
    while at < numbers.len() {
        if numbers[at - 1] >= numbers[at] {
            return false;
        }
        at += 1;
    }
    true
}
