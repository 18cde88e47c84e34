//! The spans of bodies that ended: how many there are, and the newest names of those that are lost.
ghost use Rattle.std.specs.Prelude.{◌≤◌, IfOk, length};

use crate::keeping::EndedBodies;
use relay_queue::{Loss, LostSink, LostSpan, is_loss, name_lost};
use retry_core::Fate;
use std::alloc::{AllocError, Global};
use std::collections::VecDeque;

/// So many names of lost spans are kept at most, the newest ones.
pub const MOST_NAMES: usize = 1_000;

/// How a span is lost by a fate, if it is (OTLP Specification, "OTLP/HTTP Response").
fn loss_by(fate: Fate) -> Option<Loss> {
    match fate {
        Fate::Delivered | Fate::Partial(_) => None,
        Fate::Refused(status) => Some(Loss::Refused(status)),
        Fate::BadReply => Some(Loss::BadReply),
        Fate::GivenUp => Some(Loss::GivenUp),
        Fate::Abandoned => Some(Loss::Abandoned),
    }
}

/// The name of a span.
fn name_of(alloc: Global, trace: &[u8], span: &[u8], loss: Loss) -> Result<LostSpan, AllocError> {
    Ok(LostSpan {
        trace: trace.to_vec(alloc)?,
        span: span.to_vec(alloc)?,
        loss,
    })
}

/// How many of so many spans were rejected by a fate (OTLP Specification, "Partial Success"). A
/// collector that says more than there are rejected all of them.
fn rejected_by(fate: Fate, count: u64) -> u64
    ensures { result ≤ count }
{
    match fate {
        Fate::Partial(rejected) => u64::try_from(rejected).unwrap_or(0).min(count),
        _ => 0,
    }
}

/// A copy of the name of a span.
fn copy_of(alloc: Global, name: &LostSpan) -> Result<LostSpan, AllocError> {
    name_of(alloc, &name.trace, &name.span, name.loss)
}

/// The spans of bodies that ended by one fate, which [`Keeping::note`](crate::Keeping::note)
/// counts. A count stops at its greatest number.
#[derive(Drop)]
pub struct EndedSpans {
    alloc: Global,
    /// Whether they are lost by it.
    pub is_loss: bool,
    /// How many there are.
    pub count: u64,
    /// How many of them are in bodies that an earlier run received.
    pub earlier: u64,
    /// How many of them the collector rejected, where it took the bodies: all of them at most.
    pub rejected: u64,
    /// The newest names of those that are lost. A name for which memory was refused isn't there.
    pub(crate) newest: VecDeque<LostSpan>,
}

impl EndedSpans {
    /// Those of bodies that ended by this fate. Where they are lost by it, it takes memory for the
    /// newest names, [`MOST_NAMES`] at most; a span is counted, too, where that is refused.
    pub fn of(ended: &EndedBodies, fate: Fate) -> EndedSpans {
        let mut spans = EndedSpans {
            alloc: ended.alloc,
            is_loss: is_loss(fate),
            count: 0,
            earlier: 0,
            rejected: 0,
            newest: VecDeque::new(ended.alloc),
        };
        let mut left = ended.earlier;
        for body in &ended.bodies {
            name_lost(body, fate, &mut spans);
            if left > 0 {
                left -= 1;
                spans.earlier = spans.count;
            }
        }
        spans.rejected = rejected_by(fate, spans.count);
        spans
    }
}

impl LostSink for EndedSpans {
    ghost use Rattle.std.specs.Prelude.{None};

    ghost named = { λ _. None };

    fn take_lost(&mut self, trace: &[u8], span: &[u8], fate: Fate) {
        self.count = self.count.saturating_add(1);
        let Some(loss) = loss_by(fate) else {
            return;
        };
        let Ok(name) = name_of(self.alloc, trace, span, loss) else {
            return;
        };
        if self.newest.len() >= MOST_NAMES {
            let _ = self.newest.pop_front();
        }
        let _ = self.newest.push_back(name);
    }
}

/// Puts names after those that are kept, of which the newest are kept. The others are left in the
/// place of the new ones, to be freed.
pub(crate) fn keep_newest(kept: &mut VecDeque<LostSpan>, newest: &mut VecDeque<LostSpan>) {
    for _ in 0..newest.len() {
        let Some(name) = newest.pop_front() else {
            return;
        };
        if kept.len() >= MOST_NAMES {
            if let Some(older) = kept.pop_front() {
                let _ = newest.push_back(older);
            }
        }
        let _ = kept.push_back(name);
    }
}

/// Copies of the newest of these names, at most so many, the last one first.
pub(crate) fn copy_newest(
    alloc: Global,
    kept: &VecDeque<LostSpan>,
    most: usize,
) -> Result<Vec<LostSpan>, AllocError>
    ensures { IfOk result (λ names. length names.items ≤ most) }
{
    let mut copies = Vec::new(alloc);
    let count = kept.len().min(most);
    for back in 0..count {
        copies.push(copy_of(alloc, &kept[kept.len() - 1 - back])?)?;
    }
    Ok(copies)
}
