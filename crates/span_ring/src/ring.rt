//! The ring itself.
ghost use Rattle.std.specs.Prelude.{◌≡◌, ◌<◌, ◌≤◌, ◌↔◌, ◌⊎◌, ◌==◌, [], ◌∷◌, ◌++◌, length, take};
ghost use Rattle.std.specs.Prelude.{drop, true, false, is_ok, is_some, if◌then◌else◌, IsErr};
ghost use Rattle.std.specs.Prelude.{IsNone, IsErrOf, IfOk, IfErr, IfSome};
ghost use Rattle.span_ring.specs.SpanRing.{empty_ring, IsRingSize};

use crate::fault::RingFault;
use crate::run::Run;
use crate::segments::Segments;
use std::alloc::{AllocError, Allocator, Global};
use std::fmt;
use std::marker::Model;

/// The most items that a ring may have room for (profile).
pub const MAX_QUEUE: usize = 65_536;

// No clause says the number itself.
const _: () = prove!(MAX_QUEUE == 65_536);

/// A bounded ring of items, which leave it in runs, first come, first out.
///
/// At most `queue` items wait in it, and a run takes at most `batch` of them. One run may be out at
/// a time: it is handed out by [`take_run`](SpanRing::take_run) and comes back by
/// [`give_back`](SpanRing::give_back). All memory is taken by [`new`](SpanRing::new).
#[derive(Drop)]
pub struct SpanRing<T, A: Allocator = Global> {
    // All segments but the one that is out.
    segments: Segments<T, A>,
    len: usize,
    queue: usize,
    batch: usize,
    run_out: bool,
}

impl<T, A: Allocator> Model for SpanRing<T, A> {
    ghost use Rattle.std.specs.Prelude.{◌≤◌, vec_capacity};
    ghost use Rattle.std.specs.VecDeque.{deque_capacity};
    ghost use Rattle.span_ring.specs.SpanRing.{RingView};
    ghost use Rattle.span_ring.specs.Segments.{AreSegments, items_of, others};

    ghost Value = { RingView T };

    ghost view = { λ r. record {
      items = items_of r.segments.full.items r.segments.filling;
      queue = r.queue;
      batch = r.batch;
      run_out = r.run_out;
    } };

    ghost invariant = { λ r. AreSegments r.segments.full.items r.segments.filling
        r.segments.spare.items r.len r.queue r.batch r.run_out
        × (others r.segments.full.items r.segments.spare.items r.run_out
        ≤ deque_capacity r.segments.full)
        × (others r.segments.full.items r.segments.spare.items r.run_out
        ≤ vec_capacity r.segments.spare) };
}

impl<T, A: Allocator + Copy> SpanRing<T, A> {
    /// An empty ring in which at most `queue` items wait, and whose runs take at most `batch`. It
    /// takes the memory for both.
    ///
    /// # Errors
    ///
    /// `ZeroSize` where one of the sizes is 0; else `BatchAboveQueue` where `batch` is above
    /// `queue`; else `TooLarge` where `queue` is above [`MAX_QUEUE`]; else `OutOfMemory` where the
    /// memory can't be had.
    pub fn new(alloc: A, queue: usize, batch: usize) -> Result<SpanRing<T, A>, RingFault>
    where
        T: Drop,
        ensures empty { IfOk result (λ ring. ring ≡ empty_ring queue batch) }
        ensures zero_size { IsErrOf result RingFault.ZeroSize
            ↔ ((queue ≡ 0) ⊎ (batch ≡ 0)) }
        ensures batch_above_queue { IsErrOf result RingFault.BatchAboveQueue
            ↔ ((0 < queue) × (queue < batch)) }
        ensures too_large { IsErrOf result RingFault.TooLarge
            ↔ ((0 < batch) × (batch ≤ queue) × (MAX_QUEUE < queue)) }
        ensures out_of_memory { IsErrOf result RingFault.OutOfMemory → IsRingSize queue batch }
    {
        if queue == 0 || batch == 0 {
            return Err(RingFault::ZeroSize);
        }
        if batch > queue {
            return Err(RingFault::BatchAboveQueue);
        }
        if queue > MAX_QUEUE {
            return Err(RingFault::TooLarge);
        }
        Self::with_room(alloc, queue, batch).map_err(|_| RingFault::OutOfMemory)
    }

    /// Takes the memory for the items that wait and for the run.
    fn with_room(alloc: A, queue: usize, batch: usize) -> Result<SpanRing<T, A>, AllocError>
    where
        T: Drop,
        requires { IsRingSize queue batch }
        ensures { IfOk result (λ ring. ring ≡ empty_ring queue batch) }
    {
        // As many as the queue fills, and one that is out or is filled meanwhile.
        let segments = Segments::with_room(alloc, queue.div_ceil(batch), batch)?;
        Ok(SpanRing {
            segments,
            len: 0,
            queue,
            batch,
            run_out: false,
        })
    }
}

impl<T, A: Allocator> SpanRing<T, A> {
    /// How many items wait.
    pub fn len(&self) -> usize
        ensures len { result ≡ length self.now.items }
        ensures within { result ≤ self.now.queue }
        ensures sizes { IsRingSize self.now.queue self.now.batch }
    {
        self.len
    }

    /// Whether no item waits.
    pub fn is_empty(&self) -> bool
        ensures { result ≡ (length self.now.items == 0) }
    {
        self.len == 0
    }

    /// How many items may wait.
    pub fn queue(&self) -> usize
        ensures { result ≡ self.now.queue }
    {
        self.queue
    }

    /// How many items a run takes at most.
    pub fn batch(&self) -> usize
        ensures { result ≡ self.now.batch }
    {
        self.batch
    }

    /// Whether a run is out: taken, and not given back.
    pub fn run_out(&self) -> bool
        ensures { result ≡ self.now.run_out }
    {
        self.run_out
    }

    /// Lets the item wait after the others, also while a run is out.
    ///
    /// # Errors
    ///
    /// The item itself, where the ring is full; the ring is unchanged.
    pub fn push(&mut self, item: T) -> Result<(), T>
        ensures full { IsErr result ↔ (length self.old.items ≡ self.old.queue) }
        ensures items { self.new ≡ record self.old {
          items = if is_ok result then self.old.items ++ item ∷ [] else self.old.items;
        } }
        ensures handed_back { IfErr result (λ back. back ≡ item) }
    {
        if self.len == self.queue {
            return Err(item);
        }
        self.segments.make_room(self.batch);
        self.segments.filling.push(item);
        self.len += 1;
        Ok(())
    }

    /// Takes out the items that waited longest, as many as a batch, or all where fewer wait. `None`
    /// where none waits. While a run is out there is no other, as [`run_out`](SpanRing::run_out)
    /// says.
    pub fn take_run(&mut self) -> Option<Run<T, A>>
        requires { self.old.run_out ≡ false }
        ensures none { IsNone result ↔ (self.old.items ≡ []) }
        ensures items { IfSome result (λ run. run.items ≡ take self.old.batch self.old.items) }
        ensures room { IfSome result (λ run. run.room ≡ self.old.batch) }
        ensures rest { self.new ≡ record self.old {
          items = drop self.old.batch self.old.items;
          run_out = is_some result;
        } }
    {
        if self.len == 0 {
            return None;
        }
        let segment = self.segments.detach_front(self.batch);
        self.len -= segment.len();
        self.run_out = true;
        Some(segment.into_run())
    }

    /// Takes the run back, whose [`room`](Run::room) is the batch's, and drops what it still has.
    pub fn give_back(&mut self, run: Run<T, A>)
    where
        T: Drop,
        requires out { self.old.run_out ≡ true }
        requires room { run.room ≡ self.old.batch }
        ensures { self.new ≡ record self.old { run_out = false } }
    {
        self.segments.spare.push_reserved(run.into_spare());
        self.run_out = false;
    }
}

impl<T: fmt::Debug, A: Allocator> fmt::Debug for SpanRing<T, A> {
    fn fmt<W: fmt::Write>(&self, f: &mut fmt::Formatter<W>) -> fmt::Result {
        f.debug_struct("SpanRing")
            .field("items", &self.segments)
            .field("queue", &self.queue)
            .field("batch", &self.batch)
            .field("run_out", &self.run_out)
            .finish()
    }
}
