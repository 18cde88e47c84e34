//! Items that are kept up to a limit.
ghost use Rattle.std.specs.Prelude.{◌≡◌, OnErr, OnOk, [], length, nat_lt};
ghost use Rattle.otlp_span.specs.Recording.{one_counted, one_kept};

use otlp_ids::OutOfMemory;
use std::alloc::Allocator;
use std::marker::Model;

/// Items that are kept up to a limit, and how many were discarded since there was no room (Trace
/// SDK, "Span Limits").
#[derive(Drop)]
#[derive_where(Debug; T)]
pub(crate) struct Kept<T, A: Allocator> {
    items: Vec<T, A>,
    dropped: u32,
}

impl<T, A: Allocator> Model for Kept<T, A> {
    ghost use Rattle.model_span.specs.Attributes.{Kept};

    ghost Value = { Kept T };

    ghost view = { λ k. record { items = k.items.items; dropped = k.dropped } };
}

impl<T, A: Allocator> Kept<T, A> {
    /// None at all. They take no memory.
    pub(crate) fn new(alloc: A) -> Kept<T, A>
        ensures { result ≡ record { items = []; dropped = 0 } }
    {
        Kept {
            items: Vec::new(alloc),
            dropped: 0,
        }
    }

    /// Those that are kept, in the order in which they came.
    pub(crate) fn items(&self) -> &[T]
        ensures { result.now ≡ self.now.items }
    {
        &self.items
    }

    /// How many were discarded; it stops at 2^32 - 1 (profile).
    pub(crate) fn dropped(&self) -> u32
        ensures { result ≡ self.now.dropped }
    {
        self.dropped
    }

    /// Whether one more is kept under this limit.
    pub(crate) fn has_room(&self, limit: u32) -> bool
        ensures { result ≡ nat_lt (length self.now.items) limit }
    {
        self.items.len() < limit as usize
    }

    /// Counts one that is discarded.
    pub(crate) fn count(&mut self)
        ensures { self.new ≡ one_counted self.old }
    {
        self.dropped = self.dropped.saturating_add(1);
    }
}

impl<T: Drop, A: Allocator> Kept<T, A> {
    /// Keeps one more.
    ///
    /// # Errors
    ///
    /// `OutOfMemory` where it could not be stored; it is then dropped, and what is kept stays as
    /// it was.
    pub(crate) fn push(&mut self, item: T) -> Result<(), OutOfMemory>
        ensures ok { OnOk result (self.new ≡ one_kept self.old item) }
        ensures err { OnErr result (self.new ≡ self.old) }
    {
        self.items.push(item)?;
        Ok(())
    }
}
