//! Room for bodies, which is made beforehand.
ghost use Rattle.std.specs.Prelude.{◌≡◌, ◌+◌, ◌<◌, ◌≤◌, ℕ, IfOk, length};
ghost use Rattle.span_exporter.specs.Buffers.{AreBuffers};
ghost use Rattle.span_exporter.specs.Room.{room_for};

use std::alloc::{AllocError, Allocator};
use std::marker::Model;

/// Empty buffers, one for each attempt.
#[derive(Drop)]
#[derive_where(Debug)]
pub(crate) struct Room<A: Allocator> {
    buffers: Vec<Vec<u8, A>, A>,
    size: usize,
}

impl<A: Allocator> Model for Room<A> {
    ghost use Rattle.std.specs.Prelude.{length};
    ghost use Rattle.span_exporter.specs.Buffers.{AreBuffers};
    ghost use Rattle.span_exporter.specs.Room as model;

    ghost Value = { model.Room };

    ghost view = { λ r. record { size = r.size; attempts = length r.buffers.items } };

    ghost invariant = { λ r. AreBuffers r.size r.buffers.items };
}

impl<A: Allocator + Copy> Room<A> {
    /// Room for no body. It takes no memory.
    pub(crate) fn none(alloc: A) -> Room<A>
        ensures { result ≡ record { size = 0; attempts = 0 } }
    {
        Room {
            buffers: Vec::new(alloc),
            size: 0,
        }
    }

    /// Room for this number of bodies of `size` bytes.
    pub(crate) fn new(alloc: A, size: usize, attempts: usize) -> Result<Room<A>, AllocError>
        ensures { IfOk result (λ room. room ≡ record { size = size; attempts = attempts }) }
    {
        let buffers = buffers(alloc, size, attempts)?;
        Ok(Room { buffers, size })
    }
}

impl<A: Allocator> Room<A> {
    /// An equal body on one of the buffers. It takes no memory.
    pub(crate) fn fill(&mut self, body: &[u8]) -> Vec<u8, A>
        requires { 0 < room_for self.old (length body.now) }
        ensures body { result.items ≡ body.now }
        ensures attempts { self.new.attempts + 1 ≡ self.old.attempts }
        ensures room { (len : ℕ) → room_for self.old len ≤ room_for self.new len + 1 }
    {
        let mut buffer = self.buffers.pop().unwrap();
        buffer.extend_from_slice(body).unwrap();
        buffer
    }
}

/// This number of empty buffers with room for `size` bytes.
fn buffers<A: Allocator + Copy>(
    alloc: A,
    size: usize,
    count: usize,
) -> Result<Vec<Vec<u8, A>, A>, AllocError>
    ensures count { IfOk result (λ made. length made.items ≡ count) }
    ensures buffers { IfOk result (λ made. AreBuffers size made.items) }
{
    let mut made = Vec::with_capacity(alloc, count)?;
    for _ in 0..count {
        let buffer = Vec::with_capacity(alloc, size)?;
        made.push_reserved(buffer);
    }
    Ok(made)
}
