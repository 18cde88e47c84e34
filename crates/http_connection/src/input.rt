//! The bytes that came and weren't used yet.

ghost use Rattle.std.specs.Prelude.{◌≡◌, []};

use bytes::BytesMut;
use std::alloc::Global;
use std::io::{self, Read};

/// How many bytes a block of input has, twice the longest head. (profile)
const BLOCK: usize = 32 * 1024;

/// A read has room for this many bytes at least. (profile)
const LEAST_READ: usize = 8 * 1024;

/// What came, in a block that is given back while the connection is idle.
#[derive(Drop)]
pub(crate) struct Input {
    pub(crate) bytes: BytesMut,
    /// How many bytes of memory the block takes.
    pub(crate) room: usize,
}

impl Input {
    /// Takes no memory.
    pub(crate) fn new(alloc: Global) -> Input {
        Input {
            bytes: BytesMut::new(alloc),
            room: 0,
        }
    }

    /// Reads once.
    pub(crate) fn read_from<R: Read>(&mut self, reader: &mut R) -> io::Result<usize> {
        if !self.bytes.try_reclaim(LEAST_READ) {
            self.bytes.reserve(BLOCK)?;
            self.room = self.bytes.capacity();
        }
        self.bytes.read_from(reader)
    }

    /// Gives back the block.
    pub(crate) fn release(&mut self, alloc: Global)
        ensures bytes { self.new.bytes.items ≡ [] }
        ensures room { self.new.room ≡ 0 }
    {
        self.bytes = BytesMut::new(alloc);
        self.room = 0;
    }
}
