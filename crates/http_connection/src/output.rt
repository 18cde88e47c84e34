//! The bytes that wait to be written.

ghost use Rattle.std.specs.Prelude.{◌≡◌, ◌+◌, ◌-◌, ◌≤◌, [], length, drop, vec_len, vec_capacity};
ghost use Rattle.std.specs.Prelude.{OnOk};

use bytes::BufMut;
use std::alloc::{AllocError, Global};

/// What waits to be written, after what was.
#[derive(Drop)]
pub(crate) struct Output {
    pub(crate) bytes: Vec<u8>,
    pub(crate) sent: usize,
    ghost within: { sent ≤ vec_len bytes },
}

impl Output {
    ghost use Rattle.http_connection.specs.Outputs.{waiting};

    /// Takes no memory.
    pub(crate) fn new(alloc: Global) -> Output
        ensures { waiting result ≡ [] }
    {
        Output {
            bytes: Vec::new(alloc),
            sent: 0,
        }
    }

    /// How many bytes wait.
    pub(crate) fn len(&self) -> usize
        ensures { result ≡ length (waiting self.now) }
    {
        self.bytes.len() - self.sent
    }

    /// The bytes that wait.
    pub(crate) fn pending(&self) -> &[u8]
        ensures { result.now ≡ waiting self.now }
    {
        &self.bytes.as_slice()[self.sent..]
    }

    /// Notes that this many of the bytes were written. Once all are, the memory is given back.
    pub(crate) fn advance(&mut self, count: usize, alloc: Global)
        requires { count ≤ length (waiting self.old) }
        ensures { waiting self.new ≡ drop count (waiting self.old) }
    {
        self.sent += count;
        if self.sent == self.bytes.len() {
            *self = Output::new(alloc);
        }
    }

    /// Copies the bytes that wait, so that those before them take no room.
    pub(crate) fn compact(&mut self, alloc: Global) -> Result<(), AllocError>
        ensures { waiting self.new ≡ waiting self.old }
    {
        if self.sent > 0 {
            let bytes = Vec::from_slice(alloc, self.pending())?;
            self.sent = 0;
            self.bytes = bytes;
        }
        Ok(())
    }
}

impl BufMut for Output {
    ghost use Rattle.http_connection.specs.Outputs.{waiting};

    ghost written = { λ o. waiting o };

    ghost spare = { λ o. vec_capacity o.bytes - vec_len o.bytes };

    fn reserve(&mut self, additional: usize) -> Result<(), AllocError> {
        self.bytes.reserve(additional)
    }

    fn put_slice(&mut self, src: &[u8]) -> Result<(), AllocError> {
        self.bytes.extend_from_slice(src)
    }
}
