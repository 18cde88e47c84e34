//! Readers and writers that count their failures.

ghost use Rattle.std.specs.Prelude.{◌≡◌, ℕ, ◌≤◌, length, IfOk, List, Option};
ghost use Rattle.std.specs.Io.{ReadsAtMost, WritesAtMost};
ghost use Rattle.std.specs.Io.KnownBytes.{ReadConsumes, WriteAppends};
ghost use Rattle.http_wire.specs.Devices.{CountsFailure, one_more};

use std::io::{Read, Write};
use std::marker::Model;
use thiserror::Error;

/// A read or a write failed.
#[derive(Error, Debug, Clone, Copy, PartialEq, Eq)]
#[error("the device failed")]
pub struct DeviceFailed;

/// A reader that counts its failures. The count stops at `u64::MAX` (profile).
///
/// Heads of messages, and the lines and trailers of chunks, are read from it byte by byte, so that
/// nothing after a message is taken. A reader whose calls are dear, as those of a socket are, is
/// given a buffer below: [`Counted`] over a `BufReader`. Without one each byte costs a call of the
/// system.
pub trait FaultRead {
    // The bytes that it has left, where it shows them.
    ghost remaining: { Self → Option (List ℕ) };

    // How often it has failed.
    ghost failures: { Self → ℕ };

    /// How often it has failed.
    fn failures(&self) -> u64
        ensures { result ≡ failures self.now };

    /// Reads some bytes to the front of `buf`, and answers how many: none only at the end, or where
    /// `buf` has no room.
    ///
    /// # Errors
    ///
    /// Where the read failed, which is counted. No byte of those that are left is lost.
    fn read(&mut self, buf: &mut [u8]) -> Result<usize, DeviceFailed>
        ensures bound { ReadsAtMost result buf.new }
        ensures bytes { ReadConsumes (remaining self.old) (remaining self.new) result buf.new }
        ensures counted { CountsFailure result (failures self.old) (failures self.new) };
}

/// A writer that counts its failures. The count stops at `u64::MAX` (profile).
pub trait FaultWrite {
    // The bytes that it holds, where it shows them.
    ghost contents: { Self → Option (List ℕ) };

    // How often it has failed.
    ghost failures: { Self → ℕ };

    /// How often it has failed.
    fn failures(&self) -> u64
        ensures { result ≡ failures self.now };

    /// Writes a front of `buf`, which isn't empty, and answers its length: at least 1.
    ///
    /// # Errors
    ///
    /// Where the write failed, or took no byte, which is counted. Nothing was written then.
    fn write(&mut self, buf: &[u8]) -> Result<usize, DeviceFailed>
        requires { 1 ≤ length buf.now }
        ensures some { IfOk result (λ n. 1 ≤ n) }
        ensures bound { WritesAtMost result buf.now }
        ensures bytes { WriteAppends (contents self.old) (contents self.new) result buf.now }
        ensures counted { CountsFailure result (failures self.old) (failures self.new) };
}

/// A reader or a writer of `std`, with a count of its failures. Where it shows its bytes, as those
/// over memory do, so does this. In contracts it is a `CountedDevice`.
#[derive(Debug, Drop)]
pub struct Counted<T> {
    inner: T,
    failures: u64,
}

impl<T> Model for Counted<T> {
    ghost use Rattle.http_wire.specs.Devices.{CountedDevice};

    ghost Value = { CountedDevice T };

    ghost view = { λ c. record { inner = c.inner; failures = c.failures } };
}

impl<T> Counted<T> {
    /// Counts from 0.
    pub fn new(inner: T) -> Counted<T>
        ensures { result ≡ record { inner = inner; failures = 0 } }
    {
        Counted { inner, failures: 0 }
    }

    /// The reader or writer itself.
    pub fn into_inner(self) -> T
        ensures { result ≡ self.inner }
    {
        let Counted { inner, failures: _ } = self;
        inner
    }

    /// Counts a failure.
    fn fail(&mut self) -> DeviceFailed
        ensures { self.new ≡ record self.old { failures = one_more self.old.failures } }
    {
        self.failures = self.failures.saturating_add(1);
        DeviceFailed
    }
}

impl<R: Read> FaultRead for Counted<R> {
    ghost remaining = { λ r. R.remaining r.inner };

    ghost failures = { λ r. r.failures };

    fn failures(&self) -> u64 {
        self.failures
    }

    fn read(&mut self, buf: &mut [u8]) -> Result<usize, DeviceFailed> {
        match self.inner.read(buf) {
            Ok(n) => Ok(n),
            Err(_) => Err(self.fail()),
        }
    }
}

impl<W: Write> FaultWrite for Counted<W> {
    ghost contents = { λ w. W.contents w.inner };

    ghost failures = { λ w. w.failures };

    fn failures(&self) -> u64 {
        self.failures
    }

    fn write(&mut self, buf: &[u8]) -> Result<usize, DeviceFailed> {
        match self.inner.write(buf) {
            Ok(0) => Err(self.fail()),
            Ok(n) => Ok(n),
            Err(_) => Err(self.fail()),
        }
    }
}
