//! A wire over memory that fails on request.

ghost use Rattle.std.specs.Prelude.{◌≡◌, ◌≤◌, ◌↔◌, length, min, take, IfOk, IsErr, IsTrue, Some};
ghost use Rattle.std.specs.Io.{ReadsAtMost, WritesAtMost};
ghost use Rattle.std.specs.Io.KnownBytes.{ReadConsumes, WriteAppends};
ghost use Rattle.http_wire.specs.Devices.{CountsFailure, one_more};
ghost use Rattle.http_wire.specs.Wires.{fails_next, given_to, is_failing};

use crate::device::{DeviceFailed, FaultRead, FaultWrite};
use std::alloc::{Allocator, Global};
use std::marker::Model;

/// Which calls of a wire fail, counted from 0, reads and writes together.
#[derive(Clone, Copy, Debug, PartialEq, Eq)]
pub enum FailingCalls {
    /// None.
    Never,
    /// The one with this number.
    Once(u64),
    /// That one, and all after it.
    From(u64),
}

impl FailingCalls {
    /// Whether the call with this number fails.
    fn has(self, call: u64) -> bool
        ensures { result ≡ is_failing self call }
    {
        match self {
            FailingCalls::Never => false,
            FailingCalls::Once(at) => call == at,
            FailingCalls::From(at) => at <= call,
        }
    }
}

/// A reader and a writer over memory, for tests and programs: it gives and takes at most a set
/// number of bytes a call, and fails the calls that it has to fail, as well as writes for which
/// memory is refused. It shows its bytes. In contracts it is a `Wire`. (profile)
#[derive(Debug, Drop)]
pub struct FailingWire<A: Allocator = Global> {
    input: Vec<u8, A>,
    given: usize,
    output: Vec<u8, A>,
    most: usize,
    failing: FailingCalls,
    calls: u64,
    failures: u64,
}

impl<A: Allocator> Model for FailingWire<A> {
    ghost use Rattle.std.specs.Prelude.{◌≤◌, drop, length};
    ghost use Rattle.http_wire.specs.Wires.{Wire};

    ghost Value = { Wire };

    ghost view = { λ w. record {
      left = drop w.given w.input.items;
      taken = w.output.items;
      most = w.most;
      failing = w.failing;
      calls = w.calls;
      failures = w.failures;
    } };

    ghost invariant = { λ w. (1 ≤ w.most) × (w.given ≤ length w.input.items) };
}

impl<A: Allocator> FailingWire<A> {
    /// A wire that gives `input`, and takes bytes after those of `output`, at most `most` a call.
    /// A write takes memory only where `output` hasn't room for it. (profile)
    pub fn new(
        input: Vec<u8, A>,
        output: Vec<u8, A>,
        most: usize,
        failing: FailingCalls,
    ) -> FailingWire<A>
        requires { 1 ≤ most }
        ensures { result ≡ record {
          left = input.items;
          taken = output.items;
          most = most;
          failing = failing;
          calls = 0;
          failures = 0;
        } }
    {
        FailingWire {
            input,
            given: 0,
            output,
            most,
            failing,
            calls: 0,
            failures: 0,
        }
    }

    /// The bytes that it has yet to give.
    pub fn left(&self) -> &[u8]
        ensures { result.now ≡ self.now.left }
    {
        &self.input[self.given..]
    }

    /// The bytes that it took, after those of the output that it was made with.
    pub fn taken(&self) -> &[u8]
        ensures { result.now ≡ self.now.taken }
    {
        self.output.as_slice()
    }

    /// Counts a call, and answers whether it fails.
    fn fails(&mut self) -> bool
        ensures answer { result ≡ fails_next self.old }
        ensures counted { self.new ≡ record self.old { calls = one_more self.old.calls } }
    {
        let call = self.calls;
        self.calls = call.saturating_add(1);
        self.failing.has(call)
    }

    /// Counts a failure.
    fn fail(&mut self) -> DeviceFailed
        ensures { self.new ≡ record self.old { failures = one_more self.old.failures } }
    {
        self.failures = self.failures.saturating_add(1);
        DeviceFailed
    }
}

/// Copies a front of the bytes, at most `most` of them, and answers its length.
fn give(bytes: &[u8], buf: &mut [u8], most: usize) -> usize
    ensures count { result ≡ min (min (length buf.old) most) (length bytes.now) }
    ensures bytes { take result buf.new ≡ take result bytes.now }
{
    let n = buf.len().min(most).min(bytes.len());
    buf[..n].copy_from_slice(&bytes[..n]);
    n
}

impl<A: Allocator> FaultRead for FailingWire<A> {
    ghost remaining = { λ w. Some w.left };

    ghost failures = { λ w. w.failures };

    fn failures(&self) -> u64 {
        self.failures
    }

    fn read(&mut self, buf: &mut [u8]) -> Result<usize, DeviceFailed>
        ensures bound { ReadsAtMost result buf.new }
        ensures bytes { ReadConsumes (Some self.old.left) (Some self.new.left) result buf.new }
        ensures counted { CountsFailure result self.old.failures self.new.failures }
        ensures failing { IsErr result ↔ IsTrue (fails_next self.old) }
        ensures count { IfOk result (λ n. n ≡ given_to (length buf.old) self.old) }
        ensures others { self.new ≡ record self.old {
          left = self.new.left;
          calls = one_more self.old.calls;
          failures = self.new.failures;
        } }
    {
        if self.fails() {
            return Err(self.fail());
        }
        let n = give(&self.input[self.given..], buf, self.most);
        self.given += n;
        Ok(n)
    }
}

impl<A: Allocator> FaultWrite for FailingWire<A> {
    ghost contents = { λ w. Some w.taken };

    ghost failures = { λ w. w.failures };

    fn failures(&self) -> u64 {
        self.failures
    }

    fn write(&mut self, buf: &[u8]) -> Result<usize, DeviceFailed>
        requires { 1 ≤ length buf.now }
        ensures some { IfOk result (λ n. 1 ≤ n) }
        ensures bound { WritesAtMost result buf.now }
        ensures bytes { WriteAppends (Some self.old.taken) (Some self.new.taken) result buf.now }
        ensures counted { CountsFailure result self.old.failures self.new.failures }
        ensures failing { IsTrue (fails_next self.old) → IsErr result }
        ensures count { IfOk result (λ n. n ≡ min (length buf.now) self.old.most) }
        ensures others { self.new ≡ record self.old {
          taken = self.new.taken;
          calls = one_more self.old.calls;
          failures = self.new.failures;
        } }
    {
        if self.fails() {
            return Err(self.fail());
        }
        let n = buf.len().min(self.most);
        if self.output.extend_from_slice(&buf[..n]).is_err() {
            return Err(self.fail());
        }
        Ok(n)
    }
}
