//! Links that read through a buffer.

ghost use Rattle.std.specs.Prelude.{◌≡◌, ◌≤◌, [], length, min, take, drop, IsOk, OnErr, OnOk};
ghost use Rattle.std.specs.Io.{ReadsAtMost};
ghost use Rattle.std.specs.Io.KnownBytes.{Consumes, IsAtEnd, Keeps, prepend_known};
ghost use Rattle.http_wire.specs.Devices.{CountsFailure};

use crate::kept_link::{KeptLink, PeekLink};
use otlp_http::{DeviceFailed, FaultRead, FaultWrite};
use std::marker::Model;

/// How many bytes a buffer has room for: a reply to an export is mostly shorter. (profile)
const ROOM: usize = 4096;

/// A link that reads through a buffer: a read asks the link below only where the buffer is empty,
/// and then for as many bytes as the buffer has room for. So a head that is read byte by byte takes
/// one call of the system. What the buffer takes beyond a reply is lost with the link: it carries
/// another request only where the buffer is empty. Writes go to the link below at once. It takes no
/// memory. In contracts it is a `BufferedLink`. (profile)
#[derive(Drop)]
pub struct Buffered<L> {
    link: L,
    bytes: [u8; ROOM],
    given: usize,
    len: usize,
}

impl<L> Model for Buffered<L> {
    ghost use Rattle.std.specs.Prelude.{◌≤◌, drop, take};
    ghost use Rattle.http_exporter.specs.Buffers.{BufferedLink};

    ghost Value = { BufferedLink L };

    ghost view = { λ b. record { link = b.link; unread = drop b.given (take b.len b.bytes) } };

    ghost invariant = { λ b. (b.given ≤ b.len) × (b.len ≤ 4096) };
}

impl<L> Buffered<L> {
    /// A link with an empty buffer.
    pub fn new(link: L) -> Buffered<L>
        ensures { result ≡ record { link = link; unread = [] } }
    {
        Buffered {
            link,
            bytes: [0; ROOM],
            given: 0,
            len: 0,
        }
    }

    /// The link below.
    pub fn link(&self) -> &L
        ensures { result.now ≡ self.now.link }
    {
        &self.link
    }

    /// The bytes that were read from the link below and aren't given yet.
    fn unread(&self) -> &[u8]
        ensures { result.now ≡ self.now.unread }
    {
        &self.bytes[self.given..self.len]
    }

    /// Gives a front of the buffer to the front of `buf`, and answers how many bytes.
    fn give(&mut self, buf: &mut [u8]) -> usize
        ensures count { result ≡ min (length buf.old) (length self.old.unread) }
        ensures room { length buf.new ≡ length buf.old }
        ensures bytes { take result buf.new ≡ take result self.old.unread }
        ensures unread { self.new ≡ record self.old { unread = drop result self.old.unread } }
    {
        let unread = &self.bytes[self.given..self.len];
        let n = buf.len().min(unread.len());
        buf[..n].copy_from_slice(&unread[..n]);
        self.given += n;
        n
    }
}

impl<L: FaultRead> Buffered<L> {
    /// Fills the buffer, which is empty, by one read. It stays empty only at the end.
    ///
    /// # Errors
    ///
    /// Where the read failed, which is counted.
    fn fill(&mut self) -> Result<(), DeviceFailed>
        ensures came { OnOk result (Consumes (L.remaining self.old.link)
            (L.remaining self.new.link) self.new.unread) }
        ensures end { OnOk result (self.new.unread ≡ [] → IsAtEnd (L.remaining self.new.link)) }
        ensures kept { OnErr result (Keeps (L.remaining self.old.link)
            (L.remaining self.new.link)) }
        ensures empty { OnErr result (self.new.unread ≡ []) }
        ensures counted { CountsFailure result (L.failures self.old.link)
            (L.failures self.new.link) }
    {
        self.given = 0;
        self.len = 0;
        let n = self.link.read(&mut self.bytes)?;
        self.len = n;
        Ok(())
    }

    /// Fills the buffer where it is empty. The bytes that are left to be read stay as they are.
    ///
    /// # Errors
    ///
    /// Where the read failed, which is counted.
    fn refill(&mut self) -> Result<(), DeviceFailed>
        ensures kept { Keeps (prepend_known self.old.unread (L.remaining self.old.link))
            (prepend_known self.new.unread (L.remaining self.new.link)) }
        ensures end { OnOk result (self.new.unread ≡ [] → IsAtEnd (L.remaining self.new.link)) }
        ensures counted { CountsFailure result (L.failures self.old.link)
            (L.failures self.new.link) }
    {
        if self.unread().is_empty() {
            return self.fill();
        }
        Ok(())
    }
}

impl<L: FaultRead> FaultRead for Buffered<L> {
    ghost use Rattle.std.specs.Io.KnownBytes.{prepend_known};

    ghost remaining = { λ b. prepend_known b.unread (L.remaining b.link) };

    ghost failures = { λ b. L.failures b.link };

    fn failures(&self) -> u64 {
        self.link.failures()
    }

    fn read(&mut self, buf: &mut [u8]) -> Result<usize, DeviceFailed> {
        if buf.is_empty() {
            return Ok(0);
        }
        self.refill()?;
        Ok(self.give(buf))
    }
}

impl<L: FaultWrite> FaultWrite for Buffered<L> {
    ghost contents = { λ b. L.contents b.link };

    ghost failures = { λ b. L.failures b.link };

    fn failures(&self) -> u64 {
        self.link.failures()
    }

    fn write(&mut self, buf: &[u8]) -> Result<usize, DeviceFailed> {
        self.link.write(buf)
    }
}

impl<L: KeptLink> KeptLink for Buffered<L> {
    ghost use Rattle.http_exporter.specs.Buffers.{RenewsBuffered};

    ghost renews = { RenewsBuffered L.renews };

    fn renew(&mut self) -> bool {
        self.unread().is_empty() && self.link.renew()
    }
}

impl<L: KeptLink> PeekLink for Buffered<L> {
    fn peek(&mut self) -> Result<bool, DeviceFailed> {
        self.refill()?;
        Ok(!self.unread().is_empty())
    }
}
