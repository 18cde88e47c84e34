//! Links that carry one request after another.

ghost use Rattle.std.specs.Prelude.{◌≡◌, Bool, false, IfOk, ⊤};
ghost use Rattle.std.specs.Io.KnownBytes.{IsAtEnd, Keeps};
ghost use Rattle.http_wire.specs.Devices.{CountsFailure};
ghost use Rattle.http_exporter.specs.Kept.{IsReady};

use otlp_http::{DeviceFailed, FaultRead, FaultWrite};

/// A link that may carry one request after another (RFC 9112, section 9.3).
///
/// An `impl` says by its ghost member `renews` when it may, if it can say that.
pub trait KeptLink: FaultRead + FaultWrite {
    // From this state, it may be ready for another request, or not, and is left in that state.
    ghost renews: { Self → Bool → Self → Type 0 } = { λ _ _ _. ⊤ };

    /// Whether the link is ready for another request, for which it has the time of an attempt from
    /// now on: its other end hasn't closed it, and nothing has come that no read gave. It doesn't
    /// wait, and nothing is read.
    fn renew(&mut self) -> bool
        ensures { renews self.old result self.new };
}

/// The link that was kept, if it is ready for another request.
pub fn ready<L: KeptLink + Drop>(kept: Option<L>) -> Option<L>
    ensures { IsReady L.renews kept result }
{
    let Some(mut link) = kept else {
        return None;
    };
    if link.renew() { Some(link) } else { None }
}

/// A link that can be asked whether a reply begins, before any of it is read.
pub trait PeekLink: KeptLink {
    /// Waits until a byte has come, or the other end has closed, and answers whether a byte is
    /// there. It stays to be read.
    ///
    /// # Errors
    ///
    /// Where a read failed, which is counted.
    fn peek(&mut self) -> Result<bool, DeviceFailed>
        ensures kept { Keeps (Self.remaining self.old) (Self.remaining self.new) }
        ensures end { IfOk result (λ came. came ≡ false → IsAtEnd (Self.remaining self.new)) }
        ensures counted { CountsFailure result (Self.FaultRead.failures self.old)
            (Self.FaultRead.failures self.new) };
}
