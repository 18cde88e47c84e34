//! What gives links to a collector.

ghost use Rattle.std.specs.Prelude.{ℕ, List, Option, ⊤};

use otlp_http::{FaultRead, FaultWrite};

/// What gives links to a collector, a fresh one at each call. A
/// [`LinkExporter`](crate::LinkExporter) calls it for each attempt, and a
/// [`KeptExporter`](crate::KeptExporter) where it has no link that is ready.
///
/// An `impl` says by its ghost member `dials` which links it may give, if it can say that.
pub trait Dial {
    /// A way to a collector and back, which counts its failures.
    type Link: FaultRead + FaultWrite + Drop;

    // From this state, a dial of this host and port may give this link, or none, and leave that
    // state.
    ghost dials: { Self → List ℕ → ℕ → Option Self.Link → Self → Type 0 } = { λ _ _ _ _ _. ⊤ };

    /// A fresh link to this host and port, or none where none can be had.
    fn dial(&mut self, host: &str, port: u16) -> Option<Self::Link>
        ensures { dials self.old host.now port result self.new };
}
