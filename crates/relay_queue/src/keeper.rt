//! What keeps received bodies.

ghost use Rattle.std.specs.Prelude.{◌≡◌, ◌⊎◌, ◌≤◌, ℕ, IfOk, IsErrOf, IsFalse, IsTrue, List, OnOk};
ghost use Rattle.std.specs.Prelude.{length, map, ⊤};
ghost use Rattle.model_body.specs.Names.{IsReadable, spans_in};
ghost use Rattle.relay_queue.specs.Lost.{lost_view};

use crate::lost::LostSpan;
use crate::report::Report;
use std::alloc::{AllocError, Global};

/// Why a body isn't kept.
#[derive(Clone, Copy, Debug, PartialEq, Eq)]
pub enum KeepFault {
    /// There is no room for it, in memory or on a disk: there will be where others were handed on.
    Full,
    /// Memory was refused.
    OutOfMemory,
    /// What keeps bodies has failed, as a disk may.
    Failed,
}

/// What keeps the bodies of posts, until they are handed on. Where threads share what keeps them,
/// each has a keeper of its own.
pub trait BodyKeeper {
    ghost use Rattle.model_body.specs.Names.{LostSpan as LostName};
    ghost use Rattle.relay_queue.specs.declared.report.Report.{Report};

    // From the first state, this body was kept, byte for byte, and the second state is left.
    ghost keeps: { Self → List ℕ → Self → Type 0 };

    // In this state, it has no room for this body. An `impl` says so, if it can say that.
    ghost lacks_room: { Self → List ℕ → Type 0 } = { λ _ _. ⊤ };

    // From the first state, it failed to keep this body, and the second state is left.
    ghost fails: { Self → List ℕ → Self → Type 0 };

    // From the first state, this body was collected, to be kept together with others, and the second
    // state is left. An `impl` that collects says so.
    ghost collects_body: { Self → List ℕ → Self → Type 0 } = { λ _ _ _. ⊥ };

    // From the first state, the bodies that were collected were kept together, or none of them was,
    // and the second state is left. An `impl` that collects says so.
    ghost keeps_collected: { Self → Self → Type 0 } = { λ _ _. ⊥ };

    // In this state, this may be reported of it. An `impl` says so, if it can say that.
    ghost reports: { Self → Report → Type 0 } = { λ _ _. ⊤ };

    // In this state, these spans may be named as lost, the last one first, at most this many. An
    // `impl` says so, if it can say that.
    ghost names: { Self → ℕ → List LostName → Type 0 } = { λ _ _ _. ⊤ };

    /// Keeps a body, which has this many spans. `body` has no spare capacity.
    ///
    /// # Errors
    ///
    /// `KeepFault` where the body isn't kept. But for `KeepFault::Failed`, it is then as it was.
    fn keep(&mut self, body: Vec<u8>, spans: usize) -> Result<(), KeepFault>
        requires readable { IsReadable body.items }
        requires spans { spans ≡ length (spans_in body.items) }
        ensures kept { OnOk result (keeps self.old body.items self.new) }
        ensures full { IsErrOf result KeepFault.Full → lacks_room self.old body.items }
        ensures full_same { IsErrOf result KeepFault.Full → self.new ≡ self.old }
        ensures memory_same { IsErrOf result KeepFault.OutOfMemory → self.new ≡ self.old }
        ensures failed { IsErrOf result KeepFault.Failed → fails self.old body.items self.new };

    /// Whether it keeps bodies together, as with one write to a disk: it is then handed those of a
    /// round by `collect`, and `keep_collected` keeps them before any of them is recalled.
    fn collects(&self) -> bool {
        false
    }

    /// Takes a body, which has this many spans, to keep it together with others, or leaves it.
    fn collect(&mut self, body: Vec<u8>, spans: usize)
        requires readable { IsReadable body.items }
        requires spans { spans ≡ length (spans_in body.items) }
        ensures collected { (self.new ≡ self.old) ⊎ collects_body self.old body.items self.new }
    {
        let _ = (body, spans);
    }

    /// Keeps the bodies that it has collected since the last call, all of them or none.
    fn keep_collected(&mut self)
        ensures kept { (self.new ≡ self.old) ⊎ keeps_collected self.old self.new }
    {}

    /// Whether a body of these bytes was kept by the last `keep_collected`, and wasn't recalled
    /// since as often as it was kept.
    fn recall(&mut self, content: &[u8]) -> bool
        ensures readable { IsTrue result → IsReadable content.now }
        ensures kept { IsTrue result → keeps self.old content.now self.new }
        ensures same { IsFalse result → self.new ≡ self.old }
    {
        let _ = content;
        false
    }

    /// What became of what it kept.
    fn report(&self) -> Report
        ensures { reports self.now result };

    /// The spans that were lost last, the last one first: this many at most.
    ///
    /// # Errors
    ///
    /// `AllocError` where memory was refused.
    fn lost(&self, alloc: Global, most: usize) -> Result<Vec<LostSpan>, AllocError>
        ensures few { IfOk result (λ spans. length spans.items ≤ most) }
        ensures names { IfOk result (λ spans. names self.now most (map lost_view spans.items)) };
}
