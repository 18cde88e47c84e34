//! What the names of lost spans are given to.
ghost use Rattle.std.specs.Prelude.{◌≡◌, List, Option, [], ◌∷◌};
ghost use Rattle.model_body.specs.Names.{LostSpan};
ghost use Rattle.retry_core.specs.Retries.{fate_view};
ghost use Rattle.relay_queue.specs.Named.{Gains, lost_span};

use retry_core::Fate;

/// What the names of lost spans are given to, one by one (profile).
///
/// An `impl` says by its ghost member `named` which names it was given, or that it doesn't say. No
/// call can fail, and none takes memory that might be refused: a sink that writes or sends names
/// keeps the error until it is asked by `sync`.
pub trait LostSink {
    ghost named: { Self → Option (List LostSpan) };

    /// Takes the name of a span that is lost: its trace id and its span id, as they were received,
    /// of any length, and how the body that it is in ended.
    fn take_lost(&mut self, trace: &[u8], span: &[u8], fate: Fate)
        ensures { Gains (lost_span trace.now span.now (fate_view fate) ∷ [])
            (named self.old) (named self.new) };

    /// Whether all names that it was given since the last call are where they are to be: a crash of
    /// the machine leaves them there. Where they aren't, they are to be given again.
    fn sync(&mut self) -> bool
        ensures { named self.new ≡ named self.old }
    {
        true
    }
}
