//! What the names of spans that aren't delivered are given to.
ghost use Rattle.std.specs.Prelude.{◌≡◌, Option, option_map};
ghost use Rattle.otlp_span.specs.Dropped.{entry_view};
ghost use Rattle.drop_ledger.specs.Named.{Named, with_dropped, with_lost};

use otlp_span::Entry;

/// What the names of spans that aren't delivered are given to, one by one (profile). A thread that
/// pops them from the ledgers gives them to a sink, so that they don't fill the memory of the host.
///
/// An `impl` says by its ghost member `named` which names it was given, or that it doesn't say. No
/// call can fail, and none takes memory that might be refused: a sink that writes or sends names
/// keeps the error for a caller that asks.
pub trait NameSink {
    ghost named: { Self → Option Named };

    /// Takes the name of a span that was dropped: its batch was not handed to an exporter.
    fn take_dropped(&mut self, entry: Entry)
        ensures { named self.new ≡ option_map (with_dropped (entry_view entry)) (named self.old) };

    /// Takes the name of a span that was lost: its batch was handed to an exporter, and not
    /// delivered.
    fn take_lost(&mut self, entry: Entry)
        ensures { named self.new ≡ option_map (with_lost (entry_view entry)) (named self.old) };
}
