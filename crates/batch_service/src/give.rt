//! Names, as they are given to a sink.
ghost use Rattle.std.specs.Prelude.{◌≡◌};
ghost use Rattle.batch_service.specs.Working.{GainsNames, dropped_names, lost_names, both_names};

use batch_desk::DrainedNames;
use drop_ledger::{Ledger, NameSink};
use std::alloc::Allocator;

/// Gives these names to the sink: first those of dropped spans, and of each kind the first one
/// first.
pub(crate) fn give_names<A: Allocator, S: NameSink>(names: DrainedNames<A>, sink: &mut S)
    ensures { GainsNames (both_names names.dropped names.lost) (S.named sink.old)
        (S.named sink.new) }
{
    let DrainedNames { dropped, lost } = names;
    give_dropped(dropped, sink);
    give_lost(lost, sink);
}

/// Gives these names of dropped spans to the sink, the first one first.
fn give_dropped<A: Allocator, S: NameSink>(names: Ledger<A>, sink: &mut S)
    ensures { GainsNames (dropped_names names) (S.named sink.old) (S.named sink.new) }
{
    let mut left = names;
    while let Some(entry) = left.pop() {
        sink.take_dropped(entry);
    }
}

/// The same of lost spans.
fn give_lost<A: Allocator, S: NameSink>(names: Ledger<A>, sink: &mut S)
    ensures { GainsNames (lost_names names) (S.named sink.old) (S.named sink.new) }
{
    let mut left = names;
    while let Some(entry) = left.pop() {
        sink.take_lost(entry);
    }
}
