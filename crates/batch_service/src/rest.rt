//! What is left in a queue that no worker works on any more.
ghost use Rattle.std.specs.Prelude.{◌≡◌, ◌≤◌, None};
ghost use Rattle.batch_service.specs.Rest.{AbandonsWaiting, GivesUp};

use crate::give::give_names;
use batch_desk::Desk;
use drop_ledger::NameSink;
use otlp_span::Reason;

/// Gives up what is left: each span that waits is dropped as `Abandoned`, and its name, after those
/// that the ledgers have, is given to the sink. No memory is taken.
pub(crate) fn give_up<S: NameSink>(desk: &mut Desk, sink: &mut S)
    requires none_out { desk.old.out ≡ None }
    requires room { 1 ≤ desk.old.config.batch }
    ensures { GivesUp desk.old desk.new (S.named sink.old) (S.named sink.new) }
{
    abandon_waiting(desk);
    give_names(desk.drain_names().reversed(), sink);
}

/// Drops each span that waits, as `Abandoned`.
fn abandon_waiting(desk: &mut Desk)
    requires none_out { desk.old.out ≡ None }
    requires room { 1 ≤ desk.old.config.batch }
    ensures { AbandonsWaiting desk.old desk.new }
{
    // All that wait are due from here on.
    desk.shutdown();
    while let Some(batch) = desk.take(0) {
        desk.drop_batch(batch, Reason::Abandoned);
    }
}
