//! What follows from an attempt, at the desk and for the bodies that end.
ghost use Rattle.std.specs.Prelude.{flat_map};
ghost use Rattle.model_body.specs.Names.{lost_names, names_in};
ghost use Rattle.retry_core.specs.Retries.{fate_view, next_view};
ghost use Rattle.relay_queue.specs.Bodies.{bodies_view};
ghost use Rattle.relay_queue.specs.Named.{Gains};
ghost use Rattle.relay_queue.specs.Steps.{Notes};

use crate::{BodyDesk, LostSink, is_loss, name_lost};
use retry_core::{Fate, Next};
use std::alloc::Allocator;

/// Notes at a desk what follows from the attempt of the batch that is out: that it is to be sent
/// again, or how it ended. The bodies that end are handed out. Where no batch is out, as after the
/// desk was drained, nothing is noted.
pub(crate) fn note<A: Allocator + Copy>(
    alloc: A,
    desk: &mut BodyDesk<A>,
    next: Next,
) -> Vec<Vec<u8, A>, A>
    ensures { Notes (next_view next) (bodies_view result.items) desk.old desk.new }
{
    if !desk.is_out() {
        return Vec::new(alloc);
    }
    let Some(fate) = next.fate() else {
        desk.later();
        return Vec::new(alloc);
    };
    desk.settle(fate)
}

/// Gives the names of the spans of bodies that ended by this fate to a sink, body by body, where
/// they are lost; else none. It takes no memory. (OTLP Specification, "OTLP/HTTP Response"; profile)
pub fn name_ended<S: LostSink, A: Allocator>(bodies: &[Vec<u8, A>], fate: Fate, sink: &mut S)
    ensures { Gains (lost_names (fate_view fate) (bodies_view bodies.now))
        (S.named sink.old) (S.named sink.new) }
{
    if !is_loss(fate) {
        return;
    }
    name_all(bodies, fate, sink);
}

/// Gives the names of the spans of bodies that are lost by this fate to a sink, body by body.
fn name_all<S: LostSink, A: Allocator>(bodies: &[Vec<u8, A>], fate: Fate, sink: &mut S)
    ensures { Gains (flat_map (names_in (fate_view fate)) (bodies_view bodies.now))
        (S.named sink.old) (S.named sink.new) }
{
    for body in bodies {
        name_lost(body.as_slice(), fate, sink);
    }
}
