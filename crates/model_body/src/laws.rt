//! Laws of the definitions.

ghost use Rattle.model_body.specs.Laws.{JoinedIsRead, JoinedHasSpans, BodiesAddUp};
ghost use Rattle.model_body.specs.Laws.{DeliveriesAreBodies, SpansAddUp, LossesAreNamed};
ghost use Rattle.model_body.specs.Laws.{RetryRepeats, RefusedAreKept, LostAlone, MemoryIsBounded};

/// Bodies that are read as requests, put one after the other, are read as the resources, scopes
/// and spans of all of them, in order (Protocol Buffers, Encoding, "Last One Wins").
pub fn joined_bodies_are_read()
    ensures two { JoinedIsRead }
    ensures all { JoinedHasSpans }
{}

/// No body is lost without a word, and none is there twice: those that were admitted are those that
/// ended and those that are kept, in order, byte for byte. What a collector took are the bytes of
/// the delivered ones. Of readable bodies the spans are as often admitted as they were delivered,
/// are kept, or are lost, and each lost span was named.
pub fn bodies_add_up()
    ensures bodies { BodiesAddUp }
    ensures deliveries { DeliveriesAreBodies }
    ensures spans { SpansAddUp }
    ensures names { LossesAreNamed }
{}

/// A batch that is sent again has the same bytes. A batch of several bodies that is refused is kept
/// whole, to be sent body by body, and a refusal ends a body only if that was sent alone.
pub fn batches_are_sent_again()
    ensures retry { RetryRepeats }
    ensures split { RefusedAreKept }
    ensures alone { LostAlone }
{}

/// The bodies that are kept take no more memory than the configuration says.
pub fn memory_is_bounded()
    ensures { MemoryIsBounded }
{}
