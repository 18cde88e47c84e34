//! Laws of the model of a batch processor's queue: what holds whatever is done at it. Laws of the
//! model of runs: what holds of every run whose answers are right. (OpenTelemetry Trace API; Trace
//! SDK, Batching processor)
ghost use Rattle.std.specs.Prelude.{List};
ghost use Rattle.model_run.specs.Queues.{TicketsAreGivenInOrder, EachTicketOnce, TicketsAddUp};
ghost use Rattle.model_run.specs.Queues.{AcceptedAddUp, TakenAddUp, QueueIsBounded};
ghost use Rattle.model_run.specs.Queues.{BatchesAreTheFirst, BatchesStay, BatchesAreTheTaken};
ghost use Rattle.model_run.specs.Queues.{LastBatchIsTakenLast, SettledAreTheFirst};
ghost use Rattle.model_run.specs.Queues.{FlushedAreSettled, ShutdownAsksForAll, LedgerNamesTheDrops};
ghost use Rattle.model_run.specs.Queues.{LedgerAndPoppedAreTheDrops, LedgerNamesTheLosses};
ghost use Rattle.model_run.specs.Queues.{LedgerAndPoppedAreTheLosses, LossesWereHanded};
ghost use Rattle.model_run.specs.Queues.{ReasonsAreApart};
ghost use Rattle.model_run.specs.Runs.{Answered};
ghost use Rattle.model_run.specs.Answers.{RunConfig};
ghost use Rattle.model_run.specs.Headline.{EachOnce, attempts, AreNumbered};
ghost use Rattle.model_run.specs.Laws.{OfHistories, OfRuns, LateAfterShutdown, DroppedWhereFull};
ghost use Rattle.model_run.specs.Laws.{QueuedWhereRoom, TakenWhereDue, TakesTheFirst};
ghost use Rattle.model_run.specs.Laws.{TakenAfterShutdown, OneBatchIsOut, EncodedWhereItFits};
ghost use Rattle.model_run.specs.Laws.{DroppedUnencoded, DroppedBatchIsNamed, AttemptsAreNumbered};
ghost use Rattle.model_run.specs.Laws.{AttemptsAreFew, AttemptsAreFiveAtMost, OfSettings};
ghost use Rattle.model_run.specs.Laws.{NoAttemptIsEarly, RepliesAreDecided, EndedSpansStay};
ghost use Rattle.model_run.specs.Laws.{EndedAreFew, EventsAreAllowed, NoneUnaccountedFor, IsAllowed};
ghost use Rattle.model_run.specs.Laws.{HandedAreTheBatches, HandedAreNotDropped};
ghost use Rattle.model_run.specs.Laws.{LedgerNamesTheDropped, WaitingAreEnded, BatchesAreEnded};
ghost use Rattle.model_run.specs.Laws.{DropsNameEnded, EndedByTheSteps, LossesAreNamed};

/// Tickets are given from 0 on, each once and in order. (profile)
pub fn tickets_are_given_once()
    ensures in_order { TicketsAreGivenInOrder }
{}

/// No ticket is lost: each that was given is that of one span that waits, or is in a batch in hand,
/// or was handed to the exporter, or was dropped, and of no other. (profile)
pub fn no_ticket_is_lost()
    ensures once { EachTicketOnce }
{}

/// The counts add up: tickets are those of spans that were accepted or found the queue full,
/// accepted spans were taken or wait, and taken ones were handed, or dropped with their batch, or
/// are in hand. No more wait than the queue has room for. (Trace SDK, Batching processor:
/// maxQueueSize)
pub fn counts_add_up()
    ensures tickets { TicketsAddUp }
    ensures accepted { AcceptedAddUp }
    ensures taken { TakenAddUp }
    ensures waiting { QueueIsBounded }
{}

/// A batch has the first spans that wait, as many as a batch may have, and keeps them. The batches,
/// one after the other, have the spans that were taken, and the last one those that were taken
/// last. (Trace SDK, Batching processor: maxExportBatchSize)
pub fn batches_are_slices()
    ensures first { BatchesAreTheFirst }
    ensures stay { BatchesStay }
    ensures all { BatchesAreTheTaken }
    ensures last { LastBatchIsTakenLast }
{}

/// Accepted spans are flushed once their batches are settled or dropped. A shutdown asks for all
/// that were accepted, and a flush after it changes nothing. (Trace SDK, ForceFlush, Shutdown)
pub fn flushes_are_settled()
    ensures first { SettledAreTheFirst }
    ensures flushed { FlushedAreSettled }
    ensures shutdown { ShutdownAsksForAll }
{}

/// The ledger names what was dropped, the newest first, but for what was popped. (profile)
pub fn ledger_names_the_drops()
    ensures unpopped { LedgerNamesTheDrops }
    ensures popped { LedgerAndPoppedAreTheDrops }
{}

/// The second ledger names what was lost, the newest first, but for what was popped. A lost span
/// was handed to the exporter, and is lost once. The reasons of lost spans are no reasons of
/// dropped ones. (profile)
pub fn ledger_names_the_losses()
    ensures unpopped { LedgerNamesTheLosses }
    ensures popped { LedgerAndPoppedAreTheLosses }
    ensures handed { LossesWereHanded }
    ensures apart { ReasonsAreApart }
{}

/// The first end of a sampled span: after a shutdown it is late; else it is dropped where the
/// queue is full, and waits where it isn't. Nothing else is late, dropped there or queued. (Trace
/// SDK, OnEnd, Shutdown, Batching processor: maxQueueSize)
pub fn ends_are_answered()
    ensures late { OfRuns LateAfterShutdown }
    ensures full { OfRuns DroppedWhereFull }
    ensures queued { OfRuns QueuedWhereRoom }
{}

/// A take gives the first of the spans that wait, exactly where a batch is due and none is out.
/// After a shutdown one is due where spans wait. (Trace SDK, Batching processor:
/// maxExportBatchSize, scheduledDelayMillis; Shutdown)
pub fn takes_are_answered()
    ensures due { OfRuns TakenWhereDue }
    ensures first { OfRuns TakesTheFirst }
    ensures shutdown { OfRuns TakenAfterShutdown }
{}

/// At most one batch is out: it is settled or dropped before a next one is taken. (profile)
pub fn one_batch_is_out()
    ensures one { OfRuns (λ run. OneBatchIsOut) }
{}

/// A batch has a body only where that isn't larger than it may be. It is dropped only in place of
/// its encoding: for want of memory, or where its body would be larger; its spans are then named
/// for this reason. (profile)
pub fn encodings_are_answered()
    ensures fits { OfRuns EncodedWhereItFits }
    ensures dropped { OfRuns DroppedUnencoded }
    ensures named { OfHistories DroppedBatchIsNamed }
{}

/// The attempts of a batch are numbered from 1 on. They are at most as many as are configured, and
/// so at most five; no attempt comes before the moment that the last reply said. What follows from
/// a reply is decided by the outcome of the last attempt. (OTLP Specification, Retryable Response
/// Codes, OTLP/HTTP Throttling)
pub fn attempts_are_answered()
    ensures numbered { OfRuns (λ run. AttemptsAreNumbered) }
    ensures in_order { OfRuns (λ run history. AreNumbered (attempts history)) }
    ensures few { OfRuns (OfSettings AttemptsAreFew) }
    ensures five { OfRuns (OfSettings (λ run. AttemptsAreFiveAtMost)) }
    ensures early { OfRuns (λ run. NoAttemptIsEarly) }
    ensures decided { OfRuns RepliesAreDecided }
{}

/// No span is unaccounted for: each that ended before the shutdown is handed to the exporter, still
/// queued, or dropped, once, and the ledger names those that were dropped. Those that were handed
/// are the spans of the batches that had an attempt. What is done at the queue is allowed there
/// where fewer than 2^64 - 1 spans ended; that it is, is the premise of the others. (profile)
pub fn none_is_unaccounted_for()
    ensures allowed { OfRuns EventsAreAllowed }
    ensures once { OfRuns NoneUnaccountedFor }
    ensures batches { OfRuns (λ run history.
        IsAllowed run history → HandedAreTheBatches run.setup history (attempts history)) }
    ensures handed { OfHistories (λ setup history.
        EachOnce setup history → HandedAreNotDropped setup history) }
    ensures named { (run : RunConfig) (history : List Answered) →
        LedgerNamesTheDropped run history }
{}

/// A span that has ended keeps its ticket and its value, whatever follows. Where no memory was
/// refused, it is one that the steps end. No more spans end than there are steps. (Trace API, End)
pub fn ended_spans_stay()
    ensures stay { OfHistories EndedSpansStay }
    ensures few { OfHistories EndedAreFew }
    ensures steps { OfHistories EndedByTheSteps }
{}

/// The spans that wait, those of each batch, and those that were dropped are spans that ended, each
/// with the ticket and the value with which it did. (Trace API, End)
pub fn queued_spans_are_ended()
    ensures waiting { OfRuns (λ run. WaitingAreEnded run.setup) }
    ensures batches { OfRuns (λ run. BatchesAreEnded run.setup) }
    ensures drops { OfRuns (λ run. DropsNameEnded run.setup) }
{}

/// The second ledger names the spans of each batch that was handed to the exporter and then was
/// refused, was given up, or had a reply that could not be read: each span once, with the reason,
/// and as it ended; and no others. (profile)
pub fn losses_are_named()
    ensures { OfRuns (λ run history. IsAllowed run history → LossesAreNamed run history) }
{}
