//! Runs: the steps of a program that drives a tracer and its batch processor, which spans they
//! end, what each step is answered, and what becomes of the spans (OpenTelemetry Trace API; Trace
//! SDK, Batching processor): definitions, and laws of them, each as a function's contract.
#![tactic(auto)]

mod laws;

pub use laws::{
    attempts_are_answered, batches_are_slices, counts_add_up, encodings_are_answered,
    ended_spans_stay, ends_are_answered, flushes_are_settled, ledger_names_the_drops,
    ledger_names_the_losses, losses_are_named, no_ticket_is_lost, none_is_unaccounted_for,
    one_batch_is_out, queued_spans_are_ended, takes_are_answered, tickets_are_given_once,
};
