//! What becomes of ended spans in the queue of a batch processor (OpenTelemetry Trace SDK, Batching
//! processor) and of the batches that are sent (OTLP Specification): definitions. Their laws are in
//! crate `model_run`.
#![tactic(auto)]
