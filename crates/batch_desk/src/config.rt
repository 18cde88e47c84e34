//! The settings of a queue.

/// How much a queue holds, and when a batch is taken from it (Trace SDK, "Batching processor").
#[derive(Debug, Clone, Copy, PartialEq, Eq)]
pub struct DeskConfig {
    /// The most spans that wait (`maxQueueSize`): 1 to 65,536 (the greatest: profile).
    pub queue: usize,
    /// The most spans of a batch (`maxExportBatchSize`): 1 to `queue`.
    pub batch: usize,
    /// How long spans wait for a batch to fill, in milliseconds since the last take
    /// (`scheduledDelayMillis`).
    pub delay_ms: u32,
}

impl Default for DeskConfig {
    ghost use Rattle.std.specs.Prelude.{◌≡◌};
    ghost use Rattle.batch_desk.specs.Views.{config_view};
    ghost use Rattle.batch_desk.specs.Desk.{default_config};

    ghost is_default = { λ config. config_view config ≡ default_config };

    /// The standard's numbers (Trace SDK, "Batching processor"): 2048 spans wait at most, a batch
    /// has 512 at most, and the delay is 5000 ms.
    fn default() -> DeskConfig {
        DeskConfig {
            queue: 2048,
            batch: 512,
            delay_ms: 5000,
        }
    }
}
