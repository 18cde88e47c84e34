//! The settings of a batch processor.

use batch_desk::DeskConfig;
use otlp_proto::DEFAULT_MAX_BODY;
use retry_core::RetryConfig;

/// The settings of a batch processor (Trace SDK, "Batching processor"; OpenTelemetry Protocol
/// Exporter, "Retry").
#[derive(Debug, Clone, Copy, PartialEq, Eq)]
pub struct BatchConfig {
    /// How many spans wait, how many a batch has, and how long it takes to fill.
    pub desk: DeskConfig,
    /// How often a batch is sent, and when it is sent again.
    pub retry: RetryConfig,
    /// The greatest body that is sent, in bytes: a batch with a longer one is dropped (profile).
    pub max_body: usize,
}

impl Default for BatchConfig {
    ghost use Rattle.std.specs.Prelude.{◌≡◌};
    ghost use Rattle.batch_desk.specs.Desk.{default_config};
    ghost use Rattle.batch_desk.specs.Views.{config_view};
    ghost use Rattle.retry_core.specs.Retries.{default_retry};
    ghost use Rattle.otlp_proto.specs.declared.encoder.TheConstants.{DEFAULT_MAX_BODY};

    ghost is_default = { λ config. (config_view config.desk ≡ default_config)
        × (config.retry ≡ default_retry) × (config.max_body ≡ DEFAULT_MAX_BODY) };

    /// The standard's numbers of a queue, the retries of `RetryConfig`, and the greatest body of
    /// `DEFAULT_MAX_BODY` bytes (Trace SDK, "Batching processor").
    fn default() -> BatchConfig {
        BatchConfig {
            desk: DeskConfig::default(),
            retry: RetryConfig::default(),
            max_body: DEFAULT_MAX_BODY,
        }
    }
}

/// The settings of a processor with this number of passes.
#[derive(Debug, Clone, Copy)]
pub(crate) struct Setup {
    pub(crate) passes: usize,
    pub(crate) config: BatchConfig,
}
