//! What keeps a service from being started, whatever the system gives.
ghost use Rattle.std.specs.Prelude.{◌≡◌};
ghost use Rattle.batch_service.specs.Refusals.{refusal_of};

use crate::fault::StartFault;
use crate::service::MAX_THREADS;
use batch_processor::BatchConfig;
use span_ring::MAX_QUEUE;

/// Why a service with this number of passes isn't started by these settings: the first fault that
/// holds.
pub fn refusal_of(config: &BatchConfig, passes: usize) -> Option<StartFault>
    ensures { result ≡ refusal_of config.now passes }
{
    let desk = &config.desk;
    if passes == 0 || passes > MAX_THREADS {
        return Some(StartFault::BadPasses);
    }
    if desk.queue == 0 || desk.batch == 0 {
        return Some(StartFault::ZeroSize);
    }
    if desk.queue < desk.batch {
        return Some(StartFault::BatchAboveQueue);
    }
    if desk.queue > MAX_QUEUE {
        return Some(StartFault::TooLarge);
    }
    None
}
