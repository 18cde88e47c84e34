//! What the arguments mean for the parts of the program.
ghost use Rattle.std.specs.Prelude.{◌≡◌, ◌≢◌, ◌≤◌, ◌*◌, ◌-◌, ◌/◌, None, Some, min};

use crate::args::RelayArgs;
use http_listener::Settings;
use relay_queue::{BodyConfig, SendConfig};
use retry_core::RetryConfig;
use spool::RESERVED_BYTES;

/// The bytes of a MiB.
const MIB: u64 = 1_048_576;

/// How long a connection may last without a request, in milliseconds: exporters keep theirs for
/// minutes. (profile)
const IDLE_MS: u64 = 300_000;

/// How long a request may take to arrive, and how long a client may take nothing of its answer, in
/// milliseconds. (profile)
const REQUEST_MS: u64 = 30_000;

/// The least wait between two attempts, in milliseconds: a collector that asks for none isn't asked
/// without a pause. (profile)
const LEAST_MS: u32 = 100;

/// How many bytes a body takes of memory beside its own.
const OVERHEAD: u64 = 96;

/// How many bytes a body may have, and what it means: a larger one would never have room.
pub(crate) fn max_body_of(args: &RelayArgs) -> usize
    ensures { args.now.memory_mb ≤ 1_048_576
        → result ≡ min args.now.max_body (args.now.memory_mb * 1_048_576 - 96) }
{
    let memory = args.memory_mb.saturating_mul(MIB);
    let most = args.max_body.min(memory.saturating_sub(OVERHEAD));
    usize::try_from(most).unwrap_or(usize::MAX)
}

/// How many bytes of requests and answers may be pending.
pub(crate) fn pending_of(args: &RelayArgs) -> u64
    ensures { args.now.pending_mb ≤ 1_048_576 → result ≡ args.now.pending_mb * 1_048_576 }
{
    args.pending_mb.saturating_mul(MIB)
}

/// How peers are served.
pub(crate) fn settings_of(args: &RelayArgs) -> Settings
    ensures idle { result.times.idle_ms ≡ 300_000 }
    ensures request { result.times.request_ms ≡ 30_000 }
    ensures answer { result.times.answer_ms ≡ result.times.request_ms }
    ensures most { result.most ≡ 8_192 }
    ensures max_body { args.now.memory_mb ≤ 1_048_576 → result.limits.max_body
        ≡ min (min args.now.max_body (args.now.memory_mb * 1_048_576 - 96)) (result.pending / 2) }
    ensures pending { args.now.pending_mb ≤ 1_048_576
        → result.pending ≡ args.now.pending_mb * 1_048_576 }
{
    Settings::new(IDLE_MS, REQUEST_MS, max_body_of(args), pending_of(args))
}

/// How much is kept in memory, and how large requests to the collector are.
pub(crate) fn config_of(args: &RelayArgs) -> BodyConfig
    ensures batch { result.batch_bytes ≡ args.now.batch_bytes }
    ensures memory { args.now.memory_mb ≤ 1_048_576
        → result.memory_bytes ≡ args.now.memory_mb * 1_048_576 }
{
    let memory = args.memory_mb.saturating_mul(MIB);
    BodyConfig {
        batch_bytes: usize::try_from(args.batch_bytes).unwrap_or(usize::MAX),
        memory_bytes: usize::try_from(memory).unwrap_or(usize::MAX),
    }
}

/// How many bytes the files of the spool may have that bodies are in: the others keep room for notes.
pub(crate) fn spool_limit_of(args: &RelayArgs) -> u64
    ensures { args.now.spool_mb ≤ 1_048_576
        → result ≡ args.now.spool_mb * 1_048_576 - 65_536 }
{
    args.spool_mb
        .saturating_mul(MIB)
        .saturating_sub(RESERVED_BYTES)
}

/// How many bytes a file of a spool with this limit has at most, unless it has a single body: an
/// eighth of the limit, so that files are removed and give room while bodies wait, and at most
/// 1 MiB, since one is read whole while posts wait for the lock. (profile)
pub(crate) fn segment_bytes_of(limit: u64) -> u64
    ensures { result ≡ min (limit / 8) 1_048_576 }
{
    (limit / 8).min(MIB)
}

/// So many bytes are enough for a batch, so that no other bodies are waited for: as many as it has
/// at most, half of those that there is room for in memory, and with a spool those of a file.
pub(crate) fn enough_of(args: &RelayArgs, is_spooled: bool) -> u64
    ensures { result ≤ args.now.batch_bytes }
{
    let room = args.memory_mb.saturating_mul(MIB) / 2;
    let most = args.batch_bytes.min(room);
    if !is_spooled {
        return most;
    }
    most.min(segment_bytes_of(spool_limit_of(args)))
}

/// For how many milliseconds it hands on once it is stopped.
pub(crate) fn stop_ms_of(args: &RelayArgs) -> u64
    ensures { args.now.stop_seconds ≤ 3_600 → result ≡ args.now.stop_seconds * 1_000 }
{
    args.stop_seconds.saturating_mul(1_000)
}

/// How long the waits between attempts are, and how often a batch is sent.
pub(crate) fn sends_of(args: &RelayArgs) -> SendConfig {
    let retry = RetryConfig::default();
    SendConfig {
        retry: retry.with_least_wait(LEAST_MS).unwrap_or(retry),
        attempts: attempts_of(args),
    }
}

/// After how many refusals in a row of all requests bodies are lost by them, if there is such a
/// number.
pub(crate) fn refused_after_of(args: &RelayArgs) -> Option<u64>
    ensures none { args.now.refused_after ≡ 0 → result ≡ None }
    ensures some { args.now.refused_after ≢ 0 → result ≡ Some args.now.refused_after }
{
    if args.refused_after == 0 {
        return None;
    }
    Some(args.refused_after)
}

/// How often a batch is sent at most, if there is a last attempt.
fn attempts_of(args: &RelayArgs) -> Option<u32> {
    match u32::try_from(args.attempts) {
        Ok(0) => None,
        Ok(attempts) => Some(attempts),
        Err(_) => Some(u32::MAX),
    }
}
