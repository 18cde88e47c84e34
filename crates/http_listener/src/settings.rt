//! How peers are served.
ghost use Rattle.std.specs.Prelude.{◌≡◌, ◌/◌, min};

use crate::StageTimes;
use http_connection::Limits;

/// How peers are served.
#[derive(Clone, Copy, Debug, PartialEq, Eq)]
pub struct Settings {
    /// How many there are at most, at once.
    pub most: usize,
    /// How long each may wait.
    pub times: StageTimes,
    /// The bounds of a connection.
    pub limits: Limits,
    /// How many bytes may be pending.
    pub pending: u64,
}

impl Settings {
    /// At most 8,192 peers, each of which may ask for nothing for `idle_ms`, take `request_ms` for
    /// a request, and as long take nothing of its answer. The rest of a refused request is read for
    /// 2 seconds, and a peer's end is waited for 1 second after writing was shut down. `pending`
    /// bytes may be pending. A body has `max_body` bytes at most, and half of those that may be
    /// pending: one that is longer would never have room beside what reading it takes. (profile)
    pub fn new(idle_ms: u64, request_ms: u64, max_body: usize, pending: u64) -> Settings
        ensures idle { result.times.idle_ms ≡ idle_ms }
        ensures request { result.times.request_ms ≡ request_ms }
        ensures answer { result.times.answer_ms ≡ request_ms }
        ensures discard { result.times.discard_ms ≡ 2_000 }
        ensures close { result.times.close_ms ≡ 1_000 }
        ensures most { result.most ≡ 8_192 }
        ensures max_body { result.limits.max_body ≡ min max_body (pending / 2) }
        ensures pending { result.pending ≡ pending }
    {
        let most_body = usize::try_from(pending / 2).unwrap_or(usize::MAX);
        Settings {
            most: 8_192,
            times: StageTimes {
                idle_ms,
                request_ms,
                answer_ms: request_ms,
                discard_ms: 2_000,
                close_ms: 1_000,
            },
            limits: Limits {
                max_body: max_body.min(most_body),
                ..Limits::default()
            },
            pending,
        }
    }
}
