//! The peers, which are served until the program is to stop.

use crate::failure::Failure;
use crate::report::{report, report_strays};
use http_listener::{Complaints, Dated, End, Peers, Round};
use relay_queue::BodyKeeper;
use relay_service::{NoPieces, RelayService, Strays};
use std::alloc::Global;
use std::io::{Input, Read, Write};
use std::net::Net;
use std::random::RandomSource;
use std::sync::Wait;
use std::time::Clock;

/// A service whose answers say when they were made.
pub(crate) type Relay<K, R> = Dated<RelayService<K>, R>;

/// Why no peer can be served any more.
pub(crate) fn failure_of(end: End) -> Failure {
    match end {
        End::Wait => Failure::Wait,
        End::OutOfMemory => Failure::OutOfMemory,
    }
}

/// The moment at which a stop ends, in milliseconds: it is `stop_ms` after a round that says that
/// the program is to stop.
fn end_of(round: Round, end_ms: Option<u64>, stop_ms: u64) -> Option<u64> {
    match end_ms {
        None if round.is_to_stop => Some(round.at_ms.saturating_add(stop_ms)),
        _ => end_ms,
    }
}

/// Reads what was written to standard input to stop the program, 4,096 bytes at most: in a pipe it
/// would stop the next one too that is started with it. What came is there, so this doesn't wait.
fn take_request<R: Input>(rt: &R) {
    let mut bytes = [0; 4_096];
    let _ = rt.reader().read(&mut bytes);
}

/// Serves peers, round after round, and reports what was refused, until the program is to stop and
/// what was begun is done. Answers the moment at which the stop ends, which takes `stop_ms`
/// milliseconds.
pub(crate) fn serve<R, K, F>(
    rt: R,
    alloc: Global,
    mut peers: Peers<R, NoPieces>,
    service: &mut Relay<K, R>,
    faults: &mut F,
    stop_ms: u64,
) -> Result<u64, Failure>
where
    R: Net + Wait + RandomSource + Clock + Input + Copy,
    K: BodyKeeper,
    F: Write,
{
    let mut complaints = Complaints::new(alloc);
    let mut told = Strays::new();
    let mut end_ms = None;
    for _ in rt.forever() {
        let round = match peers.round_together(service) {
            Ok(round) => round,
            Err(end) => return Err(failure_of(end)),
        };
        let relay = &mut service.service;
        for _ in 0..round.accepted {
            relay.count_connection();
        }
        report_strays(&mut told, relay.strays(), faults);
        report(&mut complaints, relay.tallies(), faults, round.at_ms);
        if round.is_to_stop {
            take_request(&rt);
        }
        let before = end_ms;
        end_ms = end_of(round, before, stop_ms);
        if let Some(end_ms) = end_ms {
            if before.is_none() {
                peers.stop(end_ms);
            }
            if peers.is_done(round.at_ms) {
                return Ok(end_ms);
            }
        }
    }
    unreachable!()
}
