//! Bodies, names and relays of the tests.
ghost use Rattle.std.specs.Prelude.{◌≡◌, length};
ghost use Rattle.model_body.specs.Names.{IsReadable, spans_in};

use crate::tests::device::TestDevice;
use otlp_receiver::read_content;
use relay_queue::{BodyConfig, BodyKeeper, BodySender, KeepFault, LostSink, SendConfig};
use relay_store::{
    Accounted, Closer, Holdings, Keeping, Naming, RelayBlank, RelayParts, RelaySender,
    SharedKeeper, Tried,
};
use retry_core::{Fate, Next, Outcome};
use span_exporter::MemoryExporter;
use spool::{MemoryFile, Spool, SpoolError};
use std::alloc::Global;
use std::process::Abort;
use std::sync::{Arc, Mutex, Wait};

/// A request of a span of trace 1 and span 2: a resource, a scope in it, a span in that.
pub(crate) const FIRST: &[u8] = b"\x0a\x0a\x12\x08\x12\x06\x0a\x01\x01\x12\x01\x02";

/// A request of a span of trace 3 and span 4.
pub(crate) const SECOND: &[u8] = b"\x0a\x0a\x12\x08\x12\x06\x0a\x01\x03\x12\x01\x04";

/// Counts the names that it is given, and keeps the first byte of each identifier as a digit, and
/// the status that its body was refused with.
#[derive(Drop)]
pub(crate) struct Digits {
    pub(crate) names: u64,
    pub(crate) digits: u64,
    pub(crate) status: u16,
}

impl Digits {
    /// None was given.
    pub(crate) fn new() -> Digits {
        Digits {
            names: 0,
            digits: 0,
            status: 0,
        }
    }
}

/// A byte, or 0 where there is none.
fn byte_at(bytes: &[u8], index: usize) -> u64 {
    bytes.get(index).map_or(0, |byte| u64::from(*byte))
}

impl LostSink for Digits {
    ghost use Rattle.std.specs.Prelude.{None};

    ghost named = { λ _. None };

    fn take_lost(&mut self, trace: &[u8], span: &[u8], fate: Fate) {
        self.names = self.names.wrapping_add(1);
        for digit in [byte_at(trace, 0), byte_at(span, 0)] {
            self.digits = self.digits.wrapping_mul(10).wrapping_add(digit);
        }
        if let Fate::Refused(status) = fate {
            self.status = status;
        }
    }
}

/// How many spans a body has.
fn count_spans(rt: &impl Abort, alloc: Global, body: &[u8]) -> usize
    ensures readable { IsReadable body.now }
    ensures count { result ≡ length (spans_in body.now) }
{
    let request = read_content(alloc, body).expect(rt, "a request");
    let spans = request.triples().expect(rt, "memory");
    spans.as_slice().len()
}

/// Keeps a body.
pub(crate) fn keep<K: BodyKeeper>(
    rt: &impl Abort,
    alloc: Global,
    keeper: &mut K,
    body: &[u8],
) -> Result<(), KeepFault> {
    let spans = count_spans(rt, alloc, body);
    keeper.keep(body.to_vec(alloc).expect(rt, "memory"), spans)
}

/// The spool of a device, in files of so many bytes. What fails lets the device go.
pub(crate) fn opened(
    alloc: Global,
    device: TestDevice,
    segment_limit: u64,
) -> Result<Spool<TestDevice>, SpoolError> {
    match Spool::open(alloc, device, 1_000_000, segment_limit) {
        Ok(opened) => Ok(opened.spool),
        Err((error, _device)) => Err(error),
    }
}

/// What a relay has kept, those who share it, where it sends, and the names of what is lost.
#[derive(Drop)]
pub(crate) struct Relay<J: Naming, R> {
    pub(crate) rt: R,
    pub(crate) alloc: Global,
    pub(crate) kept: Arc<Mutex<Accounted<J, TestDevice>>, Global>,
    pub(crate) keeper: SharedKeeper<J, R, TestDevice>,
    pub(crate) sender: RelaySender<J>,
    pub(crate) closer: Closer<J>,
    pub(crate) exporter: MemoryExporter,
    pub(crate) sink: Digits,
}

impl<J: Naming, R: Wait + Abort + Copy> Relay<J, R> {
    /// One that keeps nothing yet but what is in the spool, if there is one, and sends batches of so
    /// many bytes. No attempt is the last one, and these are the outcomes of the first ones.
    pub(crate) fn new(
        rt: R,
        alloc: Global,
        blank: RelayBlank,
        batch_bytes: usize,
        spool: Option<Spool<TestDevice>>,
        outcomes: &[Outcome],
    ) -> Relay<J, R>
        requires { blank ≡ J.name }
    {
        let config = BodyConfig {
            batch_bytes,
            memory_bytes: 1_000_000,
        };
        let is_spooled = spool.is_some();
        let keeping = Keeping::new(alloc, config, spool);
        let sender = BodySender::new(alloc, SendConfig::default());
        let RelayParts {
            kept,
            poster,
            sender,
            closer,
        } = RelayParts::<J, TestDevice>::new(blank, keeping, sender);
        let kept = Arc::new(alloc, Mutex::new(kept)).expect(&rt, "memory");
        let shared = Arc::try_clone(&kept).expect(&rt, "memory");
        let outcomes = outcomes.to_vec(alloc).expect(&rt, "memory");
        Relay {
            rt,
            alloc,
            kept,
            keeper: SharedKeeper::new(rt, alloc, shared, poster, is_spooled),
            sender,
            closer,
            exporter: MemoryExporter::new(alloc, outcomes),
            sink: Digits::new(),
        }
    }

    /// Keeps a body.
    pub(crate) fn keep(&mut self, body: &[u8]) -> Result<(), KeepFault> {
        keep(&self.rt, self.alloc, &mut self.keeper, body)
    }

    /// Hands on the next batch, at this moment.
    pub(crate) fn try_next(&mut self, now: u64) -> Tried {
        self.sender
            .try_next(&self.rt, &self.kept, &mut self.exporter, now)
    }

    /// Judges the last outcome, at the moment 0.
    pub(crate) fn finish(&mut self) -> Option<Next> {
        self.sender
            .finish(&self.rt, &self.kept, 0, 0, &mut self.sink)
    }

    /// Gives up what is kept.
    pub(crate) fn drain(&mut self) {
        self.closer.drain(&self.rt, &self.kept, &mut self.sink);
    }

    /// Reads what waits in the spool.
    pub(crate) fn refill(&mut self) -> Result<bool, SpoolError> {
        self.sender.refill(&self.rt, &self.kept)
    }

    /// What is kept, as the balance answers it.
    pub(crate) fn holdings(&mut self) -> Holdings {
        self.keeper.balance(&mut self.sender, &mut self.closer)
    }

    /// The files of the spool, which is taken out.
    pub(crate) fn take_files(&mut self) -> Option<Vec<MemoryFile>> {
        let spool = self.sender.take_spool(&self.rt, &self.kept)?;
        Some(spool.into_device().into_files())
    }

    /// Gives back a spool that was opened again.
    pub(crate) fn restore(&mut self, spool: Spool<TestDevice>) {
        self.sender.restore(&self.rt, &self.kept, spool);
    }
}

/// A body without spans, which has a number in a field that is not known.
pub(crate) fn numbered(number: u64) -> [u8; 9] {
    let (low, high) = (number % 256, number / 256 % 256);
    [121, low as u8, high as u8, 0, 0, 0, 0, 0, 0]
}

/// The numbers of such bodies that were sent, in order.
pub(crate) fn numbers_sent(rt: &impl Abort, alloc: Global, exporter: &MemoryExporter) -> Vec<u64> {
    let mut numbers = Vec::new(alloc);
    for attempt in exporter.handed() {
        for found in attempt.body.chunks_exact(9) {
            let number = byte_at(found, 2)
                .wrapping_mul(256)
                .wrapping_add(byte_at(found, 1));
            numbers.push(number).expect(rt, "memory");
        }
    }
    numbers
}
