//! A pass whose thread gives names to a sink of its own.
ghost use Rattle.std.specs.Prelude.{◌≡◌};
ghost use Rattle.batch_service.specs.Naming.{is_dropped, naming};

use crate::give::give_names;
use crate::threads::ServicePass;
use drop_ledger::NameSink;
use otlp_span::SpanData;
use trace_api::{EndPass, Ended};

/// How many spans are dropped on a [`NamingPass`] before it names those of all passes (profile).
pub const NAMED_TOGETHER: u32 = 16;

// No clause says the number itself.
const _: () = prove!(NAMED_TOGETHER == 16);

/// A pass whose thread gives the names of spans that aren't delivered to a sink of its own
/// (profile). At each 16th of its ends with the answer `Dropped` it takes all names out of the
/// ledgers, whatever pass their spans ended on, and gives them to its sink.
///
/// The worker of a service does the same between two turns. But it has a thread's share of the
/// processors: where many more threads end spans than there are processors, that is too little for
/// all that they drop, and names fill the memory. On these passes the threads that drop spans name
/// them, so the ledgers stay short, however many threads there are. What it costs is a longer end
/// at each 16th span that is dropped; spans that are queued cost nothing more. Names that are left
/// at the end go to the worker's sink.
#[derive(Drop)]
pub struct NamingPass<'a, P, S> {
    pass: &'a mut P,
    sink: S,
    /// How many spans were dropped since names were last given, or since the beginning.
    unnamed: u32,
}

impl<'a, P, S> NamingPass<'a, P, S> {
    /// Spans end on this pass, and names are given to this sink.
    pub fn new(pass: &'a mut P, sink: S) -> NamingPass<'a, P, S>
        ensures same_pass { result.pass.ghost_name ≡ pass.entry.ghost_name }
        ensures naming { naming result ≡ record { pass = pass.old; sink = sink; unnamed = 0 } }
    {
        NamingPass {
            pass,
            sink,
            unnamed: 0,
        }
    }

    /// The sink.
    pub fn sink(&self) -> &S
        ensures { result.now ≡ (naming self.now).sink }
    {
        &self.sink
    }

    /// Gives the sink back.
    pub fn into_sink(self) -> S
    where
        S: Drop,
        ensures { result ≡ (naming self.entry).sink }
    {
        let NamingPass {
            pass: _,
            sink,
            unnamed: _,
        } = self;
        sink
    }
}

/// Whether a span that has this answer was dropped.
fn is_dropped(ended: Ended) -> bool
    ensures { result ≡ is_dropped ended }
{
    match ended {
        Ended::Dropped(..) => true,
        _ => false,
    }
}

impl<'a, P: ServicePass, S: NameSink> EndPass<SpanData> for NamingPass<'a, P, S> {
    ghost use Rattle.batch_service.specs.Naming.{EndsAndNames, naming};

    ghost admits = { λ old span answer new.
        EndsAndNames P.EndPass.admits P.drains S.named (naming old) span answer (naming new) };

    fn admit(&mut self, span: SpanData) -> Ended {
        let ended = self.pass.admit(span);
        if !is_dropped(ended) {
            return ended;
        }
        if self.unnamed < NAMED_TOGETHER - 1 {
            self.unnamed += 1;
            return ended;
        }
        give_names(self.pass.drain_names(), &mut self.sink);
        self.unnamed = 0;
        ended
    }
}
