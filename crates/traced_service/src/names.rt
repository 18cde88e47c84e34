//! Names on their way from the threads that drop spans to the one that writes them.
ghost use Rattle.std.specs.Prelude.{◌≡◌, IfOk, []};
ghost use Rattle.rtrb.specs.Ring.{IsPair, received, sent};
ghost use Rattle.traced_service.specs.Names.{PutsOrCounts};

use batch_service::NAMED_TOGETHER;
use drop_ledger::NameSink;
use otlp_span::Entry;
use rtrb::{Consumer, Producer, RingBuffer};
use std::alloc::{AllocError, Global};
use std::sync::{Mutex, Wait};
use std::thread;

/// How many names a ring has room for (profile).
pub(crate) const RING_NAMES: usize = 4_096;

/// What a thread of a service gives names to: its end of a ring, at whose other end the log's thread
/// takes them out. No call waits, and none takes memory: where the ring is full a name is left out,
/// and counted.
#[derive(Drop)]
pub(crate) struct ThreadNames {
    ring: Producer<Entry>,
    left_out: u64,
    /// Whether the thread gives up its turn of the processor at each 16th name.
    gives_way: bool,
    /// How many names came, up to 2^32 - 1, and then from 0 on.
    came: u32,
}

impl ThreadNames {
    /// Both ends of a ring with room for [`RING_NAMES`].
    ///
    /// A thread that drops many spans may give up its turn of the processor at each 16th name. Where
    /// there are more threads than processors, the worker and the log's thread would else have too
    /// small a share of these to send and to write.
    ///
    /// # Errors
    ///
    /// `AllocError` where memory was refused.
    pub(crate) fn new(
        alloc: Global,
        gives_way: bool,
    ) -> Result<(ThreadNames, Consumer<Entry>), AllocError>
        ensures pair { IfOk result (λ ends. IsPair ends.0.ring ends.1) }
        ensures empty { IfOk result (λ ends. (sent ends.0.ring ≡ []) × (received ends.1 ≡ [])) }
        ensures none { IfOk result (λ ends. ends.0.left_out ≡ 0) }
    {
        let (ring, taken) = RingBuffer::new(alloc, RING_NAMES)?;
        let names = ThreadNames {
            ring,
            left_out: 0,
            gives_way,
            came: 0,
        };
        Ok((names, taken))
    }

    /// How many names were left out, since the ring was full. The count stops at 2^64 - 1.
    pub(crate) fn left_out(&self) -> u64
        ensures { result ≡ self.now.left_out }
    {
        self.left_out
    }

    /// Puts a name into the ring, or counts it where the ring is full.
    fn put(&mut self, entry: Entry)
        ensures { PutsOrCounts entry self.old self.new }
    {
        if self.ring.push(entry).is_err() {
            self.left_out = self.left_out.saturating_add(1);
        }
        self.came = self.came.wrapping_add(1);
        if self.gives_way && self.came % NAMED_TOGETHER == 0 {
            thread::yield_now();
        }
    }
}

impl NameSink for ThreadNames {
    ghost use Rattle.std.specs.Prelude.{None};

    ghost named = { λ _. None };

    fn take_dropped(&mut self, entry: Entry)
        ensures { PutsOrCounts entry self.old self.new }
    {
        self.put(entry);
    }

    fn take_lost(&mut self, entry: Entry)
        ensures { PutsOrCounts entry self.old self.new }
    {
        self.put(entry);
    }
}

/// What the threads of a service give names to, each by its number, while no thread has it.
#[derive(Drop)]
pub(crate) struct NamesAside {
    places: Mutex<Vec<Option<ThreadNames>>>,
}

impl NamesAside {
    /// Those of threads 0 and on.
    pub(crate) fn new(places: Vec<Option<ThreadNames>>) -> NamesAside {
        let places = Mutex::new(places);
        NamesAside { places }
    }

    /// Takes that of the thread with this number. `None` where it is taken, or there is none.
    pub(crate) fn take<R: Wait>(&self, rt: &R, thread: usize) -> Option<ThreadNames> {
        self.places.lock(rt).get_mut(thread)?.take()
    }

    /// Puts that of the thread with this number back.
    pub(crate) fn put_back<R: Wait>(&self, rt: &R, thread: usize, names: ThreadNames) {
        if let Some(place) = self.places.lock(rt).get_mut(thread) {
            *place = Some(names);
        }
    }

    /// How many names were left out by those that aren't taken. The count stops at 2^64 - 1.
    pub(crate) fn left_out<R: Wait>(&self, rt: &R) -> u64 {
        let mut all = 0u64;
        for place in self.places.lock(rt).iter() {
            if let Some(names) = place {
                all = all.saturating_add(names.left_out());
            }
        }
        all
    }
}

/// The rings of a service.
#[derive(Drop)]
pub(crate) struct Rings {
    /// What the worker gives names to.
    pub(crate) worker: ThreadNames,
    /// What the threads give names to.
    pub(crate) names: NamesAside,
    /// The ends at which names are taken out.
    pub(crate) taken: Vec<Consumer<Entry>>,
}

impl Rings {
    /// Those of a service with this number of threads, which may give way to others.
    ///
    /// # Errors
    ///
    /// `AllocError` where memory was refused.
    pub(crate) fn new(alloc: Global, threads: usize, gives_way: bool) -> Result<Rings, AllocError> {
        let (worker, end) = ThreadNames::new(alloc, false)?;
        let mut places = Vec::with_capacity(alloc, threads)?;
        let mut taken = Vec::new(alloc);
        taken.push(end)?;
        for _ in 0..threads {
            let (names, end) = ThreadNames::new(alloc, gives_way)?;
            places.push(Some(names))?;
            taken.push(end)?;
        }
        Ok(Rings {
            worker,
            names: NamesAside::new(places),
            taken,
        })
    }
}
