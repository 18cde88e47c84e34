//! How far a run of the program is, as its threads tell each other.
ghost use Rattle.std.specs.Prelude.{◌≡◌};

use std::alloc::{AllocError, Global};
use std::sync::Arc;
use std::sync::atomic::{AtomicBool, AtomicU64, Ordering};

/// How far a run is.
#[derive(Clone, Copy, Debug, PartialEq, Eq)]
pub(crate) enum Phase {
    /// Posts are taken.
    Serving,
    /// No more posts are taken, and what is kept is handed on.
    Emptying,
    /// Nothing is handed on any more.
    Over,
}

/// What the two threads of a run share of how far it is.
#[derive(Drop)]
struct Shared {
    phase: AtomicU64,
    is_sending: AtomicBool,
    has_ended: AtomicBool,
}

/// How far a run is. Each thread has one.
#[derive(Drop)]
pub(crate) struct Course {
    shared: Arc<Shared, Global>,
}

/// The number of a phase.
fn number_of(phase: Phase) -> u64 {
    match phase {
        Phase::Serving => 0,
        Phase::Emptying => 1,
        Phase::Over => 2,
    }
}

impl Course {
    /// Of a run that begins.
    pub(crate) fn new(alloc: Global) -> Result<Course, AllocError> {
        let shared = Shared {
            phase: AtomicU64::new(number_of(Phase::Serving)),
            is_sending: AtomicBool::new(false),
            has_ended: AtomicBool::new(false),
        };
        let shared = Arc::new(alloc, shared)?;
        Ok(Course { shared })
    }

    /// The same, for another thread.
    pub(crate) fn try_clone(&self) -> Result<Course, AllocError> {
        let shared = Arc::try_clone(&self.shared)?;
        Ok(Course { shared })
    }

    /// How far the run is.
    pub(crate) fn phase(&self) -> Phase {
        match self.shared.phase.load(Ordering::SeqCst) {
            0 => Phase::Serving,
            1 => Phase::Emptying,
            _ => Phase::Over,
        }
    }

    /// Says that the run has come to this phase.
    pub(crate) fn enter(&self, phase: Phase) {
        self.shared.phase.store(number_of(phase), Ordering::SeqCst);
    }

    /// Whether a batch is with the exporter.
    pub(crate) fn is_sending(&self) -> bool {
        self.shared.is_sending.load(Ordering::SeqCst)
    }

    /// Says whether a batch is with the exporter.
    pub(crate) fn set_sending(&self, is_sending: bool) {
        self.shared.is_sending.store(is_sending, Ordering::SeqCst);
    }

    /// Whether the thread that sends has nothing to do any more.
    pub(crate) fn has_ended(&self) -> bool {
        self.shared.has_ended.load(Ordering::SeqCst)
    }

    /// Says that the thread that sends has nothing to do any more.
    pub(crate) fn end(&self) {
        self.shared.has_ended.store(true, Ordering::SeqCst);
    }
}
