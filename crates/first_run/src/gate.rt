//! A gate between threads.
use std::sync::{Condvar, Mutex, Wait};
use std::time::{Clock, Duration};

/// How long a thread waits at a gate, in milliseconds.
const PATIENCE_MS: u64 = 20_000;

/// A gate, which is closed at first: threads wait at it until another one opens it.
#[derive(Drop)]
pub struct Gate {
    is_open: Mutex<bool>,
    opened: Condvar,
}

impl Gate {
    /// A closed gate.
    pub fn new() -> Gate {
        Gate {
            is_open: Mutex::new(false),
            opened: Condvar::new(),
        }
    }

    /// Opens it.
    pub fn open(&self, rt: &impl Wait) {
        *self.is_open.lock(rt) = true;
        self.opened.notify_all();
    }

    /// Waits until it is open, or the time is up. Whether it is open.
    pub fn wait<R: Wait + Clock>(&self, rt: &R) -> bool {
        let patience = Duration::from_millis(PATIENCE_MS);
        let is_open = self.is_open.lock(rt);
        let (is_open, _) = self
            .opened
            .wait_timeout_while(rt, is_open, patience, |is_open| !*is_open);
        *is_open
    }
}
