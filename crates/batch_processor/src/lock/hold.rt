//! How a hold of the lock ends: who is woken once it is over, and the waits that begin in it.
ghost use Rattle.std.specs.Prelude.{◌≡◌, IsTrue, false};
ghost use Rattle.batch_processor.specs.Holds.{WasTold};
ghost use Rattle.model_processor.specs.AnyAccounts.{account_in, after_drained, on_pass, on_worker};
ghost use Rattle.model_processor.specs.AnyAccounts.{origin_in, pass, worker, worker_in};
ghost use Rattle.batch_processor.specs.Views.{after_answer};

use super::pace::Pace;
use super::shared::Shared;
use crate::account::Account;
use crate::fault::WorkerLeft;
use crate::pass::Flushed;
use account_book::Naming;
use batch_desk::Mark;
use std::alloc::Allocator;
use std::sync::{Condvar, MutexGuard, Wait};
use std::time::{self, Duration};

/// What is to be woken: the worker, which waits for something to do, and flushes, which wait for
/// batches to end or for the worker to leave.
pub(super) struct Wake {
    pub(super) worker: bool,
    pub(super) flushes: bool,
}

/// What a hold answers, and whom it wakes. It can't be dropped: `Waits::end` spends it, which ends
/// the hold and wakes them. So none is forgotten, and what a hold hands out to be freed is freed
/// once the hold is over.
pub(super) struct After<T> {
    pub(super) wake: Wake,
    pub(super) value: T,
}

/// Where threads wait: the worker for a flush or a shutdown, or until it looks again whether a
/// batch is due; and flushes for a batch to end, or for the worker to leave. It can't take the
/// lock. So a call that is handed a hold looks and waits in this very hold, and misses no wake-up.
#[derive(Default, Drop)]
pub(super) struct Waits {
    to_do: Condvar,
    done: Condvar,
}

impl Waits {
    /// Ends a hold, and wakes those that it wakes. What it answers is given once it is over.
    pub(super) fn end<J: Naming, A: Allocator, T>(
        &self,
        hold: MutexGuard<'_, Shared<J, A>>,
        after: After<T>,
    ) -> T
        ensures { result ≡ after.value }
    {
        let After { wake, value } = after;
        let Wake { worker, flushes } = wake;
        drop(hold);
        if worker {
            self.to_do.notify_one();
        }
        if flushes {
            self.done.notify_all();
        }
        value
    }

    /// Waits until what a pass asked for is flushed, or the worker has left.
    pub(super) fn for_flush<J: Naming, A: Allocator + Copy, R: Wait>(
        &self,
        rt: &R,
        mut hold: MutexGuard<'_, Shared<J, A>>,
        account: &mut Account<J>,
        mark: Mark,
    ) -> Result<Flushed, WorkerLeft>
        requires pass { account.old ≡ pass (account_in account.old) }
        requires mark { (account_in account.old).asked.mark ≡ mark }
        ensures account { account.new ≡ on_pass (after_answer result) account.old }
        ensures told { WasTold mark result (account_in account.old) }
    {
        for _ in rt.forever() {
            if let Some(answer) = hold.flushed(account, mark) {
                return answer;
            }
            hold = self.done.wait(rt, hold);
        }
        unreachable!()
    }

    /// Whether all is drained; if not, and no batch is due at this moment, the worker waits for a
    /// short time, or until it is woken.
    pub(super) fn for_work<J: Naming, A: Allocator + Copy, R: Wait + time::Clock>(
        &self,
        rt: &R,
        mut hold: MutexGuard<'_, Shared<J, A>>,
        account: &mut Account<J>,
        now: u64,
        pace: &mut Pace,
    ) -> bool
        requires worker { account.old ≡ worker (origin_in account.old) (worker_in account.old) }
        ensures yes { IsTrue result → account.new ≡ on_worker after_drained account.old }
        ensures no { result ≡ false → account.new ≡ account.old }
    {
        if hold.drained(account) {
            return true;
        }
        if !hold.is_due(now) {
            let pause = Duration::from_millis(pace.next_ms(hold.accepted()));
            self.to_do.wait_timeout(rt, hold, pause);
        }
        false
    }
}
