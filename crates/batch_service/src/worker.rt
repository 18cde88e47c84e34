//! What the thread of a service's worker does.
ghost use Rattle.std.specs.Prelude.{◌≡◌, None, Some, true, false};
ghost use Rattle.batch_processor.specs.Working.{IsPrepared};
ghost use Rattle.batch_service.specs.Limits.{is_time_up};
ghost use Rattle.batch_service.specs.Working.{IsDrained, NoneSettles, WorksOn, state_of};

use crate::give::give_names;
use crate::limit::{self, Limit, is_time_up};
use batch_processor::{Clock, Naming, Pass, WorkEnd, WorkerPass};
use drop_ledger::NameSink;
use rand_core::Rng;
use span_exporter::Exporter;
use std::sync::Wait;
use std::time;

/// What the thread of a service's worker has.
#[derive(Drop)]
pub struct Worker<J: Naming, R: Wait + Drop, E, S> {
    /// The worker's pass.
    pub(crate) worker: WorkerPass<J, R>,
    /// The pass that takes names out of the ledgers.
    pub(crate) names: Pass<J, R>,
    /// What the batches are handed to.
    pub(crate) exporter: E,
    /// What the names are given to.
    pub(crate) sink: S,
    /// Up to when it may begin attempts.
    pub(crate) limit: Limit,
    /// By whose monotonic clock that goes.
    pub(crate) rt: R,
}

impl<J, R, E, S> Worker<J, R, E, S>
where
    J: Naming,
    R: Wait + time::Clock + Drop,
    E: Exporter,
    S: NameSink,
{
    /// Sends batches until all is drained, or the time is up. The outcome of the last attempt is
    /// judged then too. Between two turns, and in the end, it gives all names that the ledgers have
    /// to the sink.
    pub(crate) fn work<C: Clock, G: Rng>(&mut self, clock: &C, rng: &mut G) -> WorkEnd
        requires { IsPrepared (E.room self.old.exporter) self.old.worker }
        ensures works { WorksOn
            (state_of (E.handed self.old.exporter) (S.named self.old.sink) self.old.worker
            self.old.names)
            (state_of (E.handed self.new.exporter) (S.named self.new.sink) self.new.worker
            self.new.names) }
        ensures drained { result ≡ WorkEnd.Drained → IsDrained self.new.worker.account }
        ensures judged { NoneSettles self.new.worker }
    {
        if self.take_turns(clock, rng) == WorkEnd::Drained {
            self.give_names();
            return WorkEnd::Drained;
        }
        self.worker.judge(clock, rng);
        self.give_names();
        WorkEnd::TurnsSpent
    }

    /// Takes turns until all is drained, or the time is up.
    fn take_turns<C: Clock, G: Rng>(&mut self, clock: &C, rng: &mut G) -> WorkEnd
        requires { IsPrepared (E.room self.old.exporter) self.old.worker }
        ensures works { WorksOn
            (state_of (E.handed self.old.exporter) (S.named self.old.sink) self.old.worker
            self.old.names)
            (state_of (E.handed self.new.exporter) (S.named self.new.sink) self.new.worker
            self.new.names) }
        ensures drained { result ≡ WorkEnd.Drained → IsDrained self.new.worker.account }
    {
        for _turn in 0..u64::MAX {
            let (limit, now) = (self.limit.get(), limit::now(&self.rt));
            if let Some(end) = self.turn_at(limit, now, clock, rng) {
                return end;
            }
        }
        WorkEnd::TurnsSpent
    }

    /// A turn that begins at a moment, where the time is up from another one on: none is taken
    /// then, and no attempt is begun. Whether work ends, and how.
    fn turn_at<C: Clock, G: Rng>(
        &mut self,
        limit: Option<u64>,
        now: Option<u64>,
        clock: &C,
        rng: &mut G,
    ) -> Option<WorkEnd>
        requires { IsPrepared (E.room self.old.exporter) self.old.worker }
        ensures time_up { is_time_up limit now ≡ true
            → (result ≡ Some WorkEnd.TurnsSpent) × (self.new ≡ self.old) }
        ensures in_time { result ≡ Some WorkEnd.TurnsSpent → is_time_up limit now ≡ true }
        ensures prepared { IsPrepared (E.room self.new.exporter) self.new.worker }
        ensures works { WorksOn
            (state_of (E.handed self.old.exporter) (S.named self.old.sink) self.old.worker
            self.old.names)
            (state_of (E.handed self.new.exporter) (S.named self.new.sink) self.new.worker
            self.new.names) }
        ensures drained { result ≡ Some WorkEnd.Drained → IsDrained self.new.worker.account }
    {
        if is_time_up(limit, now) {
            return Some(WorkEnd::TurnsSpent);
        }
        match self.turn(clock, rng) {
            WorkEnd::Drained => Some(WorkEnd::Drained),
            _ => None,
        }
    }

    /// One turn, and then the names that the ledgers have.
    #[tactic(auto, using(crate::proofs::Works::turns_then))]
    fn turn<C: Clock, G: Rng>(&mut self, clock: &C, rng: &mut G) -> WorkEnd
        requires { IsPrepared (E.room self.old.exporter) self.old.worker }
        ensures prepared { IsPrepared (E.room self.new.exporter) self.new.worker }
        ensures works { WorksOn
            (state_of (E.handed self.old.exporter) (S.named self.old.sink) self.old.worker
            self.old.names)
            (state_of (E.handed self.new.exporter) (S.named self.new.sink) self.new.worker
            self.new.names) }
        ensures drained { result ≡ WorkEnd.Drained → IsDrained self.new.worker.account }
    {
        let end = self.worker.work(&mut self.exporter, clock, rng, 1);
        self.give_names();
        end
    }

    /// Takes all names out of the ledgers, in one hold of the lock, and gives them to the sink.
    fn give_names(&mut self)
        ensures works { WorksOn
            (state_of (E.handed self.old.exporter) (S.named self.old.sink) self.old.worker
            self.old.names)
            (state_of (E.handed self.new.exporter) (S.named self.new.sink) self.new.worker
            self.new.names) }
        ensures worker { self.new.worker ≡ self.old.worker }
        ensures exporter { self.new.exporter ≡ self.old.exporter }
    {
        let names = self.names.drain_names();
        give_names(names, &mut self.sink);
    }
}
