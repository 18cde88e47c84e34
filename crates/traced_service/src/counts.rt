//! What a traced service came to.
ghost use Rattle.std.specs.Prelude.{◌≡◌, if◌then◌else◌, length};
ghost use Rattle.std.specs.Process.{exit_status};
ghost use Rattle.batch_desk.specs.Views.{fate_counts_view};
ghost use Rattle.drop_ledger.specs.Counts.{drop_counts_view};
ghost use Rattle.traced_service.specs.Ends.{all_delivered, drops_of, is_delivered};
ghost use Rattle.traced_service.specs.Sums.{Sums, left_out_after, not_started_after};

use crate::log::ServiceLog;
use crate::names::ThreadNames;
use crate::work::ThreadDone;
use batch_desk::{FateCounts, Totals};
use batch_service::{Done, Served};
use drop_ledger::DropCounts;
use http_exporter::ReportsFailure;
use std::io::{self, Write};
use std::process::ExitCode;
use thread_tracer::Refused;

/// What a traced service came to: what its threads gave, what was refused to their spans, and its
/// end. `E` is the exporter, and `L` what the log is written to.
#[derive(Drop)]
pub struct TracedDone<T, E, L: Write + Drop> {
    /// What each thread came to, in their order.
    pub threads: Vec<ThreadDone<T>>,
    /// What was refused to the spans of all threads. Each count stops at 2^64 - 1.
    pub refused: Refused,
    /// The end of the service: the queue with its counts, the exporter, and the log.
    pub served: Served<E, ServiceLog<L>>,
}

/// What was refused to the spans of all these threads.
fn refused_of<T>(threads: &[ThreadDone<T>]) -> Refused
    ensures { Sums threads.now result }
{
    let (mut not_started, mut left_out) = (0u64, 0u64);
    for thread in threads {
        not_started = not_started.saturating_add(thread.refused.not_started);
        left_out = left_out.saturating_add(thread.refused.left_out);
    }
    Refused {
        not_started,
        left_out,
    }
}

/// How many spans were dropped, for whatever reason.
fn all_drops(drops: DropCounts) -> u64
    ensures { result ≡ drops_of (drop_counts_view drops) }
{
    drops
        .queue_full
        .saturating_add(drops.encode_memory)
        .saturating_add(drops.too_large)
        .saturating_add(drops.abandoned)
}

/// Whether no batch ended otherwise than delivered.
fn all_delivered(fates: FateCounts) -> bool
    ensures { result ≡ all_delivered (fate_counts_view fates) }
{
    let by_reply = fates.partial == 0 && fates.refused == 0 && fates.bad_reply == 0;
    by_reply && fates.given_up == 0 && fates.abandoned == 0
}

/// Writes a count after its name.
fn write_count<W: Write>(output: &mut W, name: &str, count: u64) -> io::Result<()> {
    writeln!(output, "{name} {count}")
}

impl<T, E, L: Write + Drop> TracedDone<T, E, L> {
    /// By what the service gave, and its log.
    pub(crate) fn new(
        done: Done<ThreadDone<T>, E, ThreadNames>,
        mut log: ServiceLog<L>,
    ) -> TracedDone<T, E, L>
        ensures threads { result.threads ≡ done.outputs }
        ensures desk { result.served.desk ≡ done.served.desk }
        ensures exporter { result.served.exporter ≡ done.served.exporter }
        ensures end { result.served.end ≡ done.served.end }
        ensures refused { Sums done.outputs.items result.refused }
    {
        let Done { outputs, served } = done;
        let Served {
            desk,
            exporter,
            sink,
            end,
        } = served;
        log.leave_out(sink.left_out());
        let refused = refused_of(&outputs);
        TracedDone {
            threads: outputs,
            refused,
            served: Served {
                desk,
                exporter,
                sink: log,
                end,
            },
        }
    }

    /// What became of the sampled spans that ended, and of their batches.
    pub fn totals(&self) -> Totals
        ensures lost { result.lost ≡ self.now.served.desk.lost_count }
        ensures left { result.left ≡ length self.now.served.desk.waiting }
        ensures dropped { drop_counts_view result.dropped ≡ self.now.served.desk.dropped }
        ensures fates { fate_counts_view result.fates ≡ self.now.served.desk.fates }
    {
        self.served.desk.totals()
    }

    /// Writes a line for each count: of the spans that were not started and the calls that were
    /// left out, where there are some, of spans and of batches by what became of them; of names that
    /// the log doesn't have, where there are some; and why the last attempt failed, if one did.
    ///
    /// # Errors
    ///
    /// That of the first write that failed.
    pub fn write_counts<W: Write>(&self, output: &mut W) -> io::Result<()>
    where
        E: ReportsFailure,
    {
        let (totals, fates) = (self.totals(), self.totals().fates);
        if self.refused.not_started > 0 {
            write_count(output, "spans not started", self.refused.not_started)?;
        }
        if self.refused.left_out > 0 {
            write_count(output, "calls left out", self.refused.left_out)?;
        }
        write_count(output, "spans handed", totals.handed)?;
        write_count(output, "spans lost", totals.lost)?;
        write_count(output, "spans dropped", all_drops(totals.dropped))?;
        write_count(output, "spans left", totals.left)?;
        write_count(output, "batches delivered", fates.delivered)?;
        write_count(output, "batches taken in part", fates.partial)?;
        write_count(output, "batches refused", fates.refused)?;
        write_count(output, "batches with a bad reply", fates.bad_reply)?;
        write_count(output, "batches given up", fates.given_up)?;
        if self.served.sink.unwritten() > 0 {
            write_count(output, "names not written", self.served.sink.unwritten())?;
        }
        match self.served.exporter.last_failure() {
            Some(failure) => writeln!(output, "last failure: {failure}"),
            None => Ok(()),
        }
    }

    /// Whether no span was dropped, lost or left, and each batch was delivered.
    pub fn is_delivered(&self) -> bool
        ensures { result ≡ is_delivered self.now.served.desk }
    {
        let totals = self.totals();
        all_drops(totals.dropped) == 0
            && totals.lost == 0
            && totals.left == 0
            && all_delivered(totals.fates)
    }

    /// The status of a program that did nothing else: 0 if all was delivered, and else 1.
    pub fn exit_code(&self) -> ExitCode
        ensures { exit_status result ≡ (if is_delivered self.now.served.desk then 0 else 1) }
    {
        if self.is_delivered() {
            ExitCode::SUCCESS
        } else {
            ExitCode::FAILURE
        }
    }
}
