//! The log of a service, to which a thread of its own writes the names of spans.
ghost use Rattle.std.specs.Prelude.{◌≡◌, ◌+◌, IfErr};
ghost use Rattle.batch_service.specs.Refusals.{IsOfSystem};
ghost use Rattle.otlp_span.specs.Dropped.{entry_view};
ghost use Rattle.drop_ledger.specs.Lines.{TakesLine};
ghost use Rattle.drop_ledger.specs.ReasonCounts.{capped};
ghost use Rattle.traced_service.specs.Lines.{line_of};
ghost use Rattle.traced_service.specs.Names.{WritesNext};

use crate::names::RING_NAMES;
use batch_service::StartFault;
use drop_ledger::{NameLines, NameSink};
use otlp_span::Entry;
use rtrb::Consumer;
use std::alloc::{AllocError, Global};
use std::io::{LineWriter, Write};
use std::sync::atomic::{AtomicBool, Ordering};
use std::sync::{Arc, Wait};
use std::thread::{self, JoinHandle, Threads};
use std::time::{Clock, Duration};

/// How long the log's thread waits between two looks, in milliseconds, where it found no name
/// (profile).
const LOOK_MS: u64 = 1;

/// The same where it has found none for [`QUIET_LOOKS`].
const PAUSE_MS: u64 = 5;

/// After how many looks without a name it takes its time.
const QUIET_LOOKS: u32 = 1_000;

/// What names are written to, a line for each, in one write.
pub(crate) type Lines<L> = NameLines<LineWriter<L>>;

/// The log of a service, which has a line for each span that isn't delivered, as by [`NameLines`],
/// but for those whose names came faster than the log took them: these are counted.
#[derive(Drop)]
pub struct ServiceLog<L: Write + Drop> {
    lines: Lines<L>,
    rings: Vec<Consumer<Entry>>,
    left_out: u64,
}

impl<L: Write + Drop> ServiceLog<L> {
    /// How many names have no line: those that came where a thread had as many as it may have
    /// waiting (4,096), and those that could not be written, as [`NameLines::unwritten`]. The count
    /// stops at 2^64 - 1.
    pub fn unwritten(&self) -> u64
        ensures { result ≡ capped (self.now.lines.unwritten + self.now.left_out) }
    {
        self.lines.unwritten().saturating_add(self.left_out)
    }

    /// So many more names were left out.
    pub(crate) fn leave_out(&mut self, names: u64)
        ensures count { self.new.left_out ≡ capped (self.old.left_out + names) }
        ensures lines { self.new.lines ≡ self.old.lines }
    {
        self.left_out = self.left_out.saturating_add(names);
    }
}

/// Writes the line of a name, if no write has failed.
fn write_name<W: Write>(lines: &mut NameLines<W>, entry: Entry)
    ensures { TakesLine W.contents (line_of (entry_view entry)) lines.old lines.new }
{
    if entry.reason.is_lost() {
        lines.take_lost(entry);
    } else {
        lines.take_dropped(entry);
    }
}

/// Takes the oldest name out of a ring, and writes its line, if no write has failed. Whether there
/// was one.
fn write_next<W: Write>(ring: &mut Consumer<Entry>, lines: &mut NameLines<W>) -> bool
    ensures { WritesNext W.contents result ring.old ring.new lines.old lines.new }
{
    let Ok(entry) = ring.pop() else {
        return false;
    };
    write_name(lines, entry);
    true
}

/// Writes what a ring has, as many as it has room for at most. Whether it had one.
fn write_some<W: Write>(ring: &mut Consumer<Entry>, lines: &mut NameLines<W>) -> bool {
    let mut has_some = false;
    for _ in 0..RING_NAMES {
        if !write_next(ring, lines) {
            break;
        }
        has_some = true;
    }
    has_some
}

impl<L: Write + Drop> ServiceLog<L> {
    /// Writes what all rings have. Whether there was a name.
    fn sweep(&mut self) -> bool {
        let mut has_some = false;
        for ring in &mut self.rings {
            if write_some(ring, &mut self.lines) {
                has_some = true;
            }
        }
        has_some
    }

    /// Writes names until it is stopped and has found none since.
    fn run<R: Wait + Clock>(mut self, rt: &R, is_stopped: &AtomicBool) -> ServiceLog<L> {
        let mut quiet = 0u32;
        for _ in rt.forever() {
            let is_last = is_stopped.load(Ordering::SeqCst);
            if self.sweep() {
                quiet = 0;
                continue;
            }
            if is_last {
                break;
            }
            let wait_ms = if quiet < QUIET_LOOKS {
                LOOK_MS
            } else {
                PAUSE_MS
            };
            quiet = quiet.saturating_add(1);
            thread::sleep(rt, Duration::from_millis(wait_ms));
        }
        self
    }
}

/// A flag that isn't set, for two threads.
fn new_flag(alloc: Global) -> Result<(Arc<AtomicBool>, Arc<AtomicBool>), AllocError> {
    let flag = Arc::new(alloc, AtomicBool::new(false))?;
    let other = Arc::try_clone(&flag)?;
    Ok((flag, other))
}

/// The thread that writes a service's log.
#[derive(Drop)]
pub(crate) struct LogThread<L: Write + Drop> {
    is_stopped: Arc<AtomicBool>,
    thread: JoinHandle<ServiceLog<L>>,
}

impl<L: Write + Send + Drop + 'static> LogThread<L> {
    /// Starts the thread, which takes names out of these rings.
    ///
    /// # Errors
    ///
    /// `OutOfMemory` where memory was refused, and `NoThread` where no thread can be made.
    pub(crate) fn start<R>(
        rt: R,
        alloc: Global,
        lines: Lines<L>,
        rings: Vec<Consumer<Entry>>,
    ) -> Result<LogThread<L>, StartFault>
    where
        R: Threads + Wait + Clock + Copy + Send + 'static,
        ensures { IfErr result IsOfSystem }
    {
        let (is_stopped, flag) = new_flag(alloc)?;
        let log = ServiceLog {
            lines,
            rings,
            left_out: 0,
        };
        match thread::spawn(&rt, move || log.run(&rt, &flag)) {
            Ok(thread) => Ok(LogThread { is_stopped, thread }),
            Err(_) => Err(StartFault::NoThread),
        }
    }

    /// Ends the thread, once it has written what all rings have.
    pub(crate) fn stop<R: Threads>(self, rt: &R) -> ServiceLog<L> {
        let LogThread { is_stopped, thread } = self;
        is_stopped.store(true, Ordering::SeqCst);
        thread.join(rt)
    }
}
