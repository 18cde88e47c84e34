//! Where the names of lost spans go.

use crate::failure::Failure;
use crate::names::LostLines;
use relay_queue::LostSink;
use retry_core::Fate;
use std::alloc::Global;
use std::fs::{File, OpenFile};
use std::io::{ErrorKind, LineWriter, Write};
use std::mem;
use std::os::unix::fs::OpenOptionsExt;
use std::rt::Files;
use timely_log::Log;

/// Where the lines of names go.
#[derive(Drop)]
enum Lines<N: Write + Drop, L: Log + Drop> {
    /// The file of `--names`.
    File(LostLines<LineWriter<N>>),
    /// What the program reports on.
    Log(LostLines<LineWriter<L>>),
}

/// What the names of lost spans are written to: a file, or what the program reports on.
#[derive(Drop)]
pub(crate) struct LostNames<N: Write + Drop, L: Log + Drop> {
    lines: Lines<N, L>,
    // How many names it was given since they were synced last.
    given: u64,
    // How many names had failed by then, and how many failed since `take_unwritten`.
    failed: u64,
    unwritten: u64,
    // How many of the others were for a log that nobody reads, since `take_unread`.
    unread: u64,
}

impl<N: Write + Drop, L: Log + Drop> LostNames<N, L> {
    /// One that was given none.
    fn new(lines: Lines<N, L>) -> LostNames<N, L> {
        LostNames {
            lines,
            given: 0,
            failed: 0,
            unwritten: 0,
            unread: 0,
        }
    }

    /// How many names could not be written since the last call, or were written to a file that could
    /// not be synced, but for those that `take_unread` counts.
    pub(crate) fn take_unwritten(&mut self) -> u64 {
        mem::replace(&mut self.unwritten, 0)
    }

    /// How many names could not be written since the last call because nobody read the log. They are
    /// to be given no second time: what sends doesn't wait for a reader.
    pub(crate) fn take_unread(&mut self) -> u64 {
        mem::replace(&mut self.unread, 0)
    }

    /// Whether it writes to a log that nobody reads.
    fn is_unread(&self) -> bool {
        match &self.lines {
            Lines::File(_) => false,
            Lines::Log(lines) => lines.writer().get_ref().is_unread(),
        }
    }

    /// Counts names that could not be written. Answers whether they are done with all the same.
    fn count_missed(&mut self, missed: u64) -> bool {
        let is_unread = self.is_unread();
        if is_unread {
            self.unread = self.unread.saturating_add(missed);
        } else {
            self.unwritten = self.unwritten.saturating_add(missed);
        }
        is_unread
    }
}

/// Whether lines are on the disk. (A pipe and a terminal have no sync, and answer EINVAL.)
fn is_synced<N: Write + OpenFile + Drop>(lines: &LostLines<LineWriter<N>>) -> bool {
    match lines.writer().get_ref().sync_data() {
        Ok(()) => true,
        Err(error) => error.kind() == ErrorKind::InvalidInput,
    }
}

impl<N: Write + OpenFile + Drop, L: Log + Drop> LostSink for LostNames<N, L> {
    ghost use Rattle.std.specs.Prelude.{None};

    ghost named = { λ _. None };

    fn take_lost(&mut self, trace: &[u8], span: &[u8], fate: Fate) {
        self.given = self.given.saturating_add(1);
        match &mut self.lines {
            Lines::File(lines) => lines.take_lost(trace, span, fate),
            Lines::Log(lines) => lines.take_lost(trace, span, fate),
        }
    }

    /// Writes out what is held back, and syncs the file, if it is one. (Where standard error goes to
    /// a file, that isn't synced.) Names for a log that nobody reads are only counted.
    fn sync(&mut self) -> bool {
        if self.given == 0 {
            return true;
        }
        let (is_done, failed) = match &mut self.lines {
            Lines::File(lines) => {
                let is_whole = lines.finish();
                (is_whole && is_synced(lines), lines.unwritten())
            }
            Lines::Log(lines) => (lines.finish(), lines.unwritten()),
        };
        let more = failed.saturating_sub(self.failed);
        let missed = if more > 0 { more } else { self.given };
        self.failed = failed;
        self.given = 0;
        is_done || self.count_missed(missed)
    }
}

/// Syncs the folder of the file with this name, so that the file is in it after a crash of the
/// machine. Whether that is so. (A folder that has no sync answers EINVAL.)
fn is_name_synced<R: Files>(rt: &R, name: &str) -> bool {
    let folder = match name.rsplit_once('/') {
        Some(("", _)) => "/",
        Some((folder, _)) => folder,
        None => ".",
    };
    let Ok(folder) = File::options().read(true).open(rt, folder) else {
        return false;
    };
    match folder.sync_all() {
        Ok(()) => true,
        Err(error) => error.kind() == ErrorKind::InvalidInput,
    }
}

/// Names are written to the file with this name, after what it has, or where there is none to the
/// log. A file that it makes is for its owner alone (mode 0600), and is synced with its name.
pub(crate) fn lost_names<R, L>(
    rt: &R,
    alloc: Global,
    name: Option<&String>,
    log: L,
) -> Result<LostNames<R::File, L>, Failure>
where
    R: Files,
    L: Log + Drop,
{
    let Some(name) = name else {
        return match LineWriter::new(alloc, log) {
            Ok(lines) => Ok(LostNames::new(Lines::Log(LostLines::new(lines)))),
            Err(_) => Err(Failure::OutOfMemory),
        };
    };
    let file = File::options()
        .append(true)
        .create(true)
        .mode(0o600)
        .open(rt, name.as_str());
    let Ok(file) = file else {
        return Err(Failure::Names);
    };
    if !is_name_synced(rt, name.as_str()) {
        return Err(Failure::Names);
    }
    match LineWriter::new(alloc, file) {
        Ok(lines) => Ok(LostNames::new(Lines::File(LostLines::new(lines)))),
        Err(_) => Err(Failure::OutOfMemory),
    }
}
