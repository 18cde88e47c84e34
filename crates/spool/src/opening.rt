//! Opening a spool: what its files are.
ghost use Rattle.std.specs.Prelude.{◌≡◌, ℕ, ◌+◌, ◌*◌, ◌^◌, ◌<◌, ◌≤◌, List, [], ◌∷◌, ◌++◌, length, IfOk, IfErr, OnOk, IsErrOf};
ghost use Rattle.spool.specs.Disks.{SpoolFile, Disk};
ghost use Rattle.spool.specs.Crashes.{LeavesOnly, Only};
ghost use Rattle.spool.specs.Spools.{damaged_bytes, Rises};
ghost use Rattle.spool.specs.Settled.{IsSettled, device_of, limit_of};
ghost use Rattle.spool.specs.Surveys.{IsSurvey, IsSplit};

use crate::records::{scan, torn_count};
use crate::state::{Segment, Spool};
use crate::{Device, SpoolError};
use gzip::CrcTable;
use std::alloc::Global;

/// A spool that was opened.
#[derive(Drop)]
pub struct Opened<D: Device> {
    /// The spool.
    pub spool: Spool<D>,
    /// How many bytes of its files are not read: those of records that are cut short or damaged,
    /// and what is after them in their file. No body is given of them.
    pub damaged_bytes: u64,
}

/// What is found in files.
#[derive(Drop)]
pub(crate) struct Survey {
    pub(crate) segments: Vec<Segment>,
    pub(crate) done: u64,
    pub(crate) bodies_end: u64,
    pub(crate) last_end: u64,
    pub(crate) size: u64,
    pub(crate) damaged: u64,
}

impl Survey {
    /// Of no files.
    fn new(alloc: Global) -> Survey
        ensures { IsSurvey [] result }
    {
        Survey {
            segments: Vec::new(alloc),
            done: 0,
            bodies_end: 0,
            last_end: 0,
            size: 0,
            damaged: 0,
        }
    }

    /// Adds the next file. It is refused if the number is below the end of the bodies before it.
    fn add(&mut self, table: &CrcTable<Global>, number: u64, bytes: &[u8]) -> Result<(), SpoolError>
        requires { number < 2 ^ 63 }
        ensures survey { OnOk result ((disk : Disk) (file : SpoolFile) → IsSurvey disk self.old
            → file.number ≡ number → file.bytes ≡ bytes.now
            → IsSurvey (disk ++ file ∷ []) self.new) }
        ensures overlap { IsErrOf result SpoolError.Overlap → (disk : Disk) (file : SpoolFile)
            → IsSurvey disk self.old → file.number ≡ number → Rises (disk ++ file ∷ []) → ⊥ }
    {
        if number < self.bodies_end {
            return Err(SpoolError::Overlap);
        }
        let records = scan(table, bytes);
        let len = bytes.len() as u64;
        let bodies_end = number + records.bodies;
        let end = bodies_end + torn_count(records.rest);
        let Some(size) = self.size.checked_add(len) else {
            return Err(SpoolError::Full);
        };
        let Some(damaged) = self.damaged.checked_add(records.rest) else {
            return Err(SpoolError::Full);
        };
        self.segments.push(Segment {
            number,
            end,
            len,
            rest: records.rest,
        })?;
        self.done = self.done.max(records.done);
        self.bodies_end = self.bodies_end.max(bodies_end);
        self.last_end = self.last_end.max(end);
        self.size = size;
        self.damaged = damaged;
        Ok(())
    }
}

/// Reads all files.
fn survey_all<D: Device>(
    alloc: Global,
    device: &mut D,
    table: &CrcTable<Global>,
) -> Result<Survey, SpoolError>
    ensures survey { IfOk result (λ survey. D.is_known → IsSurvey (D.files device.old) survey) }
    ensures overlap { IsErrOf result SpoolError.Overlap → D.is_known
        → Rises (D.files device.old) → ⊥ }
    ensures same { D.is_known → D.files device.new ≡ D.files device.old }
    ensures crash { D.is_known → LeavesOnly D.moment D.left_at device.old device.new
        (D.left_at device.old (D.moment device.old)) }
{
    let numbers = device.numbers(alloc)?;
    let mut survey = Survey::new(alloc);
    for (index, number) in numbers.iter().enumerate() {
        let bytes = device.read(alloc, index)?;
        survey.add(table, *number, &bytes)?;
    }
    Ok(survey)
}

/// The table of checks, and what is found in the files, all of which is on the disk then.
fn survey_synced<D: Device>(
    alloc: Global,
    device: &mut D,
) -> Result<(CrcTable<Global>, Survey), SpoolError>
    ensures survey { IfOk result (λ x. D.is_known → IsSurvey (D.files device.old) x.1) }
    ensures overlap { IsErrOf result SpoolError.Overlap → D.is_known
        → Rises (D.files device.old) → ⊥ }
    ensures same { D.is_known → D.files device.new ≡ D.files device.old }
    ensures synced { OnOk result (D.is_known
        → Only (D.files device.new) (D.left_at device.new (D.moment device.new))) }
    ensures crash { D.is_known → LeavesOnly D.moment D.left_at device.old device.new
        (D.left_at device.old (D.moment device.old)) }
{
    let table = CrcTable::new(alloc)?;
    let survey = survey_all(alloc, device, &table)?;
    device.sync()?;
    Ok((table, survey))
}

/// Takes the last segment out if its file has no bytes and its bodies can begin with this number.
fn split_empty(segments: &mut Vec<Segment>, next: u64) -> Option<Segment>
    ensures { IsSplit segments.old.items segments.new.items next result }
{
    let Some(last) = segments.last() else {
        return None;
    };
    if last.len > 0 || last.end != next {
        return None;
    }
    segments.pop()
}

impl<D: Device> Spool<D> {
    /// Opens the files of a device as a spool. Their size may come up to `limit` bytes; a new file
    /// is made once the newest one would pass `segment_limit` bytes. All files are read, one at a
    /// time, and nothing of them is changed: what a crash leaves meanwhile, a crash before might
    /// have left. Nothing is ever added to a file that has bytes now: where a sync failed, what is
    /// read of it may not be on the disk, and records after a gap are lost.
    ///
    /// # Errors
    ///
    /// `Memory`, `Failed`; `Full` if the files have 2^64 bytes; `Overlap` if the numbers of the
    /// bodies of two files overlap, which no crash leaves. What isn't read at the end of a file
    /// doesn't count there. The device is handed back, with its files as they were.
    pub fn open(
        alloc: Global,
        device: D,
        limit: u64,
        segment_limit: u64,
    ) -> Result<Opened<D>, (SpoolError, D)>
        ensures settled { IfOk result (λ opened. D.is_known
            → IsSettled D.files D.moment D.left_at opened.spool) }
        ensures files { IfOk result (λ opened. D.is_known
            → D.files (device_of opened.spool) ≡ D.files device) }
        ensures damaged { IfOk result (λ opened. D.is_known
            → opened.damaged_bytes ≡ damaged_bytes (D.files device)) }
        ensures limit { IfOk result (λ opened. limit_of opened.spool ≡ limit) }
        ensures overlap { IfErr result (λ e. e.0 ≡ SpoolError.Overlap → D.is_known
            → Rises (D.files device) → ⊥) }
        ensures files_err { IfErr result (λ e. D.is_known → D.files e.1 ≡ D.files device) }
        ensures crash { IfOk result (λ opened. D.is_known
            → LeavesOnly D.moment D.left_at device (device_of opened.spool)
            (D.left_at device (D.moment device))) }
        ensures crash_err { IfErr result (λ e. D.is_known
            → LeavesOnly D.moment D.left_at device e.1 (D.left_at device (D.moment device))) }
    {
        let mut device = device;
        let (table, survey) = match survey_synced(alloc, &mut device) {
            Ok(found) => found,
            Err(error) => return Err((error, device)),
        };
        let next = survey.done.max(survey.last_end);
        let mut older = survey.segments;
        let growing = split_empty(&mut older, next);
        let spool = Spool {
            device,
            table,
            older,
            growing,
            done: survey.done,
            next,
            size: survey.size,
            limit,
            segment_limit,
        };
        Ok(Opened {
            spool,
            damaged_bytes: survey.damaged,
        })
    }
}
