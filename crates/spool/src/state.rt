//! A spool: what it knows of its files, and how they grow.
ghost use Rattle.std.specs.Prelude.{◌≡◌, ◌≢◌, ◌⊎◌, ℕ, ◌+◌, ◌-◌, ◌*◌, ◌^◌, ◌<◌, ◌≤◌, min, List, [], ◌∷◌, ◌++◌, length, map};
ghost use Rattle.std.specs.Prelude.{true, false, Some, IsSome, MatchOption, OnOk, IsErrOf};
ghost use Rattle.std.specs.Option.{option_to_list};
ghost use Rattle.spool.specs.Disks.{grow_last};
ghost use Rattle.spool.specs.Crashes.{Appended, LeavesOnly};
ghost use Rattle.spool.specs.Settled.{IsSettled, IsSame, Grows, device_of, grown_by};
ghost use Rattle.spool.specs.declared.state.Segment.{Segment};

use crate::synced::{append_synced, create_synced};
use crate::{Device, SpoolError};
use gzip::CrcTable;
use std::alloc::{AllocError, Global};

/// Numbers of files are below this.
pub(crate) const MAX_NUMBER: u64 = 1 << 63;

/// How many bytes a note takes.
pub(crate) const NOTE_SIZE: u64 = 17;

/// What a spool keeps of a file: its number, the number after those of its bodies, its length, and
/// how many bytes at its end are not read.
#[derive(Clone, Copy, Debug)]
pub(crate) struct Segment {
    pub(crate) number: u64,
    pub(crate) end: u64,
    pub(crate) len: u64,
    pub(crate) rest: u64,
}

/// The files in which bodies wait until they are delivered, over a device that keeps them.
pub struct Spool<D: Device> {
    pub(crate) device: D,
    pub(crate) table: CrcTable<Global>,
    pub(crate) older: Vec<Segment>,
    pub(crate) growing: Option<Segment>,
    pub(crate) done: u64,
    pub(crate) next: u64,
    pub(crate) size: u64,
    pub(crate) limit: u64,
    pub(crate) segment_limit: u64,
}

/// By hand: a derived one would be proved again in each crate that drops it.
impl<D: Device + Drop> Drop for Spool<D> {
    fn drop(self) {
        let Self {
            device: _,
            table: _,
            older: _,
            growing: _,
            done: _,
            next: _,
            size: _,
            limit: _,
            segment_limit: _,
        } = self;
    }
}

impl<D: Device> Spool<D> {
    /// Gives the device back, to open it again.
    pub fn into_device(self) -> D
        ensures { result ≡ device_of self }
    {
        let Spool {
            device,
            table: _,
            older: _,
            growing: _,
            done: _,
            next: _,
            size: _,
            limit: _,
            segment_limit: _,
        } = self;
        device
    }
}

/// Whether there is a file that can grow and takes so many more bytes. One without bodies always
/// does.
fn has_room(growing: Option<Segment>, len: u64, segment_limit: u64) -> bool
    ensures { result ≡ true → IsSome growing }
{
    match growing {
        Some(segment) => {
            segment.number == segment.end || segment.len.saturating_add(len) <= segment_limit
        }
        None => false,
    }
}

/// Keeps the segment that could grow with the older ones.
fn retire(older: &mut Vec<Segment>, growing: Option<Segment>) -> Result<(), AllocError>
    ensures { OnOk result (older.new.items ≡ older.old.items ++ option_to_list growing) }
{
    if let Some(segment) = growing {
        older.push(segment)?;
    }
    Ok(())
}

/// A segment that has grown.
fn grown_segment(growing: Option<Segment>, end: u64, len: u64) -> Option<Segment>
    ensures { result ≡ grown_by end len growing }
{
    match growing {
        Some(segment) => Some(Segment {
            number: segment.number,
            end,
            len: segment.len.saturating_add(len),
            rest: segment.rest,
        }),
        None => None,
    }
}

/// The size and the next number that files get with so many more bytes and bodies, if these have
/// room: once a note of each body is written too, the files stay within the limit.
pub(crate) fn room_for(
    limit: u64,
    size: u64,
    next: u64,
    done: u64,
    bytes: u64,
    count: u64,
) -> Option<(u64, u64)>
    ensures { MatchOption result
        ((limit < size + bytes + 17 * (next + count - done)) ⊎ (2 ^ 63 ≤ next + count))
        (λ x. (x.0 ≡ size + bytes) × (x.1 ≡ next + count)
        × (size + bytes + 17 * (next + count - done) ≤ limit) × (next + count < 2 ^ 63)) }
{
    let after = u128::from(next) + u128::from(count);
    let larger = u128::from(size) + u128::from(bytes);
    let notes = u128::from(NOTE_SIZE) * after.saturating_sub(u128::from(done));
    if after >= u128::from(MAX_NUMBER) || larger + notes > u128::from(limit) {
        return None;
    }
    Some((larger as u64, after as u64))
}

impl<D: Device> Spool<D> {
    /// Makes a new file, unless the newest one can grow and takes so many more bytes.
    pub(crate) fn make_open(&mut self, len: u64) -> Result<(), SpoolError>
        requires { D.is_known → IsSettled D.files D.moment D.left_at self.old }
        ensures settled { OnOk result (D.is_known
            → IsSettled D.files D.moment D.left_at self.new) }
        ensures is_open { OnOk result (IsSome self.new.growing) }
        ensures same { OnOk result (D.is_known → IsSame (D.files self.old.device)
            (D.files self.new.device)) }
        ensures limit { self.new.limit ≡ self.old.limit }
        ensures crash { D.is_known → LeavesOnly D.moment D.left_at self.old.device self.new.device
            (IsSame (D.files self.old.device)) }
        ensures full { IsErrOf result SpoolError.Full → 2 ^ 63 ≤ self.old.next }
    {
        if has_room(self.growing, len, self.segment_limit) {
            return Ok(());
        }
        if self.next >= MAX_NUMBER {
            return Err(SpoolError::Full);
        }
        self.make_file()
    }

    /// Makes a new file.
    pub(crate) fn make_file(&mut self) -> Result<(), SpoolError>
        requires settled { D.is_known → IsSettled D.files D.moment D.left_at self.old }
        requires small { self.old.next < 2 ^ 63 }
        ensures settled { OnOk result (D.is_known
            → IsSettled D.files D.moment D.left_at self.new) }
        ensures growing { OnOk result (self.new.growing ≡ Some (record {
          number = self.old.next;
          «end» = self.old.next;
          len = 0;
          rest = 0;
        })) }
        ensures is_open { OnOk result (IsSome self.new.growing) }
        ensures next { OnOk result (self.new.next ≡ self.old.next) }
        ensures same { OnOk result (D.is_known → IsSame (D.files self.old.device)
            (D.files self.new.device)) }
        ensures limit { self.new.limit ≡ self.old.limit }
        ensures crash { D.is_known → LeavesOnly D.moment D.left_at self.old.device self.new.device
            (IsSame (D.files self.old.device)) }
        ensures full { IsErrOf result SpoolError.Full → ⊥ }
    {
        retire(&mut self.older, self.growing)?;
        create_synced(&mut self.device, self.next)?;
        self.growing = Some(Segment {
            number: self.next,
            end: self.next,
            len: 0,
            rest: 0,
        });
        Ok(())
    }

    /// Adds records to the newest file, and syncs. Afterwards the files have this next number, note
    /// this number and have this size.
    pub(crate) fn write(
        &mut self,
        bytes: &[u8],
        next: u64,
        done: u64,
        size: u64,
    ) -> Result<(), SpoolError>
        requires settled { D.is_known → IsSettled D.files D.moment D.left_at self.old }
        requires is_open { IsSome self.old.growing }
        requires grows { D.is_known → Grows (D.files self.old.device) bytes.now next done size }
        ensures settled { OnOk result (D.is_known
            → IsSettled D.files D.moment D.left_at self.new) }
        ensures is_open { OnOk result (IsSome self.new.growing) }
        ensures growing { OnOk result (self.new.growing
            ≡ grown_by next (length bytes.now) self.old.growing) }
        ensures next { OnOk result (self.new.next ≡ next) }
        ensures done { OnOk result (self.new.done ≡ done) }
        ensures written { OnOk result (D.is_known
            → D.files self.new.device ≡ grow_last bytes.now (D.files self.old.device)) }
        ensures limit { self.new.limit ≡ self.old.limit }
        ensures crash { D.is_known → LeavesOnly D.moment D.left_at self.old.device self.new.device
            (Appended bytes.now (D.files self.old.device)) }
        ensures full { IsErrOf result SpoolError.Full → ⊥ }
    {
        append_synced(&mut self.device, bytes)?;
        self.growing = grown_segment(self.growing, next, bytes.len() as u64);
        self.next = next;
        self.done = done;
        self.size = size;
        Ok(())
    }
}
