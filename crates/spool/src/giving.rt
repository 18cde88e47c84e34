//! Giving the bodies that wait, and what a spool says of itself.
ghost use Rattle.std.specs.Prelude.{◌≡◌, ℕ, ◌+◌, ◌≤◌, List, [], ◌∷◌, ◌++◌, length, map, max, Some, slice_get, IfOk};
ghost use Rattle.std.specs.Prelude.{◌↔◌, ◌≢◌, ◌⊎◌, ◌^◌, true, if◌then◌else◌, ◌==◌, OnOk, IsErrOf};
ghost use Rattle.std.specs.Option.{option_to_list};
ghost use Rattle.spool.specs.Disks.{SpoolFile, disk_size};
ghost use Rattle.spool.specs.Crashes.{LeavesOnly};
ghost use Rattle.spool.specs.Records.{contents, bodies, numbered};
ghost use Rattle.spool.specs.Spools.{done_to, next_number, numbered_from, waiting_in};
ghost use Rattle.spool.specs.Settled.{IsSettled, device_of, limit_of, segment_of, waiting_view};

use crate::records::{WaitingBody, bodies_from, torn_count};
use crate::state::{Segment, Spool};
use crate::{Device, SpoolError};
use gzip::CrcTable;
use std::alloc::Global;

/// What is kept of a file, by its index.
fn segment_at(older: &[Segment], growing: Option<Segment>, index: usize) -> Option<Segment>
    ensures { result ≡ slice_get (older.now ++ option_to_list growing) index }
{
    if index < older.len() {
        return Some(older[index]);
    }
    if index == older.len() { growing } else { None }
}

/// Whether this is what is kept of a file with these bodies and bytes that are not read.
fn is_same(segment: Segment, len: u64, count: u64, rest: u64) -> bool
    ensures { (result ≡ true) ↔ (segment ≡ record {
      number = segment.number;
      «end» = segment.number + count + (if rest == 0 then 0 else 1);
      len = len;
      rest = rest;
    }) }
{
    let end = u128::from(segment.number) + u128::from(count) + u128::from(torn_count(rest));
    u128::from(segment.end) == end && segment.len == len && segment.rest == rest
}

/// The bodies of a file that have a number from this on, if its bytes are as it is known.
///
/// # Errors
///
/// `Memory`; `Failed` if they are not, or there are 2^64 numbers.
fn known_bodies(
    alloc: Global,
    table: &CrcTable<Global>,
    bytes: &[u8],
    segment: Segment,
    from: u64,
) -> Result<Vec<WaitingBody>, SpoolError>
    ensures bodies { IfOk result (λ v. waiting_view v.items
        ≡ numbered_from from (numbered segment.number (bodies (contents bytes.now)))) }
    ensures known { OnOk result (segment ≡ segment_of (record {
      number = segment.number;
      bytes = bytes.now;
    })) }
    ensures failed { IsErrOf result SpoolError.Failed
        → (segment ≢ segment_of (record { number = segment.number; bytes = bytes.now }))
        ⊎ (2 ^ 64 ≤ segment.number + length bytes.now) }
{
    let len = bytes.len() as u64;
    if segment.number.checked_add(len).is_none() {
        return Err(SpoolError::Failed);
    }
    let found = bodies_from(alloc, table, bytes, segment.number, from)?;
    if !is_same(segment, len, found.records.bodies, found.records.rest) {
        return Err(SpoolError::Failed);
    }
    Ok(found.bodies)
}

impl<D: Device> Spool<D> {
    /// How many files there are.
    pub fn file_count(&self) -> usize
        ensures { D.is_known → IsSettled D.files D.moment D.left_at self.now
            → result ≡ length (D.files (device_of self.now)) }
    {
        self.older.len() + self.growing.iter().count()
    }

    /// The bodies of a file that wait and have this number or a higher one, by the file's index,
    /// counted from 0 for the oldest, in the order of their numbers. Those of all files, in order,
    /// are all such bodies. A body whose record is damaged isn't given, and its number is left out.
    /// One file is read at a time, and nothing is changed.
    ///
    /// # Errors
    ///
    /// `Memory`; `Failed`, also where there is no such file, and where the file isn't as it was
    /// written, since a bit was flipped or bytes are gone: open the spool again, which counts what
    /// is damaged. The spool is as it was.
    pub fn bodies(
        &mut self,
        alloc: Global,
        index: usize,
        from: u64,
    ) -> Result<Vec<WaitingBody>, SpoolError>
        requires { D.is_known → IsSettled D.files D.moment D.left_at self.old }
        ensures settled { D.is_known → IsSettled D.files D.moment D.left_at self.new }
        ensures bodies { IfOk result (λ found. D.is_known → (file : SpoolFile)
            → slice_get (D.files (device_of self.old)) index ≡ Some file
            → waiting_view found.items
            ≡ waiting_in (max (done_to (D.files (device_of self.old))) from) file) }
        ensures same { D.is_known
            → D.files (device_of self.new) ≡ D.files (device_of self.old) }
        ensures limit { limit_of self.new ≡ limit_of self.old }
        ensures crash { D.is_known
            → LeavesOnly D.moment D.left_at (device_of self.old) (device_of self.new)
            (D.left_at (device_of self.old) (D.moment (device_of self.old))) }
    {
        let Some(segment) = segment_at(&self.older, self.growing, index) else {
            return Err(SpoolError::Failed);
        };
        let bytes = self.device.read(alloc, index)?;
        let start = self.done.max(from);
        let bodies = known_bodies(alloc, &self.table, &bytes, segment, start)?;
        Ok(bodies)
    }

    /// The number that the next body gets.
    pub fn next_number(&self) -> u64
        ensures { D.is_known → IsSettled D.files D.moment D.left_at self.now
            → result ≡ next_number (D.files (device_of self.now)) }
    {
        self.next
    }

    /// How many bytes the files have together.
    pub fn size(&self) -> u64
        ensures { D.is_known → IsSettled D.files D.moment D.left_at self.now
            → result ≡ disk_size (D.files (device_of self.now)) }
    {
        self.size
    }

    /// How many bytes the files may have together.
    pub fn limit(&self) -> u64
        ensures { result ≡ limit_of self.now }
    {
        self.limit
    }
}
