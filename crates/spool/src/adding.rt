//! Adding records of bodies, and notes, to the newest file.
ghost use Rattle.std.specs.Prelude.{◌≡◌, ◌⊎◌, ℕ, ◌+◌, ◌^◌, ◌<◌, ◌≤◌, List, map, IfOk, OnOk, IsErrOf};
ghost use Rattle.std.specs.Prelude.{◌++◌, IsSome};
ghost use Rattle.std.specs.List.{enumerate_from};
ghost use Rattle.spool.specs.Disks.{disk_size};
ghost use Rattle.spool.specs.Crashes.{LeavesOnly};
ghost use Rattle.spool.specs.Records.{note_size};
ghost use Rattle.spool.specs.Spools.{waiting, next_number, reserved, numbered_from};
ghost use Rattle.spool.specs.Spools.{LeftByNote};
ghost use Rattle.spool.specs.Settled.{IsSettled, IsNoted, IsPut, IsNote, LeftByAdding};

use crate::records::note_record;
use crate::state::Spool;
use crate::{Device, SpoolError};
use std::alloc::Global;

impl<D: Device> Spool<D> {
    /// Adds the records of bodies to the newest file, or to a new one, and syncs.
    pub(crate) fn add_bodies(
        &mut self,
        bytes: &[u8],
        next: u64,
        size: u64,
    ) -> Result<(), SpoolError>
        requires settled { D.is_known → IsSettled D.files D.moment D.left_at self.old }
        requires is { D.is_known → (bodies : List (List ℕ))
            × IsPut (D.files self.old.device) bodies bytes.now next size self.old.limit }
        ensures settled { OnOk result (D.is_known
            → IsSettled D.files D.moment D.left_at self.new) }
        ensures waiting { OnOk result (D.is_known → (bodies : List (List ℕ))
            → IsPut (D.files self.old.device) bodies bytes.now next size self.old.limit
            → waiting (D.files self.new.device)
            ≡ waiting (D.files self.old.device) ++ enumerate_from self.old.next bodies) }
        ensures next { OnOk result (self.new.next ≡ next) }
        ensures bound { OnOk result (D.is_known
            → reserved (D.files self.new.device) ≤ self.new.limit) }
        ensures limit { self.new.limit ≡ self.old.limit }
        ensures crash { D.is_known → (bodies : List (List ℕ))
            → IsPut (D.files self.old.device) bodies bytes.now next size self.old.limit
            → LeavesOnly D.moment D.left_at self.old.device self.new.device
            (LeftByAdding (D.files self.old.device) bodies self.old.limit) }
        ensures full { IsErrOf result SpoolError.Full → 2 ^ 63 ≤ self.old.next }
    {
        self.make_open(bytes.len() as u64)?;
        self.write(bytes, next, self.done, size)?;
        Ok(())
    }

    /// The record of a note that all bodies below this number were delivered, and the size that the
    /// files have with it.
    ///
    /// # Errors
    ///
    /// `Full`: the files would have 2^64 bytes. `Memory`.
    pub(crate) fn delivered_record(
        &self,
        alloc: Global,
        number: u64,
    ) -> Result<(Vec<u8>, u64), SpoolError>
        requires later { self.now.done < number }
        requires there { number ≤ self.now.next }
        requires settled { D.is_known → IsSettled D.files D.moment D.left_at self.now }
        ensures is { IfOk result (λ x. D.is_known
            → IsNote (D.files self.now.device) number x.0.items x.1) }
        ensures full { IsErrOf result SpoolError.Full → D.is_known
            → 2 ^ 64 ≤ disk_size (D.files self.now.device) + note_size }
    {
        let bytes = note_record(alloc, &self.table, number)?;
        match self.size.checked_add(bytes.len() as u64) {
            Some(size) => Ok((bytes, size)),
            None => Err(SpoolError::Full),
        }
    }

    /// Adds a note to the newest file, or to a new one, and syncs.
    pub(crate) fn add_note(
        &mut self,
        bytes: &[u8],
        number: u64,
        size: u64,
    ) -> Result<(), SpoolError>
        requires settled { D.is_known → IsSettled D.files D.moment D.left_at self.old }
        requires is { D.is_known → IsNote (D.files self.old.device) number bytes.now size }
        requires later { self.old.done < number }
        ensures settled { OnOk result (D.is_known
            → IsSettled D.files D.moment D.left_at self.new) }
        ensures is_open { OnOk result (IsSome self.new.growing) }
        ensures noted { OnOk result (D.is_known → IsNoted (D.files self.new.device)) }
        ensures waiting { OnOk result (D.is_known → waiting (D.files self.new.device)
            ≡ numbered_from number (waiting (D.files self.old.device))) }
        ensures next { OnOk result (D.is_known → self.new.next ≡ self.old.next) }
        ensures done { OnOk result (self.new.done ≡ number) }
        ensures sized { OnOk result (D.is_known → disk_size (D.files self.new.device)
            ≡ disk_size (D.files self.old.device) + note_size) }
        ensures limit { self.new.limit ≡ self.old.limit }
        ensures crash { D.is_known
            → LeavesOnly D.moment D.left_at self.old.device self.new.device
            (LeftByNote (D.files self.old.device) number) }
        ensures full { IsErrOf result SpoolError.Full → 2 ^ 63 ≤ self.old.next }
    {
        self.make_open(bytes.len() as u64)?;
        let next = self.next;
        self.write(bytes, next, number, size)?;
        Ok(())
    }
}
