//! Removing files whose bodies are all delivered.
ghost use Rattle.std.specs.Prelude.{◌≡◌, ℕ, ◌+◌, ◌<◌, ◌≤◌, true, false, OnOk, IsErrOf};
ghost use Rattle.spool.specs.Crashes.{LeavesOnly};
ghost use Rattle.spool.specs.Spools.{done_to, next_number};
ghost use Rattle.spool.specs.Settled.{IsSettled, IsNoted, IsNoLarger, FirstIsDone, FirstIsLeft};
ghost use Rattle.std.specs.Prelude.{IsSome, vec_len};

use crate::state::{Segment, Spool};
use crate::synced::remove_synced;
use crate::{Device, SpoolError};

/// Whether all bodies of the first segment are noted as delivered.
fn first_is_done(older: &[Segment], done: u64) -> bool
    ensures done { result ≡ true → FirstIsDone older.now done }
    ensures left { result ≡ false → FirstIsLeft older.now done }
{
    match older.first() {
        Some(first) => first.end <= done,
        None => false,
    }
}

impl<D: Device> Spool<D> {
    /// Removes the oldest file, all of whose bodies are noted as delivered, by the newest file.
    fn remove_first(&mut self) -> Result<(), SpoolError>
        requires first { FirstIsDone self.old.older.items self.old.done }
        requires is_open { IsSome self.old.growing }
        requires settled { D.is_known → IsSettled D.files D.moment D.left_at self.old }
        requires noted { D.is_known → IsNoted (D.files self.old.device) }
        ensures settled { OnOk result (D.is_known
            → IsSettled D.files D.moment D.left_at self.new) }
        ensures noted { OnOk result (D.is_known → IsNoted (D.files self.new.device)) }
        ensures done { OnOk result (self.new.done ≡ self.old.done) }
        ensures next { OnOk result (self.new.next ≡ self.old.next) }
        ensures is_open { OnOk result (IsSome self.new.growing) }
        ensures growing { self.new.growing ≡ self.old.growing }
        ensures fewer { vec_len self.new.older + 1 ≡ vec_len self.old.older }
        ensures limit { self.new.limit ≡ self.old.limit }
        ensures same { OnOk result (D.is_known
            → IsNoLarger (D.files self.old.device) (D.files self.new.device)) }
        ensures crash { D.is_known → LeavesOnly D.moment D.left_at self.old.device self.new.device
            (IsNoLarger (D.files self.old.device)) }
        ensures full { IsErrOf result SpoolError.Full → ⊥ }
    {
        let first = self.older.remove(0);
        self.size = self.size.saturating_sub(first.len);
        remove_synced(&mut self.device)?;
        Ok(())
    }

    /// Removes the oldest files, as long as all of their bodies are noted as delivered, by the
    /// newest file.
    pub(crate) fn remove_done(&mut self) -> Result<(), SpoolError>
        requires is_open { IsSome self.old.growing }
        requires settled { D.is_known → IsSettled D.files D.moment D.left_at self.old }
        requires noted { D.is_known → IsNoted (D.files self.old.device) }
        ensures settled { OnOk result (D.is_known
            → IsSettled D.files D.moment D.left_at self.new) }
        ensures done { OnOk result (self.new.done ≡ self.old.done) }
        ensures next { OnOk result (self.new.next ≡ self.old.next) }
        ensures growing { self.new.growing ≡ self.old.growing }
        ensures left { OnOk result (FirstIsLeft self.new.older.items self.new.done) }
        ensures limit { self.new.limit ≡ self.old.limit }
        ensures same { OnOk result (D.is_known
            → IsNoLarger (D.files self.old.device) (D.files self.new.device)) }
        ensures crash { D.is_known → LeavesOnly D.moment D.left_at self.old.device self.new.device
            (IsNoLarger (D.files self.old.device)) }
        ensures full { IsErrOf result SpoolError.Full → ⊥ }
    {
        while first_is_done(&self.older, self.done) {
            self.remove_first()?;
        }
        Ok(())
    }
}
