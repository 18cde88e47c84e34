//! The calls of a spool: putting bodies, and noting deliveries.
ghost use Rattle.std.specs.Prelude.{◌≡◌, ◌⊎◌, ℕ, ◌+◌, ◌-◌, ◌*◌, ◌^◌, ◌<◌, ◌≤◌, List, [], ◌∷◌, ◌++◌, length, map};
ghost use Rattle.std.specs.Prelude.{IfOk, OnOk, IsErrOf};
ghost use Rattle.std.specs.List.{enumerate_from};
ghost use Rattle.spool.specs.Disks.{disk_size};
ghost use Rattle.spool.specs.Crashes.{LeavesOnly};
ghost use Rattle.spool.specs.Records.{note_size};
ghost use Rattle.spool.specs.Spools.{waiting, next_number, reserved, numbered_from, LeftByPut, LeftByNote};
ghost use Rattle.spool.specs.Spools.{HasNoRoom, HasNeverRoom};
ghost use Rattle.spool.specs.Settled.{IsSettled, device_of, limit_of};

use crate::records::bodies_record;
use crate::state::Spool;
use crate::{Device, SpoolError};
use std::alloc::Global;

impl<D: Device> Spool<D> {
    /// Puts bodies, in this order, after those that wait, and syncs once. It answers the number of
    /// the first one; the others have those after it. From then on a crash at any moment leaves
    /// each of them until its delivery was noted. A crash before that leaves the first so many of
    /// them: none, some or all, each of them whole.
    ///
    /// # Errors
    ///
    /// `Full`: with these bodies, and notes of their deliveries, the files would pass the limit; or
    /// a body has 2^32 - 1 bytes or more, or there have been 2^63 bodies. Nothing has changed then.
    /// Where no body waits, one of up to [`max_body`](crate::max_body) bytes always has room: all
    /// files are removed for it, but for a new one that notes that no other waits.
    /// `Memory`, `Failed`: open the spool again, which has some of the bodies or none.
    pub fn put(&mut self, alloc: Global, bodies: &[Vec<u8>]) -> Result<u64, SpoolError>
        requires { D.is_known → IsSettled D.files D.moment D.left_at self.old }
        ensures settled { OnOk result (D.is_known
            → IsSettled D.files D.moment D.left_at self.new) }
        ensures waiting { IfOk result (λ first. D.is_known
            → waiting (D.files (device_of self.new)) ≡ waiting (D.files (device_of self.old))
            ++ enumerate_from first (map (λ body. body.items) bodies.now)) }
        ensures first { IfOk result (λ first. D.is_known
            → first ≡ next_number (D.files (device_of self.old))) }
        ensures next { OnOk result (D.is_known → next_number (D.files (device_of self.new))
            ≡ next_number (D.files (device_of self.old)) + length bodies.now) }
        ensures bound { OnOk result (D.is_known
            → reserved (D.files (device_of self.new)) ≤ limit_of self.new) }
        ensures limit { limit_of self.new ≡ limit_of self.old }
        ensures refused { IsErrOf result SpoolError.Full → self.new ≡ self.old }
        ensures full { IsErrOf result SpoolError.Full → D.is_known
            → HasNoRoom (D.files (device_of self.old)) (map (λ body. body.items) bodies.now)
            (limit_of self.old) }
        ensures never { IsErrOf result SpoolError.Full → D.is_known
            → waiting (D.files (device_of self.old)) ≡ []
            → HasNeverRoom (D.files (device_of self.old)) (map (λ body. body.items) bodies.now)
            (limit_of self.old) }
        ensures crash { D.is_known
            → LeavesOnly D.moment D.left_at (device_of self.old) (device_of self.new)
            (LeftByPut (D.files (device_of self.old)) (map (λ body. body.items) bodies.now)
            (limit_of self.old)) }
    {
        let bytes = bodies_record(alloc, &self.table, bodies)?;
        let (size, next) = self.take_room(alloc, bytes.len() as u64, bodies.len() as u64)?;
        let first = self.next;
        self.add_bodies(&bytes, next, size)?;
        Ok(first)
    }

    /// Notes that all bodies with a lower number were delivered, and syncs once. From then on no
    /// crash brings them back: they are not given again. A crash before may, so a body can be
    /// delivered twice. Files whose bodies are all delivered are removed.
    ///
    /// # Errors
    ///
    /// `Memory`, `Failed`; `Full` only if the files have 2^64 bytes, or there have been 2^63
    /// bodies. After an error open the spool again.
    pub fn note_delivered(&mut self, alloc: Global, number: u64) -> Result<(), SpoolError>
        requires { D.is_known → IsSettled D.files D.moment D.left_at self.old }
        ensures settled { OnOk result (D.is_known
            → IsSettled D.files D.moment D.left_at self.new) }
        ensures waiting { OnOk result (D.is_known → waiting (D.files (device_of self.new))
            ≡ numbered_from number (waiting (D.files (device_of self.old)))) }
        ensures next { OnOk result (D.is_known → next_number (D.files (device_of self.new))
            ≡ next_number (D.files (device_of self.old))) }
        ensures bound { OnOk result (D.is_known
            → reserved (D.files (device_of self.new))
            ≤ reserved (D.files (device_of self.old))) }
        ensures limit { limit_of self.new ≡ limit_of self.old }
        ensures full { IsErrOf result SpoolError.Full → D.is_known
            → (2 ^ 64 ≤ disk_size (D.files (device_of self.old)) + note_size)
            ⊎ (2 ^ 63 ≤ next_number (D.files (device_of self.old))) }
        ensures crash { D.is_known
            → LeavesOnly D.moment D.left_at (device_of self.old) (device_of self.new)
            (LeftByNote (D.files (device_of self.old)) number) }
    {
        let noted = number.min(self.next);
        if noted <= self.done {
            return Ok(());
        }
        let (bytes, size) = self.delivered_record(alloc, noted)?;
        self.add_note(&bytes, noted, size)?;
        self.remove_done()?;
        Ok(())
    }
}
