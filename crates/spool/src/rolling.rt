//! Room for bodies. Where there is none and no body waits, the files are rolled over: from files with
//! bodies that were delivered to one with a note alone.
ghost use Rattle.std.specs.Prelude.{◌≡◌, ◌⊎◌, ◌↔◌, ℕ, ◌+◌, ◌-◌, ◌*◌, ◌^◌, ◌<◌, ◌≤◌, List, [], ◌∷◌, ◌++◌, length};
ghost use Rattle.std.specs.Prelude.{All, true, min, Some, IfOk, OnOk, IsErrOf};
ghost use Rattle.std.specs.Option.{option_to_list};
ghost use Rattle.spool.specs.Disks.{disk_size};
ghost use Rattle.spool.specs.Crashes.{LeavesOnly};
ghost use Rattle.spool.specs.Records.{note_size, record_bytes, body_content};
ghost use Rattle.spool.specs.Spools.{done_to, next_number, waiting};
ghost use Rattle.spool.specs.Settled.{IsSettled, IsRolled, IsRoom, IsEnded};

use crate::records::note_record;
use crate::state::{NOTE_SIZE, Segment, Spool, room_for};
use crate::{Device, SpoolError};
use std::alloc::Global;

/// How many bytes a body takes beside its own where no other waits: those of its record, 9, of its
/// note, and of the note that no other waits.
const BODY_OVERHEAD: u64 = 9 + 2 * NOTE_SIZE;

/// How many bytes a body has at most which a spool with this limit takes whenever no other waits. A
/// larger one is never taken.
pub fn max_body(limit: u64) -> u64
    ensures most { result ≡ min (limit - 43) (2 ^ 32 - 2) }
    ensures fits { (body : List ℕ) → 43 ≤ limit → length body ≤ result
        → note_size + length (record_bytes (body_content body)) + note_size ≤ limit }
{
    limit.saturating_sub(BODY_OVERHEAD).min(u32::MAX as u64 - 1)
}

/// Whether no body of a file waits, where those with lower numbers were delivered.
fn is_ended(segment: Segment, done: u64) -> bool
    ensures { (result ≡ true) ↔ IsEnded done segment }
{
    let torn: u128 = if segment.rest == 0 { 0 } else { 1 };
    u128::from(segment.end) <= u128::from(done.max(segment.number)) + torn
}

/// Whether no body of the file that can grow waits, if there is one.
fn is_newest_ended(growing: Option<Segment>, done: u64) -> bool
    ensures { (result ≡ true) ↔ ((segment : Segment) → growing ≡ Some segment
        → IsEnded done segment) }
{
    match growing {
        Some(segment) => is_ended(segment, done),
        None => true,
    }
}

/// Whether no body of these files waits.
fn are_ended(segments: &[Segment], done: u64) -> bool
    ensures { (result ≡ true) ↔ All (IsEnded done) segments.now }
{
    for segment in segments {
        if !is_ended(*segment, done) {
            return false;
        }
    }
    true
}

impl<D: Device> Spool<D> {
    /// Whether no body waits.
    fn is_idle(&self) -> bool
        ensures { D.is_known → IsSettled D.files D.moment D.left_at self.now
            → (result ≡ true) ↔ (waiting (D.files self.now.device) ≡ []) }
    {
        if !is_newest_ended(self.growing, self.done) {
            return false;
        }
        are_ended(&self.older, self.done)
    }

    /// Notes in a new file that all bodies were delivered, and removes all other files, where no
    /// body waits.
    fn roll_over(&mut self, alloc: Global) -> Result<(), SpoolError>
        requires settled { D.is_known → IsSettled D.files D.moment D.left_at self.old }
        requires idle { D.is_known → waiting (D.files self.old.device) ≡ [] }
        requires small { self.old.next < 2 ^ 63 }
        ensures settled { OnOk result (D.is_known
            → IsSettled D.files D.moment D.left_at self.new) }
        ensures idle { OnOk result (D.is_known → waiting (D.files self.new.device) ≡ []) }
        ensures next { OnOk result (self.new.next ≡ self.old.next) }
        ensures done { OnOk result (self.new.done ≡ self.old.next) }
        ensures size { OnOk result (D.is_known → disk_size (D.files self.new.device) ≡ note_size) }
        ensures limit { self.new.limit ≡ self.old.limit }
        ensures crash { D.is_known → LeavesOnly D.moment D.left_at self.old.device self.new.device
            (IsRolled (D.files self.old.device)) }
        ensures full { IsErrOf result SpoolError.Full → ⊥ }
    {
        let next = self.next;
        let bytes = note_record(alloc, &self.table, next)?;
        let Some(size) = self.size.checked_add(NOTE_SIZE) else {
            return Err(SpoolError::Failed);
        };
        self.make_file()?;
        self.write(&bytes, next, next, size)?;
        self.remove_done()?;
        Ok(())
    }

    /// The size and the next number that the files get with so many bytes of so many bodies. Where
    /// there is no room for them, and no body waits, the files are rolled over first, if there is
    /// room then.
    ///
    /// # Errors
    ///
    /// `Full`: there is no room. `Memory`, `Failed`.
    pub(crate) fn take_room(
        &mut self,
        alloc: Global,
        len: u64,
        count: u64,
    ) -> Result<(u64, u64), SpoolError>
        requires { D.is_known → IsSettled D.files D.moment D.left_at self.old }
        ensures settled { OnOk result (D.is_known
            → IsSettled D.files D.moment D.left_at self.new) }
        ensures room { IfOk result (λ x. D.is_known
            → IsRoom (D.files self.new.device) len count x.0 x.1 self.new.limit) }
        ensures waiting { OnOk result (D.is_known
            → waiting (D.files self.new.device) ≡ waiting (D.files self.old.device)) }
        ensures next { OnOk result (self.new.next ≡ self.old.next) }
        ensures small { OnOk result (self.old.next < 2 ^ 63) }
        ensures limit { self.new.limit ≡ self.old.limit }
        ensures refused { IsErrOf result SpoolError.Full → self.new ≡ self.old }
        ensures full { IsErrOf result SpoolError.Full → D.is_known
            → (self.old.limit < disk_size (D.files self.old.device) + len
            + note_size * (next_number (D.files self.old.device) + count
            - done_to (D.files self.old.device)))
            ⊎ (2 ^ 63 ≤ next_number (D.files self.old.device) + count) }
        ensures idle { IsErrOf result SpoolError.Full → D.is_known
            → waiting (D.files self.old.device) ≡ []
            → (self.old.limit < note_size + len + note_size * count)
            ⊎ (2 ^ 63 ≤ next_number (D.files self.old.device) + count) }
        ensures crash { D.is_known → LeavesOnly D.moment D.left_at self.old.device self.new.device
            (IsRolled (D.files self.old.device)) }
    {
        let (limit, next) = (self.limit, self.next);
        if let Some(grown) = room_for(limit, self.size, next, self.done, len, count) {
            return Ok(grown);
        }
        let Some(grown) = room_for(limit, NOTE_SIZE, next, next, len, count) else {
            return Err(SpoolError::Full);
        };
        if !self.is_idle() {
            return Err(SpoolError::Full);
        }
        self.roll_over(alloc)?;
        Ok(grown)
    }
}
