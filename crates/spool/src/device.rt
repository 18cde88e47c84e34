//! What keeps the files of a spool.
ghost use Rattle.std.specs.Prelude.{◌≡◌, ℕ, ◌+◌, ◌^◌, ◌<◌, ◌≤◌, List, [], ◌∷◌, ◌++◌, length, drop};
ghost use Rattle.std.specs.Prelude.{All, Some, slice_get, IfOk, OnOk};
ghost use Rattle.spool.specs.Disks.{SpoolFile, new_file, grow_last, file_numbers};
ghost use Rattle.spool.specs.Crashes.{Created, Appended, Removed, After, Only, LeavesOnly};

use crate::DeviceError;
use std::alloc::Global;

/// A folder with the files of a spool, in the order in which they were made. Each has a number, and
/// none is below that of an older file. Files are made at the end, grow at the end, and are removed
/// from the front.
///
/// The clauses say what a folder does that is to be trusted with a spool. No contract can say that
/// of a real folder: there `is_known` is false, and the clauses are premises. The premises of a
/// crash are these: it leaves each file that was made, grew or was removed since the last sync as
/// it was before or after that, and of bytes that were added the first ones, none, some or all.
/// What was synced is left. No other program changes the files.
///
/// After a call has failed, what a read returns is not known: open the folder again.
pub trait Device {
    /// Whether the clauses below say something of these devices.
    ghost is_known: { Type 0 };

    /// The files that a read returns.
    ghost files: { Self → List SpoolFile };

    /// The number of this moment. Each call takes some moments.
    ghost moment: { Self → ℕ };

    /// What a crash at this moment may leave, or might have left at an earlier one.
    ghost left_at: { Self → ℕ → List SpoolFile → Type 0 };

    /// The numbers of the files, the oldest first, each below 2^63.
    ///
    /// # Errors
    ///
    /// `Memory`, `Failed`.
    fn numbers(&mut self, alloc: Global) -> Result<Vec<u64>, DeviceError>
        ensures numbers { IfOk result (λ v. is_known
            → v.items ≡ file_numbers (files self.old)) }
        ensures small { IfOk result (λ v. All (λ number. number < 2 ^ 63) v.items) }
        ensures same { is_known → files self.new ≡ files self.old }
        ensures crash { is_known → LeavesOnly moment left_at self.old self.new
            (left_at self.old (moment self.old)) };

    /// The bytes of the file with this index, counted from 0 for the oldest.
    ///
    /// # Errors
    ///
    /// `Memory`; `Failed`, also where there is no such file.
    fn read(&mut self, alloc: Global, index: usize) -> Result<Vec<u8>, DeviceError>
        ensures bytes { IfOk result (λ v. is_known → (file : SpoolFile)
            → slice_get (files self.old) index ≡ Some file → v.items ≡ file.bytes) }
        ensures same { is_known → files self.new ≡ files self.old }
        ensures crash { is_known → LeavesOnly moment left_at self.old self.new
            (left_at self.old (moment self.old)) };

    /// Makes a file without bytes, the newest one. Its number is not below that of any other.
    ///
    /// # Errors
    ///
    /// `Memory`, `Failed`: the file may be there or not.
    fn create(&mut self, number: u64) -> Result<(), DeviceError>
        requires small { number < 2 ^ 63 }
        requires newest { is_known → (front : List SpoolFile) (last : SpoolFile)
            → files self.old ≡ front ++ last ∷ [] → last.number ≤ number }
        ensures made { OnOk result (is_known
            → files self.new ≡ files self.old ++ new_file number ∷ []) }
        ensures crash { is_known → LeavesOnly moment left_at self.old self.new
            (After (Created number) (left_at self.old (moment self.old))) };

    /// Adds bytes at the end of the newest file.
    ///
    /// # Errors
    ///
    /// `Memory`; `Failed`, also where there is no file: some of the bytes may be there.
    fn append(&mut self, bytes: &[u8]) -> Result<(), DeviceError>
        ensures written { OnOk result (is_known
            → files self.new ≡ grow_last bytes.now (files self.old)) }
        ensures crash { is_known → LeavesOnly moment left_at self.old self.new
            (After (Appended bytes.now) (left_at self.old (moment self.old))) };

    /// Removes the oldest file.
    ///
    /// # Errors
    ///
    /// `Memory`; `Failed`, also where there is no file: the file may be there or not.
    fn remove_first(&mut self) -> Result<(), DeviceError>
        ensures removed { OnOk result (is_known → files self.new ≡ drop 1 (files self.old)) }
        ensures crash { is_known → LeavesOnly moment left_at self.old self.new
            (After Removed (left_at self.old (moment self.old))) };

    /// After it a crash leaves what a read returns.
    ///
    /// # Errors
    ///
    /// `Memory`, `Failed`: what was not on the disk before may be there or not.
    fn sync(&mut self) -> Result<(), DeviceError>
        ensures durable { OnOk result (is_known
            → Only (files self.old) (left_at self.new (moment self.new))) }
        ensures same { is_known → files self.new ≡ files self.old }
        ensures crash { is_known → LeavesOnly moment left_at self.old self.new
            (left_at self.old (moment self.old)) };
}
