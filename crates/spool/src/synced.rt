//! Calls of a device, each with the sync after it.
ghost use Rattle.std.specs.Prelude.{◌≡◌, ℕ, ◌^◌, ◌<◌, ◌≤◌, List, [], ◌∷◌, ◌++◌, drop, OnOk, IsErrOf};
ghost use Rattle.spool.specs.Disks.{SpoolFile, new_file, grow_last};
ghost use Rattle.spool.specs.Crashes.{Created, Appended, Removed, Only, LeavesOnly};

use crate::{Device, SpoolError};

/// Makes a file, and syncs.
pub(crate) fn create_synced<D: Device>(device: &mut D, number: u64) -> Result<(), SpoolError>
    requires small { number < 2 ^ 63 }
    requires newest { D.is_known → (front : List SpoolFile) (last : SpoolFile)
        → D.files device.old ≡ front ++ last ∷ [] → last.number ≤ number }
    requires synced { D.is_known → Only (D.files device.old) (D.left_at device.old
        (D.moment device.old)) }
    ensures made { OnOk result (D.is_known
        → D.files device.new ≡ D.files device.old ++ new_file number ∷ []) }
    ensures synced { OnOk result (D.is_known
        → Only (D.files device.new) (D.left_at device.new (D.moment device.new))) }
    ensures crash { D.is_known → LeavesOnly D.moment D.left_at device.old device.new
        (Created number (D.files device.old)) }
    ensures full { IsErrOf result SpoolError.Full → ⊥ }
{
    device.create(number)?;
    device.sync()?;
    Ok(())
}

/// Adds bytes to the newest file, and syncs.
pub(crate) fn append_synced<D: Device>(device: &mut D, bytes: &[u8]) -> Result<(), SpoolError>
    requires { D.is_known → Only (D.files device.old) (D.left_at device.old
        (D.moment device.old)) }
    ensures written { OnOk result (D.is_known
        → D.files device.new ≡ grow_last bytes.now (D.files device.old)) }
    ensures synced { OnOk result (D.is_known
        → Only (D.files device.new) (D.left_at device.new (D.moment device.new))) }
    ensures crash { D.is_known → LeavesOnly D.moment D.left_at device.old device.new
        (Appended bytes.now (D.files device.old)) }
    ensures full { IsErrOf result SpoolError.Full → ⊥ }
{
    device.append(bytes)?;
    device.sync()?;
    Ok(())
}

/// Removes the oldest file, and syncs.
pub(crate) fn remove_synced<D: Device>(device: &mut D) -> Result<(), SpoolError>
    requires { D.is_known → Only (D.files device.old) (D.left_at device.old
        (D.moment device.old)) }
    ensures removed { OnOk result (D.is_known
        → D.files device.new ≡ drop 1 (D.files device.old)) }
    ensures synced { OnOk result (D.is_known
        → Only (D.files device.new) (D.left_at device.new (D.moment device.new))) }
    ensures crash { D.is_known → LeavesOnly D.moment D.left_at device.old device.new
        (Removed (D.files device.old)) }
    ensures full { IsErrOf result SpoolError.Full → ⊥ }
{
    device.remove_first()?;
    device.sync()?;
    Ok(())
}
