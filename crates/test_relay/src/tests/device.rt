//! A device in memory that keeps nothing of what was there before, so that it may be large. It
//! fails once it has done so many calls, or changes its first file.
ghost use Rattle.std.specs.Prelude.{◌≡◌, ◌<◌, ◌^◌, [], All, IfOk};

use spool::{Device, DeviceError, MemoryFile};
use std::alloc::{AllocError, Global};

/// What happens to the bytes of a file.
#[derive(Clone, Copy, Debug)]
pub(crate) enum Change {
    /// Nothing.
    Nothing,
    /// The lowest bit of a byte is flipped.
    FlipsBit(usize),
    /// The last byte is gone.
    CutsByte,
    /// A byte is added at the end.
    AddsByte,
}

/// The device. The change of its first file happens as it is synced, which is the last call of an
/// opening.
#[derive(Drop)]
pub(crate) struct TestDevice {
    alloc: Global,
    files: Vec<MemoryFile>,
    calls_left: u64,
    change: Change,
    /// How often it was synced.
    pub(crate) syncs: u64,
}

impl TestDevice {
    /// A device with these files, which does so many calls.
    pub(crate) fn new(alloc: Global, files: Vec<MemoryFile>, calls: u64) -> TestDevice {
        TestDevice {
            alloc,
            files,
            calls_left: calls,
            change: Change::Nothing,
            syncs: 0,
        }
    }

    /// A device with these files, the first of which changes so.
    pub(crate) fn changing(alloc: Global, files: Vec<MemoryFile>, change: Change) -> TestDevice {
        TestDevice {
            alloc,
            files,
            calls_left: u64::MAX,
            change,
            syncs: 0,
        }
    }

    /// The files, as a crash would leave them.
    pub(crate) fn into_files(self) -> Vec<MemoryFile> {
        let TestDevice {
            alloc: _,
            files,
            calls_left: _,
            change: _,
            syncs: _,
        } = self;
        files
    }

    /// Counts a call, unless none is left.
    fn begin(&mut self) -> Result<(), DeviceError> {
        if self.calls_left == 0 {
            return Err(DeviceError::Failed);
        }
        self.calls_left -= 1;
        Ok(())
    }
}

/// Changes bytes.
fn apply(change: Change, bytes: &mut Vec<u8>) -> Result<(), AllocError> {
    match change {
        Change::Nothing => {}
        Change::FlipsBit(index) => {
            if let Some(byte) = bytes.get_mut(index) {
                *byte ^= 1;
            }
        }
        Change::CutsByte => {
            let _last = bytes.pop();
        }
        Change::AddsByte => bytes.push(0)?,
    }
    Ok(())
}

/// Adds bytes to the last file.
fn grow(files: &mut Vec<MemoryFile>, bytes: &[u8]) -> Result<(), DeviceError> {
    let Some(last) = files.last_mut() else {
        return Err(DeviceError::Failed);
    };
    last.bytes.extend_from_slice(bytes)?;
    Ok(())
}

/// The number of each file, if it is below 2^63.
fn numbers_of(alloc: Global, files: &[MemoryFile]) -> Result<Vec<u64>, DeviceError>
    ensures { IfOk result (λ v. All (λ number. number < 2 ^ 63) v.items) }
{
    let mut numbers = Vec::new(alloc);
    for file in files {
        if file.number >= 1 << 63 {
            return Err(DeviceError::Failed);
        }
        numbers.push(file.number)?;
    }
    Ok(numbers)
}

impl Device for TestDevice {
    ghost is_known = { ⊥ };

    ghost files = { λ _. [] };

    ghost moment = { λ _. 0 };

    ghost left_at = { λ _ _ _. Unit {0} };

    fn numbers(&mut self, alloc: Global) -> Result<Vec<u64>, DeviceError> {
        self.begin()?;
        numbers_of(alloc, &self.files)
    }

    fn read(&mut self, alloc: Global, index: usize) -> Result<Vec<u8>, DeviceError> {
        self.begin()?;
        let Some(file) = self.files.get(index) else {
            return Err(DeviceError::Failed);
        };
        Ok(file.bytes.to_vec(alloc)?)
    }

    fn create(&mut self, number: u64) -> Result<(), DeviceError> {
        self.begin()?;
        self.files.push(MemoryFile {
            number,
            bytes: Vec::new(self.alloc),
        })?;
        Ok(())
    }

    fn append(&mut self, bytes: &[u8]) -> Result<(), DeviceError> {
        if let Err(error) = self.begin() {
            grow(&mut self.files, &bytes[..bytes.len() / 2])?;
            return Err(error);
        }
        grow(&mut self.files, bytes)
    }

    fn remove_first(&mut self) -> Result<(), DeviceError> {
        self.begin()?;
        if self.files.is_empty() {
            return Err(DeviceError::Failed);
        }
        let _first = self.files.remove(0);
        Ok(())
    }

    fn sync(&mut self) -> Result<(), DeviceError> {
        self.syncs = self.syncs.saturating_add(1);
        self.begin()?;
        if let Some(first) = self.files.first_mut() {
            apply(self.change, &mut first.bytes)?;
        }
        Ok(())
    }
}
