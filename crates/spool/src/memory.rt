//! A device in memory, for tests: it fails after so many calls, and then a read returns what a
//! crash would have left.
ghost use Rattle.std.specs.Prelude.{◌≡◌, ◌++◌, [], ◌∷◌, length, OnOk, OnErr, IfOk, map, All, ◌<◌, ◌^◌};
ghost use Rattle.spool.specs.Memory.{files_view, past_view, was_left};
ghost use Rattle.spool.specs.Disks.{SpoolFile, grow_last, file_numbers};

use crate::{Device, DeviceError};
use std::alloc::{AllocError, Global};

/// A file in memory.
#[derive(Drop)]
pub struct MemoryFile {
    /// Its number.
    pub number: u64,
    /// Its bytes.
    pub bytes: Vec<u8>,
}

/// Files in memory, the oldest first. What was there at each earlier moment is kept, so this is for
/// tests alone. Each call but the ones that read is done at once, so a crash leaves what is there.
#[derive(Drop)]
pub struct MemoryDevice {
    alloc: Global,
    files: Vec<MemoryFile>,
    past: Vec<Vec<MemoryFile>>,
    calls_left: u64,
}

/// A copy of files.
fn copy(alloc: Global, files: &[MemoryFile]) -> Result<Vec<MemoryFile>, AllocError>
    ensures { IfOk result (λ v. files_view v.items ≡ files_view files.now) }
{
    let mut copied = Vec::new(alloc);
    for file in files {
        copied.push(MemoryFile {
            number: file.number,
            bytes: file.bytes.to_vec(alloc)?,
        })?;
    }
    Ok(copied)
}

impl MemoryDevice {
    /// A device with these files, whose numbers rise. It fails once it has done so many calls that
    /// write, remove or sync.
    pub fn new(alloc: Global, files: Vec<MemoryFile>, calls: u64) -> MemoryDevice {
        MemoryDevice {
            alloc,
            files,
            past: Vec::new(alloc),
            calls_left: calls,
        }
    }

    /// The files, as a crash would leave them.
    pub fn into_files(self) -> Vec<MemoryFile> {
        let MemoryDevice {
            alloc: _,
            files,
            past: _,
            calls_left: _,
        } = self;
        files
    }
}

/// Keeps what is there as what was there, and counts a call.
fn begin(
    alloc: Global,
    files: &[MemoryFile],
    past: &mut Vec<Vec<MemoryFile>>,
) -> Result<(), AllocError>
    ensures ok { OnOk result (past_view past.new.items
        ≡ past_view past.old.items ++ files_view files.now ∷ []) }
    ensures err { OnErr result (past.new.items ≡ past.old.items) }
{
    past.push(copy(alloc, files)?)?;
    Ok(())
}

/// Whether one more call is left, and counts it.
fn is_left(calls_left: &mut u64) -> bool {
    if *calls_left == 0 {
        return false;
    }
    *calls_left -= 1;
    true
}

/// Adds bytes to the last file, if there is one.
fn grow(files: &mut Vec<MemoryFile>, bytes: &[u8]) -> Result<(), DeviceError>
    ensures ok { OnOk result (files_view files.new.items
        ≡ grow_last bytes.now (files_view files.old.items)) }
    ensures err { OnErr result (files_view files.new.items ≡ files_view files.old.items) }
{
    let Some(mut last) = files.pop() else {
        return Err(DeviceError::Failed);
    };
    let grown = last.bytes.extend_from_slice(bytes);
    files.push(last)?;
    grown?;
    Ok(())
}

/// The number of each file, if it is below 2^63.
fn numbers_of(alloc: Global, files: &[MemoryFile]) -> Result<Vec<u64>, DeviceError>
    ensures numbers { IfOk result (λ v. v.items ≡ file_numbers (files_view files.now)) }
    ensures small { IfOk result (λ v. All (λ number. number < 2 ^ 63) v.items) }
{
    let mut numbers = Vec::new(alloc);
    for file in files {
        if file.number >= 1 << 63 {
            return Err(DeviceError::Failed);
        }
        numbers.push(file.number)?;
    }
    Ok(numbers)
}

impl Device for MemoryDevice {
    ghost is_known = { Unit {0} };

    ghost files = { λ device. files_view device.files.items };

    ghost moment = { λ device. length device.past.items };

    ghost left_at = { was_left };

    fn numbers(&mut self, alloc: Global) -> Result<Vec<u64>, DeviceError> {
        numbers_of(alloc, &self.files)
    }

    fn read(&mut self, alloc: Global, index: usize) -> Result<Vec<u8>, DeviceError> {
        let Some(file) = self.files.get(index) else {
            return Err(DeviceError::Failed);
        };
        Ok(file.bytes.to_vec(alloc)?)
    }

    fn create(&mut self, number: u64) -> Result<(), DeviceError> {
        begin(self.alloc, &self.files, &mut self.past)?;
        if !is_left(&mut self.calls_left) {
            return Err(DeviceError::Failed);
        }
        self.files.push(MemoryFile {
            number,
            bytes: Vec::new(self.alloc),
        })?;
        Ok(())
    }

    fn append(&mut self, bytes: &[u8]) -> Result<(), DeviceError> {
        begin(self.alloc, &self.files, &mut self.past)?;
        if !is_left(&mut self.calls_left) {
            grow(&mut self.files, &bytes[..bytes.len() / 2])?;
            return Err(DeviceError::Failed);
        }
        grow(&mut self.files, bytes)?;
        Ok(())
    }

    fn remove_first(&mut self) -> Result<(), DeviceError> {
        begin(self.alloc, &self.files, &mut self.past)?;
        if !is_left(&mut self.calls_left) || self.files.is_empty() {
            return Err(DeviceError::Failed);
        }
        let _first = self.files.remove(0);
        Ok(())
    }

    fn sync(&mut self) -> Result<(), DeviceError> {
        if !is_left(&mut self.calls_left) {
            return Err(DeviceError::Failed);
        }
        Ok(())
    }
}
