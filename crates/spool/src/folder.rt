//! A folder of files.
ghost use Rattle.std.specs.Prelude.{◌≡◌, ◌<◌, ◌^◌, [], All, IfOk};

use crate::file_name::FileName;
use crate::newest::Newest;
use crate::reserve::Reserve;
use crate::state::{MAX_NUMBER, NOTE_SIZE};
use crate::{Device, DeviceError};
use std::alloc::Global;
use std::fs::{self, DirBuilder, OpenOptions};
use std::io;
use std::os::unix::fs::{DirBuilderExt, OpenOptionsExt};

/// A folder with the files of a spool. It holds a lock on the file `lock` in the folder, so that no
/// other process opens the same spool, and keeps room for notes in the file `reserve`.
///
/// A file that a failed call left longer is cut back to what was synced of it. After a sync the
/// newest file is still in the folder, under its name, or the sync has failed.
#[derive(Drop)]
pub struct SpoolFolder {
    rt: HostRuntime,
    folder: String,
    names: Vec<FileName>,
    newest: Option<Newest>,
    reserve: Reserve,
    is_changed: bool,
    _lock: fs::File,
}

/// What an error of the system is to a spool.
pub(crate) fn failed(error: io::Error) -> DeviceError {
    if error.kind() == io::ErrorKind::OutOfMemory {
        DeviceError::Memory
    } else {
        DeviceError::Failed
    }
}

impl SpoolFolder {
    /// Opens a folder, which is made if it isn't there, and syncs it and what is in it. The folder
    /// above it has to be there. Files with other names than those of a spool are left alone. What
    /// it makes is for its owner alone (modes 0700 and 0600).
    ///
    /// # Errors
    ///
    /// `Failed`: the folder can't be made, read or written, or another process has it open, or what
    /// has the name of a file of a spool is no file. `Memory`.
    pub fn open(rt: &HostRuntime, folder: &str) -> Result<SpoolFolder, DeviceError> {
        make_folder(rt, folder)?;
        let lock = lock_of(rt, folder)?;
        let names = names_in(rt, folder)?;
        sync_files(rt, folder, &names)?;
        let reserve = Reserve::open(rt, folder)?;
        let opened = SpoolFolder {
            rt: rt.clone()?,
            folder: String::from_str(rt.alloc(), folder)?,
            names,
            newest: None,
            reserve,
            is_changed: true,
            _lock: lock,
        };
        opened.sync_folder()?;
        Ok(opened)
    }

    /// Adds bytes to the newest file. Where there is no room for a note, that which is kept for it
    /// is given up.
    fn write(&mut self, bytes: &[u8]) -> Result<(), DeviceError> {
        if self.newest.is_none() {
            let Some(name) = self.names.last() else {
                return Err(DeviceError::Failed);
            };
            self.newest = Some(Newest::open(&self.rt, self.folder.as_str(), *name)?);
        }
        let Some(newest) = &mut self.newest else {
            return Err(DeviceError::Failed);
        };
        if newest.append(bytes).is_ok() {
            return Ok(());
        }
        let is_note = bytes.len() as u64 <= NOTE_SIZE;
        if !is_note || !self.reserve.give_up() {
            return Err(DeviceError::Failed);
        }
        newest.append(bytes)
    }

    /// Syncs the names in the folder.
    fn sync_folder(&self) -> Result<(), DeviceError> {
        let folder = fs::File::open(&self.rt, self.folder.as_str()).map_err(failed)?;
        folder.sync_all().map_err(failed)
    }
}

/// Makes a folder if it isn't there, and syncs its name. The folder above it has to be there.
fn make_folder(rt: &HostRuntime, folder: &str) -> Result<(), DeviceError> {
    match DirBuilder::new().mode(0o700).create(rt, folder) {
        Ok(()) => {}
        Err(error) if error.kind() == io::ErrorKind::AlreadyExists => {}
        Err(error) => return Err(failed(error)),
    }
    let above = format!(in rt.alloc(); "{folder}/..")?;
    let above = fs::File::open(rt, above.as_str()).map_err(failed)?;
    above.sync_all().map_err(failed)
}

/// A lock that only one process has.
fn lock_of(rt: &HostRuntime, folder: &str) -> Result<fs::File, DeviceError> {
    let path = format!(in rt.alloc(); "{folder}/lock")?;
    let file = OpenOptions::new()
        .write(true)
        .create(true)
        .mode(0o600)
        .open(rt, path.as_str())
        .map_err(failed)?;
    match file.try_lock() {
        Ok(()) => Ok(file),
        Err(_) => Err(DeviceError::Failed),
    }
}

/// The names of the files in a folder, the oldest first.
fn names_in(rt: &HostRuntime, folder: &str) -> Result<Vec<FileName>, DeviceError> {
    let mut names = Vec::new(rt.alloc());
    for entry in fs::read_dir(rt, folder).map_err(failed)? {
        let entry = entry.map_err(failed)?;
        if let Some(name) = FileName::parse(entry.file_name()) {
            if !entry.file_type().map_err(failed)?.is_file() {
                return Err(DeviceError::Failed);
            }
            names.push(name)?;
        }
    }
    names.sort_unstable();
    Ok(names)
}

/// Syncs files.
fn sync_files(rt: &HostRuntime, folder: &str, names: &[FileName]) -> Result<(), DeviceError> {
    for name in names {
        let path = name.path_in(rt.alloc(), folder)?;
        let file = fs::File::open(rt, path.as_str()).map_err(failed)?;
        file.sync_all().map_err(failed)?;
    }
    Ok(())
}

/// The numbers of names, each of which is below 2^63.
fn numbers_of(alloc: Global, names: &[FileName]) -> Result<Vec<u64>, DeviceError>
    ensures { IfOk result (λ v. All (λ number. number < 2 ^ 63) v.items) }
{
    let mut numbers = Vec::new(alloc);
    for name in names {
        if name.number >= MAX_NUMBER {
            return Err(DeviceError::Failed);
        }
        numbers.push(name.number)?;
    }
    Ok(numbers)
}

impl Device for SpoolFolder {
    ghost is_known = { ⊥ };

    ghost files = { λ _. [] };

    ghost moment = { λ _. 0 };

    ghost left_at = { λ _ _ _. Unit {0} };

    fn numbers(&mut self, alloc: Global) -> Result<Vec<u64>, DeviceError> {
        numbers_of(alloc, &self.names)
    }

    fn read(&mut self, alloc: Global, index: usize) -> Result<Vec<u8>, DeviceError> {
        let Some(name) = self.names.get(index) else {
            return Err(DeviceError::Failed);
        };
        let path = name.path_in(alloc, self.folder.as_str())?;
        fs::read(&self.rt, path.as_str()).map_err(failed)
    }

    fn create(&mut self, number: u64) -> Result<(), DeviceError> {
        let Some(name) = FileName::after(self.names.last().copied(), number) else {
            return Err(DeviceError::Failed);
        };
        self.names.push(name)?;
        self.newest = Some(Newest::create(&self.rt, self.folder.as_str(), name)?);
        self.is_changed = true;
        Ok(())
    }

    fn append(&mut self, bytes: &[u8]) -> Result<(), DeviceError> {
        self.write(bytes)
    }

    fn remove_first(&mut self) -> Result<(), DeviceError> {
        let Some(name) = self.names.first() else {
            return Err(DeviceError::Failed);
        };
        let path = name.path_in(self.rt.alloc(), self.folder.as_str())?;
        fs::remove_file(&self.rt, path.as_str()).map_err(failed)?;
        let _name = self.names.remove(0);
        self.is_changed = true;
        self.reserve.fill(self.rt.alloc())
    }

    fn sync(&mut self) -> Result<(), DeviceError> {
        if let Some(newest) = &mut self.newest {
            newest.sync(&self.rt)?;
        }
        if self.is_changed {
            self.sync_folder()?;
            self.is_changed = false;
        }
        Ok(())
    }
}
