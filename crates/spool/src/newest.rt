//! The newest file of a spool in a folder, which grows.
use crate::DeviceError;
use crate::file_name::FileName;
use crate::folder::failed;
use std::fs::{self, OpenOptions};
use std::io::Write;
use std::os::unix::fs::{MetadataExt, OpenOptionsExt};

/// The newest file, open to be added to: its path, and how many bytes it has and had at the last
/// sync.
#[derive(Drop)]
pub(crate) struct Newest {
    file: fs::File,
    path: String,
    len: u64,
    synced: u64,
}

impl Newest {
    /// Makes a file.
    pub(crate) fn create(
        rt: &HostRuntime,
        folder: &str,
        name: FileName,
    ) -> Result<Newest, DeviceError> {
        let path = name.path_in(rt.alloc(), folder)?;
        let file = OpenOptions::new()
            .append(true)
            .create_new(true)
            .mode(0o600)
            .open(rt, path.as_str())
            .map_err(failed)?;
        Ok(Newest {
            file,
            path,
            len: 0,
            synced: 0,
        })
    }

    /// Opens a file that is there.
    pub(crate) fn open(
        rt: &HostRuntime,
        folder: &str,
        name: FileName,
    ) -> Result<Newest, DeviceError> {
        let path = name.path_in(rt.alloc(), folder)?;
        let file = OpenOptions::new()
            .append(true)
            .open(rt, path.as_str())
            .map_err(failed)?;
        let len = file.metadata().map_err(failed)?.len();
        Ok(Newest {
            file,
            path,
            len,
            synced: len,
        })
    }

    /// Adds bytes at the end. Where that fails, the file is cut back to what was synced, so that its
    /// blocks are free again and no part of a record is left.
    pub(crate) fn append(&mut self, bytes: &[u8]) -> Result<(), DeviceError> {
        match self.file.write_all(bytes) {
            Ok(()) => {
                self.len = self.len.saturating_add(bytes.len() as u64);
                Ok(())
            }
            Err(error) => {
                self.cut_back();
                Err(failed(error))
            }
        }
    }

    /// Syncs the bytes. Then the file is still in its folder, under its name. Where the sync fails,
    /// the file is cut back to what was synced before: the system may take the other bytes for
    /// written and never write them.
    pub(crate) fn sync(&mut self, rt: &HostRuntime) -> Result<(), DeviceError> {
        match self.file.sync_data() {
            Ok(()) => self.synced = self.len,
            Err(error) => {
                self.cut_back();
                return Err(failed(error));
            }
        }
        if self.is_named(rt)? {
            Ok(())
        } else {
            Err(DeviceError::Failed)
        }
    }

    /// Whether the name is still that of this file.
    fn is_named(&self, rt: &HostRuntime) -> Result<bool, DeviceError> {
        let open = self.file.metadata().map_err(failed)?;
        let named = fs::symlink_metadata(rt, self.path.as_str()).map_err(failed)?;
        Ok(open.dev() == named.dev() && open.ino() == named.ino())
    }

    /// Cuts the file back to what was synced, if that is possible.
    fn cut_back(&mut self) {
        if self.file.set_len(self.synced).is_ok() {
            self.len = self.synced;
        }
    }
}
