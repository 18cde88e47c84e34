//! Room on the disk that is kept for notes of deliveries.
use crate::DeviceError;
use crate::folder::failed;
use std::alloc::Global;
use std::fs;
use std::io::{self, Seek, SeekFrom, Write};
use std::os::unix::fs::OpenOptionsExt;

/// How many bytes the file of a [`SpoolFolder`](crate::SpoolFolder) has that keeps room for notes,
/// beside the files that a spool's limit bounds. A note takes 17, and a block of a disk, or two in a
/// new file. (profile)
pub const RESERVED_BYTES: u64 = 65_536;

/// How many bytes are given up, or taken, at a time: two blocks. (profile)
const STEP: u64 = 8_192;

/// What the bytes are: not zero, since some file systems keep no block for zeros.
const FILLER: u8 = 0xA5;

/// A file whose bytes take room on the disk. Some are given up where a note finds the disk full.
/// Room is really kept only where the file system frees the blocks of a file that is cut, which
/// those that copy what they write do later.
#[derive(Drop)]
pub(crate) struct Reserve {
    file: fs::File,
    len: u64,
}

impl Reserve {
    /// Opens the file, or makes it, and fills it as far as there is room.
    pub(crate) fn open(rt: &HostRuntime, folder: &str) -> Result<Reserve, DeviceError> {
        let path = format!(in rt.alloc(); "{folder}/reserve")?;
        let file = fs::OpenOptions::new()
            .write(true)
            .create(true)
            .mode(0o600)
            .open(rt, path.as_str())
            .map_err(failed)?;
        let len = file.metadata().map_err(failed)?.len().min(RESERVED_BYTES);
        let mut reserve = Reserve {
            file,
            len: len.saturating_sub(len % STEP),
        };
        reserve.fill(rt.alloc())?;
        Ok(reserve)
    }

    /// Takes what isn't kept, as far as there is room.
    pub(crate) fn fill(&mut self, alloc: Global) -> Result<(), DeviceError> {
        if self.len >= RESERVED_BYTES {
            return Ok(());
        }
        let mut bytes = Vec::new(alloc);
        bytes.resize(STEP as usize, FILLER)?;
        for _ in 0..RESERVED_BYTES / STEP {
            if self.len < RESERVED_BYTES && !self.grow(&bytes) {
                return Ok(());
            }
        }
        Ok(())
    }

    /// Adds bytes at the end, and syncs: whether there was room.
    fn grow(&mut self, bytes: &[u8]) -> bool {
        if self.write(bytes).is_ok() {
            self.len = self.len.saturating_add(bytes.len() as u64);
            return true;
        }
        let _ = self.file.set_len(self.len);
        false
    }

    /// Writes bytes after those that are kept, and syncs.
    fn write(&mut self, bytes: &[u8]) -> io::Result<()> {
        self.file.seek(SeekFrom::Start(self.len))?;
        self.file.write_all(bytes)?;
        self.file.sync_all()
    }

    /// Gives some of the room up: whether there was some. It is free once that is on the disk.
    pub(crate) fn give_up(&mut self) -> bool {
        if self.len == 0 {
            return false;
        }
        self.len = self.len.saturating_sub(STEP);
        self.file.set_len(self.len).is_ok() && self.file.sync_all().is_ok()
    }
}
