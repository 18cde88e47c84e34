//! A log for several threads.

use crate::timely::TimelyWriter;
use std::alloc::{AllocError, Global};
use std::io::{self, Write};
use std::os::fd::RawFd;
use std::sync::{Arc, Mutex, Wait};

/// What reports are written to, by several threads.
pub trait Log: Write {
    /// The same, for another thread.
    fn try_clone(&self) -> Result<Self, AllocError>
    where
        Self: Sized;

    /// Whether the last write failed since nobody read what was written before.
    fn is_unread(&self) -> bool;
}

/// A [`TimelyWriter`] for several threads, one of which writes at a time: so no other one takes the
/// room that it waited for.
#[derive(Drop)]
pub struct SharedLog<W, R> {
    rt: R,
    writer: Arc<Mutex<TimelyWriter<W>>, Global>,
}

impl<W: Drop, R> SharedLog<W, R> {
    /// Writes by this writer to this descriptor.
    ///
    /// # Errors
    ///
    /// Memory was refused.
    pub fn new(
        rt: R,
        alloc: Global,
        writer: W,
        descriptor: RawFd,
    ) -> Result<SharedLog<W, R>, AllocError>
    where
        R: Drop,
    {
        let writer = TimelyWriter::new(writer, descriptor);
        let writer = Arc::new(alloc, Mutex::new(writer))?;
        Ok(SharedLog { rt, writer })
    }
}

impl<W: Write, R: Wait + Copy> Log for SharedLog<W, R> {
    fn try_clone(&self) -> Result<SharedLog<W, R>, AllocError> {
        let writer = Arc::try_clone(&self.writer)?;
        Ok(SharedLog {
            rt: self.rt,
            writer,
        })
    }

    fn is_unread(&self) -> bool {
        self.writer.lock(&self.rt).is_unread
    }
}

impl<W: Write, R: Wait> Write for SharedLog<W, R> {
    /// As a [`TimelyWriter`] does, once the threads before it have written.
    fn write(&mut self, bytes: &[u8]) -> io::Result<usize> {
        self.writer.lock(&self.rt).write(bytes)
    }

    fn flush(&mut self) -> io::Result<()> {
        self.writer.lock(&self.rt).flush()
    }
}
