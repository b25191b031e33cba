//! Failing readers and writers.

use std::alloc::{AllocError, Global};
use std::io;
use std::io::{ErrorKind, Read, Write};

/// Room for all that is written for a text, so that a refused growth never looks like a failed write.
pub fn room(alloc: Global, text: &[u8]) -> Result<Vec<u8>, AllocError> {
    let room = text.len().saturating_mul(4).saturating_add(8192);
    Vec::with_capacity(alloc, room)
}

/// A reader that returns at most seven bytes in a call, and fails after `calls` successful calls.
#[derive(Drop)]
pub struct FailingReader<'a> {
    /// The bytes that are left.
    pub bytes: &'a [u8],
    /// The number of successful calls that are left.
    pub calls: usize,
    /// The kind of the failure.
    pub kind: ErrorKind,
}

impl Read for FailingReader<'_> {
    fn read(&mut self, buf: &mut [u8]) -> io::Result<usize> {
        if self.calls == 0 {
            return Err(io::Error::from(self.kind));
        }
        self.calls -= 1;
        let n = self.bytes.len().min(buf.len()).min(7);
        let (front, rest) = self.bytes.split_at(n);
        buf[..n].copy_from_slice(front);
        self.bytes = rest;
        Ok(n)
    }
}

/// A writer that takes at most seven bytes in a call, and fails after `calls` successful calls, at each further one; it
/// counts the failed calls.
#[derive(Drop)]
pub struct FailingWriter {
    /// The bytes that it took.
    pub taken: Vec<u8>,
    calls: usize,
    /// The number of failed calls.
    pub failures: u32,
}

impl Write for FailingWriter {
    fn write(&mut self, buf: &[u8]) -> io::Result<usize> {
        if self.calls == 0 {
            self.failures = self.failures.saturating_add(1);
            return Err(io::Error::from(ErrorKind::BrokenPipe));
        }
        self.calls -= 1;
        let n = buf.len().min(7);
        self.taken.extend_from_slice(&buf[..n])?;
        Ok(n)
    }

    fn flush(&mut self) -> io::Result<()> {
        if self.calls == 0 {
            self.failures = self.failures.saturating_add(1);
            return Err(io::Error::from(ErrorKind::BrokenPipe));
        }
        self.calls -= 1;
        Ok(())
    }
}

/// A writer before its first call.
pub fn writer(alloc: Global, calls: usize) -> Result<FailingWriter, AllocError> {
    Ok(FailingWriter {
        taken: room(alloc, &[])?,
        calls,
        failures: 0,
    })
}
