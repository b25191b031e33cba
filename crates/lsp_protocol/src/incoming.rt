//! The messages of a client, as bytes.

ghost use Rattle.std.specs.Prelude.{◌≡◌, ◌||◌, length, IfOk, IfSome, MatchBool, OnOk};
ghost use Rattle.std.specs.Io.BufRead.{take_through, DropsThrough};
ghost use Rattle.std.specs.Io.KnownBytes.{Consumes};
ghost use Rattle.lsp_protocol.specs.Connections.{reader_of, reading_failed, is_failed, is_failure};
ghost use Rattle.lsp_protocol.specs.Working.Reading.{IsShort};

use std::alloc::Global;
use std::io;
use std::io::{BufRead, ErrorKind};
use thiserror::Error;

/// The bytes that a client sends: a reader, and whether reading it has failed.
#[derive(Drop)]
pub struct Incoming<R> {
    reader: R,
    failed: bool,
}

/// Why reading failed.
#[derive(Clone, Copy, Debug, PartialEq, Eq, Error)]
pub enum ReadError {
    /// The reader failed.
    #[error("cannot read")]
    Failed,
    /// An allocation failed, or the reader was out of memory.
    #[error("no memory")]
    OutOfMemory,
}

impl<R: BufRead> Incoming<R> {
    ghost use Rattle.std.specs.Prelude.{false};

    /// A reader that has not failed.
    pub fn new(reader: R) -> Incoming<R>
        ensures reader { reader_of result ≡ reader }
        ensures fresh { reading_failed result ≡ false }
    {
        Incoming {
            reader,
            failed: false,
        }
    }

    /// Why the reader failed, which is kept.
    fn failure(&mut self, error: io::Error) -> ReadError
        ensures reader { reader_of self.new ≡ reader_of self.old }
        ensures failed { reading_failed self.new ≡ (is_failed result || reading_failed self.old) }
    {
        if error.kind() == ErrorKind::OutOfMemory {
            return ReadError::OutOfMemory;
        }
        self.failed = true;
        ReadError::Failed
    }

    /// The next line, with the line feed that ends it; without one, if the input ends before.
    ///
    /// # Errors
    ///
    /// The reader failed, or an allocation failed.
    pub fn read_line(&mut self, alloc: Global) -> Result<Vec<u8>, ReadError>
        ensures line { IfOk result
            (λ line. IfSome (R.remaining (reader_of self.old)) (λ bytes. line.items ≡ take_through 10 bytes)) }
        ensures rest { OnOk result
            (DropsThrough (R.remaining (reader_of self.old)) (R.remaining (reader_of self.new)) 10) }
        ensures failed { reading_failed self.new ≡ (is_failure result || reading_failed self.old) }
    {
        let mut line = Vec::new(alloc);
        match self.reader.read_until(b'\n', &mut line) {
            Ok(_) => Ok(line),
            Err(error) => Err(self.failure(error)),
        }
    }

    /// Fills the buffer with the next bytes; `false` if the input ends before.
    ///
    /// # Errors
    ///
    /// The reader failed or was out of memory. A beginning of the buffer was then filled.
    pub fn fill(&mut self, buffer: &mut [u8]) -> Result<bool, ReadError>
        ensures filled { IfOk result (λ whole. MatchBool whole
            (Consumes (R.remaining (reader_of self.old)) (R.remaining (reader_of self.new)) buffer.new)
            (IsShort (R.remaining (reader_of self.old)) (length buffer.new))) }
        ensures failed { reading_failed self.new ≡ (is_failure result || reading_failed self.old) }
    {
        let mut at = 0;
        for _ in 0..u64::MAX {
            if at >= buffer.len() {
                return Ok(true);
            }
            match self.reader.read(&mut buffer[at..]) {
                Ok(0) => return Ok(false),
                Ok(count) => at += count,
                Err(error) => {
                    if error.kind() != ErrorKind::Interrupted {
                        return Err(self.failure(error));
                    }
                }
            }
        }
        // (no reader is interrupted so often)
        self.failed = true;
        Err(ReadError::Failed)
    }
}
