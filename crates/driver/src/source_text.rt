//! A file to read.

ghost use Rattle.std.specs.Prelude.{◌≡◌, ◌<◌, ◌+◌, ◌⊎◌, ◌^◌, take, length, IfOk, IfSome};
ghost use Rattle.std.specs.Io.KnownBytes.{IsAtEnd};
ghost use Rattle.std.specs.Io.Take.{take_inner};

use std::alloc::Global;
use std::io::{ErrorKind, Read, Take};
use thiserror::Error;

/// A file to read: its name in messages, its reader where it could be opened, and whether reading it failed.
#[derive(Drop)]
pub struct SourceText<'a, R> {
    name: &'a str,
    reader: Option<Take<R>>,
    failed: bool,
}

/// Why a text was not read.
#[derive(Clone, Copy, Debug, PartialEq, Eq, Error)]
pub enum ReadError {
    /// The file could not be opened, or the reader failed.
    #[error("cannot read")]
    Failed,
    /// A growth was refused, or the reader reported that it was out of memory.
    #[error("no memory")]
    OutOfMemory,
}

/// Reads all the bytes that `reader` has left, or the first `most + 1` of them where they are more than `most`. After
/// an error the reader stands somewhere in them, and must not be read further.
fn read_up_to<R: Read>(alloc: Global, reader: &mut Take<R>, most: u64) -> Result<Vec<u8>, ReadError>
    requires { most + 1 < 2 ^ 64 }
    ensures bytes { IfOk result
        (λ text. IfSome (R.remaining (take_inner reader.old)) (λ bytes. text.items ≡ take (most + 1) bytes)) }
    ensures end { IfOk result (λ text. IsAtEnd (R.remaining (take_inner reader.new)) ⊎ (most < length text.items)) }
{
    let mut text = Vec::new(alloc);
    reader.set_limit(most + 1);
    match reader.read_to_end(&mut text) {
        // (no reader gives this: neither was its end met nor is the limit reached)
        Ok(_) if reader.limit() == 0 && text.len() as u64 <= most => Err(ReadError::Failed),
        Ok(_) => Ok(text),
        Err(error) if error.kind() == ErrorKind::OutOfMemory => Err(ReadError::OutOfMemory),
        Err(_) => Err(ReadError::Failed),
    }
}

impl<'a, R: Read> SourceText<'a, R> {
    ghost use Rattle.std.specs.Prelude.{true, false, None, Some, OnOk};
    ghost use Rattle.std.specs.Option.{is_some};
    ghost use Rattle.driver.specs.Streams.{name_of, reader_of, left_in, reading_failed};

    /// An open file named `name`, no reading of which has failed.
    pub fn new(name: &'a str, reader: R) -> SourceText<'a, R>
        ensures name { name_of result ≡ name.entry.now }
        ensures reader { reader_of result ≡ Some reader }
        ensures fresh { reading_failed result ≡ false }
    {
        SourceText {
            name,
            reader: Some(reader.take(0)),
            failed: false,
        }
    }

    /// A file named `name` that can't be opened: reading it fails.
    pub fn missing(name: &'a str) -> SourceText<'a, R>
        ensures name { name_of result ≡ name.entry.now }
        ensures reader { reader_of result ≡ None }
        ensures fresh { reading_failed result ≡ false }
    {
        SourceText {
            name,
            reader: None,
            failed: false,
        }
    }

    /// The file's name in messages.
    pub fn name(&self) -> &'a str
        ensures { result.now ≡ name_of self.now }
    {
        self.name
    }

    /// Reads all the bytes that are left, or the first `most + 1` of them where they are more than `most`. After an
    /// error the reader stands somewhere in them, and must not be read further.
    ///
    /// # Errors
    ///
    /// The file could not be opened, the reader failed, or a growth was refused.
    pub fn read_up_to(&mut self, alloc: Global, most: u64) -> Result<Vec<u8>, ReadError>
        requires { most + 1 < 2 ^ 64 }
        ensures bytes { IfOk result
            (λ text. IfSome (left_in R.remaining self.old) (λ bytes. text.items ≡ take (most + 1) bytes)) }
        ensures end { IfOk result (λ text. IsAtEnd (left_in R.remaining self.new) ⊎ (most < length text.items)) }
        ensures opened { OnOk result (is_some (reader_of self.old) ≡ true) }
        ensures name { name_of self.new ≡ name_of self.old }
        ensures ok { OnOk result (reading_failed self.new ≡ reading_failed self.old) }
        ensures failed { result ≡ Err ReadError.Failed → reading_failed self.new ≡ true }
        ensures memory { result ≡ Err ReadError.OutOfMemory → reading_failed self.new ≡ reading_failed self.old }
    {
        let text = match &mut self.reader {
            Some(reader) => read_up_to(alloc, reader, most),
            None => Err(ReadError::Failed),
        };
        if matches!(text, Err(ReadError::Failed)) {
            self.failed = true;
        }
        text
    }
}
