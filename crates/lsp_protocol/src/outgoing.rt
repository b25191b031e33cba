//! The answers to a client, as bytes.

ghost use Rattle.std.specs.Prelude.{◌≡◌, ◌||◌, is_err, OnOk, OnErr};
ghost use Rattle.std.specs.Io.KnownBytes.{Appends};
ghost use Rattle.lsp_protocol.specs.Connections.{writer_of, writing_failed};
ghost use Rattle.lsp_protocol.specs.Frames.{AppendsFront};

use std::io::{ErrorKind, Write};
use thiserror::Error;

/// The bytes that a client gets: a writer, and whether writing to it has failed.
#[derive(Drop)]
pub struct Outgoing<W> {
    writer: W,
    failed: bool,
}

/// The writer failed.
#[derive(Clone, Copy, Debug, PartialEq, Eq, Error)]
#[error("cannot write")]
pub struct WriteError;

/// Writes all the bytes.
fn write_bytes<W: Write>(writer: &mut W, bytes: &[u8]) -> Result<(), WriteError>
    ensures ok { OnOk result (Appends (W.contents writer.old) (W.contents writer.new) bytes.now) }
    ensures err { OnErr result (AppendsFront (W.contents writer.old) (W.contents writer.new) bytes.now) }
{
    let mut rest = bytes;
    for _ in 0..u64::MAX {
        if rest.is_empty() {
            return Ok(());
        }
        match writer.write(rest) {
            Ok(0) => return Err(WriteError),
            Ok(count) => rest = &rest[count..],
            Err(error) => {
                if error.kind() != ErrorKind::Interrupted {
                    return Err(WriteError);
                }
            }
        }
    }
    Err(WriteError)
}

/// Writes all the bytes and flushes the writer.
fn write_flushed<W: Write>(writer: &mut W, bytes: &[u8]) -> Result<(), WriteError>
    ensures ok { OnOk result (Appends (W.contents writer.old) (W.contents writer.new) bytes.now) }
    ensures err { OnErr result (AppendsFront (W.contents writer.old) (W.contents writer.new) bytes.now) }
{
    write_bytes(writer, bytes)?;
    writer.flush().map_err(|_| WriteError)
}

impl<W: Write> Outgoing<W> {
    ghost use Rattle.std.specs.Prelude.{false};

    /// A writer that has not failed.
    pub fn new(writer: W) -> Outgoing<W>
        ensures writer { writer_of result ≡ writer }
        ensures fresh { writing_failed result ≡ false }
    {
        Outgoing {
            writer,
            failed: false,
        }
    }

    /// Writes all bytes and flushes the writer.
    ///
    /// # Errors
    ///
    /// The writer failed. A beginning of the bytes was then written.
    pub fn write_out(&mut self, bytes: &[u8]) -> Result<(), WriteError>
        ensures ok { OnOk result
            (Appends (W.contents (writer_of self.old)) (W.contents (writer_of self.new)) bytes.now) }
        ensures err { OnErr result
            (AppendsFront (W.contents (writer_of self.old)) (W.contents (writer_of self.new)) bytes.now) }
        ensures failed { writing_failed self.new ≡ (is_err result || writing_failed self.old) }
    {
        let written = write_flushed(&mut self.writer, bytes);
        if written.is_err() {
            self.failed = true;
        }
        written
    }
}
