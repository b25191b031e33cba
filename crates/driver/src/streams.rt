//! The two outputs of a command, and the messages on them.

ghost use Rattle.std.specs.Prelude.{◌≡◌, ◌<◌, ◌+◌, ◌⊎◌, ◌^◌, true, false, take, length, IfOk, IfErr, OnOk, IfSome};
ghost use Rattle.std.specs.Option.{is_some};
ghost use Rattle.std.specs.Io.KnownBytes.{IsAtEnd};
ghost use Rattle.driver.specs.Messages.{cannot_read, cannot_write, no_memory};
ghost use Rattle.driver.specs.Working.Serving.{GoesOut, IsGiven, IsUnread};
ghost use Rattle.driver.specs.Streams.{name_of, reader_of, left_in, reading_failed, writing_failed, Tells};

use crate::answer::Answer;
use crate::sink::Sink;
use crate::source_text::{ReadError, SourceText};
use crate::status::Status;
use source::memory::NoMemory;
use std::alloc::Global;
use std::io::{Read, Write};

/// The two outputs of a command.
#[derive(Drop)]
pub struct Streams<O, E> {
    /// The output of what was asked for.
    pub out: Sink<O>,
    /// The output of messages. Its failure does not change the status.
    pub err: Sink<E>,
}

impl<O: Write, E: Write> Streams<O, E> {
    /// Reports that the file named `file` could not be opened or read: `autolock: cannot read NAME`.
    pub fn tell_cannot_read(&mut self, file: &str)
        ensures out { self.new.out ≡ self.old.out }
        ensures told { Tells E.contents self.old.err self.new.err (cannot_read file.now) }
    {
        self.err.put(b"autolock: cannot read ");
        self.err.put(file.as_bytes());
        self.err.put(b"\n");
    }

    /// Reports that a growth was refused: `autolock: no memory`.
    pub fn tell_no_memory(&mut self)
        ensures out { self.new.out ≡ self.old.out }
        ensures told { Tells E.contents self.old.err self.new.err no_memory }
    {
        self.err.put(b"autolock: no memory\n");
    }

    /// Reports that writing failed: `autolock: cannot write`.
    pub fn tell_cannot_write(&mut self)
        ensures out { self.new.out ≡ self.old.out }
        ensures told { Tells E.contents self.old.err self.new.err cannot_write }
    {
        self.err.put(b"autolock: cannot write\n");
    }

    /// Reads a file, at most one byte past `most`. Where it is not read, that is reported, and the error is the status
    /// with which the command ends.
    pub(crate) fn read<R: Read>(
        &mut self,
        alloc: Global,
        source: &mut SourceText<'_, R>,
        most: u64,
    ) -> Result<Vec<u8>, Status>
        requires most { most + 1 < 2 ^ 64 }
        requires readable { reading_failed source.old ≡ false }
        ensures bytes { IfOk result
            (λ text. IfSome (left_in R.remaining source.old) (λ bytes. text.items ≡ take (most + 1) bytes)) }
        ensures end { IfOk result (λ text. IsAtEnd (left_in R.remaining source.new) ⊎ (most < length text.items)) }
        ensures opened { OnOk result (is_some (reader_of source.old) ≡ true) }
        ensures name { name_of source.new ≡ name_of source.old }
        ensures out { self.new.out ≡ self.old.out }
        ensures ok { OnOk result (reading_failed source.new ≡ false) }
        ensures quiet { OnOk result (self.new ≡ self.old) }
        ensures unread { IfErr result
            (IsUnread (name_of source.old) (reading_failed source.new) (Tells E.contents self.old.err self.new.err)) }
    {
        match source.read_up_to(alloc, most) {
            Ok(text) => Ok(text),
            Err(ReadError::Failed) => {
                self.tell_cannot_read(source.name());
                Err(Status::Failed)
            }
            Err(ReadError::OutOfMemory) => {
                self.tell_no_memory();
                Err(Status::OutOfMemory)
            }
        }
    }

    // Writes an answer: its text to `out`, then, where that succeeded, its message to `err`.
    fn put(&mut self, answer: &Answer) -> Status
        requires { writing_failed self.old.out ≡ false }
        ensures { GoesOut O.contents E.contents answer.now self.old self.new result }
    {
        self.out.put_text(&answer.out);
        self.out.flush();
        if self.out.has_failed() {
            self.tell_cannot_write();
            return Status::Failed;
        }
        self.err.put(answer.err.as_bytes());
        answer.status
    }

    /// Writes an answer, or reports that memory ran out before there was one.
    pub(crate) fn give(&mut self, answer: &Result<Answer, NoMemory>) -> Status
        requires { writing_failed self.old.out ≡ false }
        ensures { IsGiven O.contents E.contents answer.now self.old self.new result }
    {
        match answer {
            Ok(answer) => self.put(answer),
            Err(NoMemory) => {
                self.tell_no_memory();
                Status::OutOfMemory
            }
        }
    }
}
