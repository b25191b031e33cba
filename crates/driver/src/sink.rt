//! A writer that remembers whether it failed.

use rope::Rope;
use std::io::Write;

/// A writer, and whether writing to it failed. After a failure nothing is written.
#[derive(Drop)]
pub struct Sink<W> {
    writer: W,
    failed: bool,
}

impl<W: Write> Sink<W> {
    ghost use Rattle.std.specs.Prelude.{◌≡◌, true, false, []};
    ghost use Rattle.std.specs.Io.KnownBytes.{Appends, Keeps};
    ghost use Rattle.rope.specs.Working.Ropes.{rope_text};
    ghost use Rattle.driver.specs.Streams.{writer_of, writing_failed};

    /// A writer that has not failed.
    pub fn new(writer: W) -> Sink<W>
        ensures writer { writer_of result ≡ writer }
        ensures fresh { writing_failed result ≡ false }
    {
        Sink {
            writer,
            failed: false,
        }
    }

    /// Whether writing failed.
    pub fn has_failed(&self) -> bool
        ensures { result ≡ writing_failed self.now }
    {
        self.failed
    }

    /// The writer.
    pub fn into_writer(self) -> W
        ensures { result ≡ writer_of self }
    {
        let Sink { writer, failed: _ } = self;
        writer
    }

    /// Writes all of `bytes`, or nothing after a failure. Does not call the writer for an empty slice.
    pub fn put(&mut self, bytes: &[u8])
        ensures empty { bytes.now ≡ [] → self.new ≡ self.old }
        ensures stopped { writing_failed self.old ≡ true → writer_of self.new ≡ writer_of self.old }
        ensures appends { writing_failed self.new ≡ false
            → Appends (W.contents (writer_of self.old)) (W.contents (writer_of self.new)) bytes.now }
        ensures sticky { writing_failed self.new ≡ false → writing_failed self.old ≡ false }
    {
        if bytes.is_empty() || self.failed {
            return;
        }
        if self.writer.write_all(bytes).is_err() {
            self.failed = true;
        }
    }

    /// Writes all of `text`, or nothing after a failure.
    pub fn put_text(&mut self, text: &Rope)
        ensures stopped { writing_failed self.old ≡ true → writer_of self.new ≡ writer_of self.old }
        ensures appends { writing_failed self.new ≡ false
            → Appends (W.contents (writer_of self.old)) (W.contents (writer_of self.new)) (rope_text text.now) }
        ensures sticky { writing_failed self.new ≡ false → writing_failed self.old ≡ false }
    {
        for insert in 0..text.inserts() {
            self.put(text.own_before(insert));
            self.put(text.part_at(insert));
        }
        self.put(text.rest());
    }

    /// Flushes the writer, or does nothing after a failure.
    pub fn flush(&mut self)
        ensures stopped { writing_failed self.old ≡ true → writer_of self.new ≡ writer_of self.old }
        ensures keeps { writing_failed self.new ≡ false
            → Keeps (W.contents (writer_of self.old)) (W.contents (writer_of self.new)) }
        ensures sticky { writing_failed self.new ≡ false → writing_failed self.old ≡ false }
    {
        if !self.failed && self.writer.flush().is_err() {
            self.failed = true;
        }
    }
}
