//! Where the word at a place begins and ends. The only error is a failed allocation.

ghost use Rattle.std.specs.Prelude.{◌≡◌, ◌≤◌, IfOk, length, take};
ghost use Rattle.std.specs.List.{prefix_len};
ghost use Rattle.source.specs.Texts.{is_name_byte};
ghost use Rattle.serde_json.specs.View.{view};
ghost use Rattle.explanation.specs.Json as object;

use crate::marks::CursorMarks;
use serde_json::{Value, json};
use source::memory::NoMemory;
use std::alloc::{AllocError, Global};

/// The most bytes of a word that are read.
const WORD: usize = 64;

/// The number of bytes at the beginning of these that belong to one word.
fn word_length(bytes: &[u8]) -> usize
    ensures count { result ≡ prefix_len is_name_byte bytes.now }
    ensures few { result ≤ length bytes.now }
{
    bytes
        .iter()
        .take_while(|byte| matches!(**byte, b'A'..=b'Z' | b'a'..=b'z' | b'_' | b'0'..=b'9'))
        .count()
}

/// The end of what begins at `start`: after the word there, of which 64 bytes are read, or after the one byte there; at
/// the text's end the end itself.
pub fn end_of(text: &[u8], start: usize) -> usize
    ensures { result ≡ object.end_of text.now start }
{
    let rest = &text[start.min(text.len())..];
    let shown = rest.len().min(WORD);
    let length = word_length(&rest[..shown]).max(1).min(rest.len());
    text.len() - rest.len() + length
}

/// The line and column of a byte.
fn position(alloc: Global, marks: &CursorMarks<'_>, at: usize) -> Result<Value, AllocError>
    ensures { IfOk result (λ value. view value ≡ object.position_data marks.now.text.now at) }
{
    let found = marks.at(at);
    json!(in alloc; {"column": found.column as u64, "line": found.line as u64})
}

/// The positions of the begin and the end of a place.
#[derive(Drop)]
pub struct Range {
    /// The line and column of the first byte.
    pub start: Value,
    /// The line and column of the byte after the last one.
    pub end: Value,
}

/// A text, with marks in it.
#[derive(Drop)]
pub struct Places<'a> {
    text: &'a [u8],
    marks: CursorMarks<'a>,
    ghost same: { marks.text.now ≡ text.now },
}

impl<'a> Places<'a> {
    /// The places of `text`.
    pub fn of(alloc: Global, text: &'a [u8]) -> Result<Places<'a>, NoMemory>
        ensures { IfOk result (λ places. places.text.now ≡ text.entry.now) }
    {
        Ok(Places {
            text,
            marks: CursorMarks::of(alloc, text)?,
        })
    }

    /// The range of what begins at `start`.
    pub fn range(&self, alloc: Global, start: usize) -> Result<Range, AllocError>
        ensures start { IfOk result (λ range. view range.start ≡ object.position_data self.now.text.now start) }
        ensures end { IfOk result
            (λ range. view range.end ≡ object.position_data self.now.text.now (object.end_of self.now.text.now start)) }
    {
        let first = position(alloc, &self.marks, start)?;
        let behind = position(alloc, &self.marks, end_of(self.text, start))?;
        Ok(Range {
            start: first,
            end: behind,
        })
    }
}
