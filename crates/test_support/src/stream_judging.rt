//! The judging of an engine's answers over failing readers and writers.

use crate::judging::compare;
use crate::streams::{FailingReader, FailingWriter, room, writer};
use driver::{Sink, SourceText, Status, Streams, serial};
use source::memory::NoMemory;
use std::alloc::Global;
use std::io::ErrorKind;
use std::test::Fail;

/// A program with two threads, each of which increments a counter.
pub const LOST_UPDATE: &str = "lock G;
global int n protected_by(G);
atomic inc() { n = n + 1; }
thread t { inc(); }
thread u { inc(); }
";

/// The output for `LOST_UPDATE`.
pub const HISTORY: &str = "history 1
call 0 0 inc() ends
call 1 0 inc() ends
cells
n 2
end
";

/// The answer in words: the exit status, which of the two outputs has a text (`out` where neither has), and that text.
fn said(alloc: Global, status: Status, out: &[u8], err: &[u8]) -> Result<String, Fail> {
    let (name, bytes) = match (out, err) {
        (_, []) => ("out", out),
        ([], _) => ("err", err),
        _ => ("both", out),
    };
    let code = status.code();
    let text = String::from_utf8_lossy(alloc, bytes)?;
    Ok(format!(in alloc; "{code} {name}\n{text}")?)
}

/// Judges an answer by the words on it. Where memory was refused and that is not expected, the error is `NoMemory`: a
/// refused growth always ends a test with that error, never with another answer.
pub fn judge_answer(
    alloc: Global,
    status: Status,
    out: &[u8],
    err: &[u8],
    want: &str,
) -> Result<(), Fail> {
    let said = said(alloc, status, out, err)?;
    if status == Status::OutOfMemory && said.as_str() != want {
        return Err(NoMemory.into());
    }
    compare(alloc, said.as_str(), want)
}

/// Judges the answer for a text where reading fails after `calls` successful calls.
pub fn judge_read(
    alloc: Global,
    text: &[u8],
    calls: usize,
    kind: ErrorKind,
    want: &str,
) -> Result<(), Fail> {
    let reader = FailingReader {
        bytes: text,
        calls,
        kind,
    };
    let mut source = SourceText::new("F", reader);
    let mut streams = Streams {
        out: Sink::new(room(alloc, text)?),
        err: Sink::new(room(alloc, text)?),
    };
    let status = serial(alloc, 0, &mut source, &mut streams);
    let Streams { out, err } = streams;
    let out = out.into_writer();
    let err = err.into_writer();
    judge_answer(alloc, status, out.as_slice(), err.as_slice(), want)
}

/// Judges the answer for `LOST_UPDATE` where writing fails after `calls` successful calls: the words on the answer
/// without standard output, and before them the number of failed calls, whether what was written is the whole history,
/// and whether it is a prefix of the history.
pub fn judge_written(alloc: Global, calls: usize, want: &str) -> Result<(), Fail> {
    let mut source = SourceText::new("F", LOST_UPDATE.as_bytes());
    let mut streams = Streams {
        out: Sink::new(writer(alloc, calls)?),
        err: Sink::new(room(alloc, &[])?),
    };
    let status = serial(alloc, 0, &mut source, &mut streams);
    let Streams { out, err } = streams;
    let FailingWriter {
        taken,
        failures,
        ..
    } = out.into_writer();
    let err = err.into_writer();
    let (taken_so, want) = want.split_once(", ").unwrap_or((want, ""));
    judge_answer(alloc, status, &[], err.as_slice(), want)?;
    let whole = taken.as_slice() == HISTORY.as_bytes();
    let begins = HISTORY.as_bytes().starts_with(taken.as_slice());
    let said = format!(in alloc; "{failures} {whole} {begins}")?;
    compare(alloc, said.as_str(), taken_so)
}
