//! The answers of the engines of the crate `driver` for a text.

use crate::asked::Engine;
use driver::{Sink, SourceText, Status, Streams, check, order_graph, serve_report, simulate};
use source::memory::NoMemory;
use std::alloc::Global;

/// How an engine ended, and what it wrote.
#[derive(Drop)]
struct Outcome {
    status: Status,
    /// The text on standard output.
    written: String,
    /// The text on standard error.
    told: String,
}

/// The engine's answer for the text in a file named `F`, and, for `simulate`, the steps in a file named `T`.
fn answer(alloc: Global, engine: Engine<'_>, text: &str) -> Result<Outcome, NoMemory> {
    let mut source = SourceText::new("F", text.as_bytes());
    let mut streams = Streams {
        out: Sink::new(Vec::new(alloc)),
        err: Sink::new(Vec::new(alloc)),
    };
    let status = match engine {
        Engine::Check => check(alloc, &mut source, &mut streams),
        Engine::Report(report) => serve_report(alloc, report, &mut source, &mut streams),
        Engine::Graph => order_graph(alloc, &mut source, &mut streams),
        Engine::Simulate(steps) => {
            let mut steps = SourceText::new("T", steps.as_bytes());
            simulate(alloc, &mut source, &mut steps, &mut streams)
        }
    };
    let Streams { out, err } = streams;
    // A vector fails as a writer only where its growth is refused.
    if status == Status::OutOfMemory || out.has_failed() || err.has_failed() {
        return Err(NoMemory);
    }
    Ok(Outcome {
        status,
        written: String::from_utf8_lossy(alloc, out.into_writer().as_slice())?,
        told: String::from_utf8_lossy(alloc, err.into_writer().as_slice())?,
    })
}

/// The text without the line feed at its end.
pub fn without_line_feed(text: &str) -> &str {
    text.strip_suffix('\n').unwrap_or(text)
}

/// The text before its first line feed, and whether that line feed is its end.
fn first_line(text: &str) -> (&str, bool) {
    match text.split_once('\n') {
        Some((line, rest)) => (line, rest.is_empty()),
        None => (text, false),
    }
}

/// The engine's answer in words. Where it is done and has reported nothing, this is what it wrote, without the last
/// line feed, or only the first line of that where only this is asked for. Where it refused the text with one line and
/// wrote nothing, this is that line. Otherwise it is the exit status and both texts, which leaves out nothing of an
/// answer.
pub fn said_by(alloc: Global, engine: Engine<'_>, text: &str) -> Result<String, NoMemory> {
    let Outcome {
        status,
        written,
        told,
    } = answer(alloc, engine, text)?;
    if status == Status::Done && told.is_empty() {
        let said = match engine {
            Engine::Check => first_line(written.as_str()).0,
            _ => without_line_feed(written.as_str()),
        };
        return Ok(String::from_str(alloc, said)?);
    }
    let (line, is_one) = first_line(told.as_str());
    if status == Status::Refused && written.is_empty() && is_one {
        return Ok(String::from_str(alloc, line)?);
    }
    let code = status.code();
    Ok(format!(in alloc; "status {code}, written {written:?}, told {told:?}")?)
}
