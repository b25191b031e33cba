//! Requests to the engines for a text in memory.

ghost use Rattle.std.specs.Prelude.{◌≡◌, [], false, true, IfOk, IfErr, MatchOption};
ghost use Rattle.driver.specs.Answers.{TextAnswers};
ghost use Rattle.driver.specs.Explanations.{ExplainAnswers};
ghost use Rattle.driver.specs.Requests.{IsReport};
ghost use Rattle.driver.specs.{writer_of, writing_failed};
ghost use Rattle.driver_words.specs.Lines.{IsPrefix};
ghost use Rattle.autolock_c.specs.Given.{EmitAnswers};
ghost use Rattle.autolock_c.specs.Working.Answering.{IsAnswer, IsUnemitted};

use crate::answer::Answer;
use driver::{Sink, SourceText, Status, Streams, explain, serve_report};
use driver_words::{Color, Emission, Report, is_prefix};
use source::memory::NoMemory;
use std::alloc::Global;

/// Two empty outputs in memory.
fn outputs(alloc: Global) -> Streams<Vec<u8>, Vec<u8>>
    ensures out { (writer_of result.out).items ≡ [] }
    ensures err { (writer_of result.err).items ≡ [] }
    ensures fresh { writing_failed result.out ≡ false }
{
    Streams {
        out: Sink::new(Vec::new(alloc)),
        err: Sink::new(Vec::new(alloc)),
    }
}

/// The answer to `report` for the program of `text`.
///
/// # Errors
///
/// `OutOfMemory`: a growth was refused.
pub fn reported(alloc: Global, report: Report<'_>, text: &[u8]) -> Result<Answer, Status>
    ensures answer { IfOk result (IsAnswer (TextAnswers (IsReport report.entry text.now) [] text.now)) }
    ensures memory { IfErr result (λ status. status ≡ Status.OutOfMemory) }
{
    let mut source = SourceText::new("", text);
    let mut streams = outputs(alloc);
    let status = serve_report(alloc, report, &mut source, &mut streams);
    match Answer::of(status, streams) {
        Ok(answer) => Ok(answer),
        Err(NoMemory) => Err(Status::OutOfMemory),
    }
}

/// The explanation of the fault of the program of `text`, or the report that it is accepted, as JSON.
///
/// # Errors
///
/// `OutOfMemory`: a growth was refused.
pub fn explained(alloc: Global, text: &[u8]) -> Result<Answer, Status>
    ensures answer { IfOk result (IsAnswer (ExplainAnswers true Color.Never [] text.now)) }
    ensures memory { IfErr result (λ status. status ≡ Status.OutOfMemory) }
{
    let mut source = SourceText::new("", text);
    let mut streams = outputs(alloc);
    let status = explain(alloc, true, Color::Never, &mut source, &mut streams);
    match Answer::of(status, streams) {
        Ok(answer) => Ok(answer),
        Err(NoMemory) => Err(Status::OutOfMemory),
    }
}

/// The prefix in `bytes`, if names of C may begin with it.
#[tactic(auto, using(crate::proofs::Prefixes::prefixes_are_utf8))]
fn prefix_of(bytes: &[u8]) -> Option<&str>
    ensures { MatchOption result (IsPrefix bytes.now → ⊥) (λ prefix. (prefix.now ≡ bytes.now) × IsPrefix bytes.now) }
{
    let Ok(prefix) = str::from_utf8(bytes) else {
        return None;
    };
    if is_prefix(prefix) {
        Some(prefix)
    } else {
        None
    }
}

/// The C of the program of `text`, or its header, with names that begin with `prefix`.
///
/// # Errors
///
/// - `BadWords`: names of C may not begin with `prefix`.
/// - `OutOfMemory`: they may, and a growth was refused.
pub fn emitted(alloc: Global, header: bool, prefix: &[u8], text: &[u8]) -> Result<Answer, Status>
    ensures answer { IfOk result (IsAnswer (EmitAnswers header prefix.now text.now)) }
    ensures prefix { IfOk result (λ _. IsPrefix prefix.now) }
    ensures error { IfErr result (IsUnemitted prefix.now) }
{
    let Some(prefix) = prefix_of(prefix) else {
        return Err(Status::BadWords);
    };
    let emission = Emission {
        header,
        prefix,
        lines: false,
        file: "",
    };
    reported(alloc, Report::Emit(emission), text)
}
