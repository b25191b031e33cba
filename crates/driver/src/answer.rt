//! The answers of the engines, as a function of the bytes that it read.

ghost use Rattle.std.specs.Prelude.{◌≡◌, [], IfOk, length, map, string_bytes, vec_len};
ghost use Rattle.code.specs.Listing.{line};
ghost use Rattle.core_lang.specs.Expansion.{IsExpansion};
ghost use Rattle.core_lang.specs.WellFormed.{IsChecked};
ghost use Rattle.report.specs.{entry_of};
ghost use Rattle.rope.specs.Working.Ropes.{rope_text};
ghost use Rattle.driver.specs.Working.Answering.{Meets, IsAccepted, IsMessage};
ghost use Rattle.driver.specs.Answers.{TextAnswers};
ghost use Rattle.driver.specs.Requests.{BesideAnswers, IsReport};
ghost use Rattle.driver.specs.Checks.{IsCheckReport};
ghost use Rattle.c_text.specs.Files.{source_of};
ghost use Rattle.driver.specs.Emissions as emissions;
ghost use Rattle.driver.specs.Emissions.{IsEmitted, emitted_text};
ghost use Rattle.driver.specs.Listings.{IsListed};
ghost use Rattle.driver.specs.Serial.{IsRun, serial_text};
ghost use Rattle.driver.specs.ThreadRuns.{IsThreadsRun};

use crate::exploring::Exploring;
use crate::replaying::replayed;
use crate::running::{prepared, run_scripts};
use crate::scheduling::scheduled;
use crate::simulating::simulated;
use crate::status::Status;
use crate::threads_run::ThreadRuns;
use crate::tracing::traced;
use c_text::{SourceFile, file, header};
use c_threads::meaning::{sections_mean, threads_mean};
use compiler::compile;
use core_lang::laws;
use core_lang::typed::Typed;
use core_lang::value::Value;
use driver_words::{Beside, Emission, Report, RunOptions};
use input_files::Format;
use lowering::compiled::Program;
use lowering::{listing, listing_with_places};
use meaning_registers::prepared::Prepared;
use report::{Record, changed_text, history_text, unsettled_text};
use report_check::Check;
use report_runs::Trace;
use rope::Rope;
use source::fault::Refusal;
use source::keyed::KeyedState;
use source::line::fault_line;
use source::memory::NoMemory;
use std::alloc::Global;
use std::sync::Wait;
use std::thread::Threads;

/// The status of a command, and what it writes to the two outputs.
#[derive(Drop)]
pub struct Answer {
    /// How the command ended.
    pub status: Status,
    /// The text for standard output.
    pub out: Rope,
    /// The message for standard error.
    pub err: String,
}

impl Answer {
    /// The answer that ends with `status` and writes `out`, without a message.
    pub fn written(alloc: Global, status: Status, out: Rope) -> Answer
        ensures ended { result.status ≡ status }
        ensures written { rope_text result.out ≡ rope_text out }
        ensures told { string_bytes result.err ≡ [] }
    {
        Answer {
            status,
            out,
            err: String::new(alloc),
        }
    }

    /// The answer `Done` that writes `out`, without a message.
    pub fn done(alloc: Global, out: Rope) -> Answer
        ensures ended { result.status ≡ Status.Done }
        ensures written { rope_text result.out ≡ rope_text out }
        ensures told { string_bytes result.err ≡ [] }
    {
        Answer::written(alloc, Status::Done, out)
    }

    /// The answer that ends with `status` and writes only `message`, followed by a line feed.
    pub fn refused(alloc: Global, status: Status, mut message: String) -> Result<Answer, NoMemory>
        ensures { IfOk result (IsMessage status (line (string_bytes message))) }
    {
        message.push_str("\n")?;
        Ok(Answer {
            status,
            out: Rope::new(alloc),
            err: message,
        })
    }
}

/// A file's text, with the file's name.
#[derive(Clone, Copy)]
pub struct Named<'a> {
    /// The file's name.
    pub file: &'a str,
    /// The text.
    pub text: &'a [u8],
}

/// The compiled program of `source`, or the answer that reports its fault.
fn accepted(alloc: Global, source: &Named<'_>) -> Result<Result<Program, Answer>, NoMemory>
    ensures { IfOk result (IsAccepted source.now.file.now source.now.text.now) }
{
    match compile(alloc, source.text) {
        Ok(program) => Ok(Ok(program)),
        Err(Refusal::Fault(fault)) => {
            let line = fault_line(alloc, source.file, source.text, &fault)?;
            Ok(Err(Answer::refused(alloc, Status::Refused, line)?))
        }
        Err(Refusal::NoMemory) => Err(NoMemory),
    }
}

/// The answer to `check`: the ranks and lists of `program`, with the lines of its source where `source` is true.
fn checked(alloc: Global, source: bool, text: &[u8], program: &Program) -> Result<Answer, NoMemory>
    ensures { IfOk result (Meets (IsCheckReport source text.now program.now)) }
{
    let check = Check {
        text,
        program: program.expanded(),
        paths: program.paths(),
        ranks: program.ranks(),
        placed: program.placed(),
    };
    if source {
        let helpers = &program.typed().shape.helpers;
        return Ok(Answer::done(alloc, check.text_with_sources(alloc, helpers)?));
    }
    Ok(Answer::done(alloc, check.text(alloc)?))
}

/// The answer to `listing`: the instructions of `program`, with the places of its statements where `places` is true.
fn listed(alloc: Global, places: bool, text: &[u8], program: &Program) -> Result<Answer, NoMemory>
    ensures { IfOk result (Meets (IsListed places text.now program.now)) }
{
    if places {
        return Ok(Answer::done(alloc, listing_with_places(alloc, text, program)?));
    }
    Ok(Answer::done(alloc, listing(alloc, program)?))
}

/// The name and text of the program's file, where `emission` asks for its lines.
fn source_in<'a>(emission: Emission<'a>, text: &'a [u8]) -> Option<SourceFile<'a>>
    ensures { source_of result ≡ emissions.source_in emission.entry text.entry.now }
{
    if !emission.lines {
        return None;
    }
    Some(SourceFile {
        name: emission.file,
        text,
    })
}

/// The C text of `program`, or its header.
fn c_of(
    alloc: Global,
    emission: Emission<'_>,
    text: &[u8],
    program: &Program,
) -> Result<String, NoMemory>
    ensures { IfOk result (λ made. string_bytes made ≡ emitted_text emission.entry text.now program.now) }
{
    if emission.header {
        return header(alloc, program, emission.prefix);
    }
    file(alloc, program, emission.prefix, source_in(emission, text))
}

/// The answer to `emit` for `program`.
fn emitted(
    alloc: Global,
    emission: Emission<'_>,
    text: &[u8],
    program: &Program,
) -> Result<Answer, NoMemory>
    ensures { IfOk result (Meets (IsEmitted emission.entry text.now program.now)) }
{
    sections_mean(program);
    threads_mean(program);
    let made = c_of(alloc, emission, text, program)?;
    Ok(Answer::done(alloc, Rope::of(alloc, made)))
}

/// The history text of `calls`, with the values of all cells, or of the changed ones where `changed` is true.
fn serial_text(
    alloc: Global,
    changed: bool,
    program: &Typed,
    calls: &[Record<'_>],
    values: &[Value],
) -> Result<String, NoMemory>
    requires { vec_len program.now.cells ≡ length values.now }
    ensures { IfOk result
        (λ text. string_bytes text ≡ serial_text changed program.now (map entry_of calls.now) values.now) }
{
    if changed {
        return changed_text(alloc, program, calls, values);
    }
    history_text(alloc, Format::One, program, calls, values)
}

/// The answer to `serial`: the text of the run of `program`, with the values of all cells, or of the changed ones where
/// `changed` is true.
fn ran(
    alloc: Global,
    program: &Typed,
    prepared: &Prepared<'_>,
    turns: u64,
    changed: bool,
) -> Result<Answer, NoMemory>
    requires checked { IsChecked program.now }
    requires same { prepared.now.program.now ≡ program.now }
    requires expansion { IsExpansion program.now prepared.now.written.now }
    ensures { IfOk result (Meets (IsRun turns changed program.now)) }
{
    laws::settled_are_serial();
    let ran = run_scripts(alloc, program, prepared, turns)?;
    match ran.unsettled {
        None => {
            let out = serial_text(alloc, changed, program, &ran.records, ran.heap.cells())?;
            Ok(Answer::done(alloc, Rope::of(alloc, out)))
        }
        Some((thread, step)) => {
            let out = unsettled_text(alloc, program, &ran.records, thread, step)?;
            Ok(Answer::written(alloc, Status::Unsettled, Rope::of(alloc, out)))
        }
    }
}

/// The answer to `report` for `program`, which is compiled from `text`.
fn reported(
    alloc: Global,
    report: Report<'_>,
    text: &[u8],
    program: &Program,
) -> Result<Answer, NoMemory>
    ensures { IfOk result (Meets (IsReport report.entry text.now program.now)) }
{
    match report {
        Report::Check { source } => checked(alloc, source, text, program),
        Report::Listing { places } => listed(alloc, places, text, program),
        Report::Serial { turns, changed } => {
            let prepared = prepared(alloc, program)?;
            ran(alloc, program.typed(), &prepared, turns, changed)
        }
        Report::Outcomes(looking) => {
            let exploring = Exploring {
                prepared: &prepared(alloc, program)?,
                looking,
                hashing: KeyedState::of(text),
            };
            exploring.answer(alloc)
        }
        Report::Schedule(scheduling) => scheduled(alloc, program, scheduling),
        Report::Emit(emission) => emitted(alloc, emission, text, program),
    }
}

/// The answer to `report` for the program of `source`, or the answer that reports the fault of `source`.
pub fn report_answer(
    alloc: Global,
    report: Report<'_>,
    source: &Named<'_>,
) -> Result<Answer, NoMemory>
    ensures { IfOk result
        (Meets (TextAnswers (IsReport report.entry source.now.text.now) source.now.file.now source.now.text.now)) }
{
    match accepted(alloc, source)? {
        Ok(program) => reported(alloc, report, source.text, &program),
        Err(answer) => Ok(answer),
    }
}

/// The answer to `request` for the program of `source` and the file `other`, or the answer that reports the fault of
/// `source`.
pub fn beside_answer(
    alloc: Global,
    request: Beside,
    source: &Named<'_>,
    other: &Named<'_>,
) -> Result<Answer, NoMemory>
    ensures { IfOk result
        (Meets (BesideAnswers request source.now.file.now other.now.file.now source.now.text.now other.now.text.now)) }
{
    let program = match accepted(alloc, source)? {
        Ok(program) => program,
        Err(answer) => return Ok(answer),
    };
    match request {
        Beside::Simulate => simulated(alloc, &program, other),
        Beside::Trace { sections, all } => {
            let trace = Trace {
                text: source.text,
                program: &program,
                moves: !sections,
                all,
            };
            traced(alloc, &trace, other)
        }
        Beside::Replay(judging) => replayed(alloc, &program, judging, other),
    }
}

/// Runs each script of the program of `source` in a thread of its own, and returns the answer to `run`; or the answer
/// that reports the fault of `source`.
pub fn threads_answer<R: Threads + Wait + Sync>(
    rt: &R,
    alloc: Global,
    running: RunOptions,
    source: &Named<'_>,
) -> Result<Answer, NoMemory>
    ensures { IfOk result (Meets (TextAnswers (IsThreadsRun running.times) source.now.file.now source.now.text.now)) }
{
    match accepted(alloc, source)? {
        Ok(program) => {
            let runs = ThreadRuns {
                threads: rt,
                alloc,
                program: &program,
                running,
                hashing: KeyedState::of(source.text),
            };
            runs.answer()
        }
        Err(answer) => Ok(answer),
    }
}
