//! The engines over readers and writers.

ghost use Rattle.std.specs.Prelude.{◌≡◌, [], ◌∷◌, false};
ghost use Rattle.driver.specs.Answers.{OfOne, OfTwo};
ghost use Rattle.driver.specs.Engines.{Serves, reading_of};
ghost use Rattle.driver.specs.Requests.{AloneAnswers, BesideAnswers};
ghost use Rattle.driver.specs.Streams.{name_of, reading_failed, writing_failed};

use crate::answer::{Named, beside_answer, report_answer, threads_answer};
use crate::explaining::explain;
use crate::formats::format;
use crate::ordering::order_graph;
use crate::source_text::SourceText;
use crate::status::Status;
use crate::streams::Streams;
use driver_words::{Alone, Beside, ReplayOptions, Report, RunOptions};
use source::limits;
use std::alloc::Global;
use std::io::{Read, Write};
use std::sync::Wait;
use std::thread::Threads;

/// The limit on a program's text, in bytes.
pub(crate) const SOURCE_LIMIT: u64 = limits::SOURCE_LIMIT as u64;

/// A number of bytes that no file exceeds.
const ALL_BYTES: u64 = u64::MAX - 1;

/// Answers a request that reads only the program's file, which is `source`. Threads come from `threads`. The text of
/// the answer is written to `out`, its message to `err`. Returns how that ended:
///
/// - `Done`: what was asked for was written to `out`.
/// - `Refused`: the program has a fault, which is reported on `err`, or on `out` where it is to be explained. Where the
///   locks have no order, the graph of their classes is written to `out` too.
/// - `Unsettled`: a call meets a loop that goes on after the given number of turns. The text is that of the calls before
///   this call, and a line that names it.
/// - `Strange`: a thread found another history than it had left, which is reported on `err`.
/// - `Failed`: exactly where a reader or `out` is marked as failed. The first file that was not read is reported on `err`,
///   or that writing failed. Where reading failed, nothing was written to `out`. A file that can't be opened counts as one
///   that can't be read.
/// - `OutOfMemory`: a growth was refused, which is reported on `err`; nothing was written to `out`. A thread that can't be
///   started has this status too.
///
/// With a status other than `Failed` and `OutOfMemory` the file was read to its end, unless the program is too long. A
/// failure of `err` does not change the status. Like all engines, it reads at most one byte past the source limit. It
/// returns if all calls that run in threads of their own return.
pub fn serve<R: Threads + Wait + Sync, S: Read, O: Write, E: Write>(
    threads: &R,
    alloc: Global,
    request: Alone<'_>,
    source: &mut SourceText<'_, S>,
    streams: &mut Streams<O, E>,
) -> Status
    requires readable { reading_failed source.old ≡ false }
    requires writable { writing_failed streams.old.out ≡ false }
    ensures { Serves (OfOne (AloneAnswers request.entry (name_of source.old)))
        (reading_of S.remaining source.old source.new) []
        O.contents E.contents streams.old streams.new result }
{
    match request {
        Alone::Report(report) => serve_report(alloc, report, source, streams),
        Alone::Order => order_graph(alloc, source, streams),
        Alone::Explain { json, color } => explain(alloc, json, color, source, streams),
        Alone::Format => format(alloc, source, streams),
        Alone::Run(running) => run(threads, alloc, running, source, streams),
    }
}

/// Answers `report` for the program of `source`, as [`serve`] does, without threads.
pub fn serve_report<S: Read, O: Write, E: Write>(
    alloc: Global,
    report: Report<'_>,
    source: &mut SourceText<'_, S>,
    streams: &mut Streams<O, E>,
) -> Status
    requires readable { reading_failed source.old ≡ false }
    requires writable { writing_failed streams.old.out ≡ false }
    ensures { Serves (OfOne (AloneAnswers (Alone.Report report.entry) (name_of source.old)))
        (reading_of S.remaining source.old source.new) []
        O.contents E.contents streams.old streams.new result }
{
    let text = match streams.read(alloc, source, SOURCE_LIMIT) {
        Ok(text) => text,
        Err(status) => return status,
    };
    let named = Named {
        file: source.name(),
        text: &text,
    };
    let answer = report_answer(alloc, report, &named);
    streams.give(&answer)
}

/// Answers a request that reads the program's file `source` and a second file `other`, both of which are read before
/// either is judged. Ends as [`serve`] does, or with one of two more statuses:
///
/// - `BadInput`: `other` has a fault, which is reported on `err`.
/// - `Differs`: a line of a history is not one that may come there.
pub fn serve_beside<S: Read, T: Read, O: Write, E: Write>(
    alloc: Global,
    request: Beside,
    source: &mut SourceText<'_, S>,
    other: &mut SourceText<'_, T>,
    streams: &mut Streams<O, E>,
) -> Status
    requires readable { reading_failed source.old ≡ false }
    requires other_readable { reading_failed other.old ≡ false }
    requires writable { writing_failed streams.old.out ≡ false }
    ensures { Serves (OfTwo (BesideAnswers request (name_of source.old) (name_of other.old)))
        (reading_of S.remaining source.old source.new) (reading_of T.remaining other.old other.new ∷ [])
        O.contents E.contents streams.old streams.new result }
{
    let text = match streams.read(alloc, source, SOURCE_LIMIT) {
        Ok(text) => text,
        Err(status) => return status,
    };
    let items = match streams.read(alloc, other, ALL_BYTES) {
        Ok(items) => items,
        Err(status) => return status,
    };
    let named = Named {
        file: source.name(),
        text: &text,
    };
    let other_named = Named {
        file: other.name(),
        text: &items,
    };
    let answer = beside_answer(alloc, request, &named, &other_named);
    streams.give(&answer)
}

/// Writes the order in which the program of `source` acquires its locks, and the locks that it acquires before each
/// statement. Ends as [`serve`] does.
pub fn check<S: Read, O: Write, E: Write>(
    alloc: Global,
    source: &mut SourceText<'_, S>,
    streams: &mut Streams<O, E>,
) -> Status
    requires readable { reading_failed source.old ≡ false }
    requires writable { writing_failed streams.old.out ≡ false }
    ensures { Serves (OfOne (AloneAnswers (Alone.Report (Report.Check false)) (name_of source.old)))
        (reading_of S.remaining source.old source.new) []
        O.contents E.contents streams.old streams.new result }
{
    serve_report(alloc, Report::Check { source: false }, source, streams)
}

/// Writes the instructions of each section of the program of `source`. Ends as [`serve`] does.
pub fn listing<S: Read, O: Write, E: Write>(
    alloc: Global,
    source: &mut SourceText<'_, S>,
    streams: &mut Streams<O, E>,
) -> Status
    requires readable { reading_failed source.old ≡ false }
    requires writable { writing_failed streams.old.out ≡ false }
    ensures { Serves (OfOne (AloneAnswers (Alone.Report (Report.Listing false)) (name_of source.old)))
        (reading_of S.remaining source.old source.new) []
        O.contents E.contents streams.old streams.new result }
{
    serve_report(alloc, Report::Listing { places: false }, source, streams)
}

/// Runs all calls of the program of `source` one after another, thread 0's whole script first, then thread 1's, and so
/// on. Each execution of a loop makes at most `turns` turns. Writes the history text; where the turns don't settle a
/// call, it has the calls before that one. Ends as [`serve`] does.
pub fn serial<S: Read, O: Write, E: Write>(
    alloc: Global,
    turns: u64,
    source: &mut SourceText<'_, S>,
    streams: &mut Streams<O, E>,
) -> Status
    requires readable { reading_failed source.old ≡ false }
    requires writable { writing_failed streams.old.out ≡ false }
    ensures { Serves (OfOne (AloneAnswers (Alone.Report (Report.Serial turns false)) (name_of source.old)))
        (reading_of S.remaining source.old source.new) []
        O.contents E.contents streams.old streams.new result }
{
    let report = Report::Serial {
        turns,
        changed: false,
    };
    serve_report(alloc, report, source, streams)
}

/// Runs the steps of the file `steps` over the threads of the program of `source`, and writes the text of the world
/// after them. Ends as [`serve_beside`] does.
pub fn simulate<S: Read, T: Read, O: Write, E: Write>(
    alloc: Global,
    source: &mut SourceText<'_, S>,
    steps: &mut SourceText<'_, T>,
    streams: &mut Streams<O, E>,
) -> Status
    requires readable { reading_failed source.old ≡ false }
    requires steps_readable { reading_failed steps.old ≡ false }
    requires writable { writing_failed streams.old.out ≡ false }
    ensures { Serves (OfTwo (BesideAnswers Beside.Simulate (name_of source.old) (name_of steps.old)))
        (reading_of S.remaining source.old source.new) (reading_of T.remaining steps.old steps.new ∷ [])
        O.contents E.contents streams.old streams.new result }
{
    serve_beside(alloc, Beside::Simulate, source, steps, streams)
}

/// Compares the history in `history` with what the calls of the program of `source` answer, one after another, and
/// writes the verdict. Ends as [`serve_beside`] does.
pub fn replay<S: Read, T: Read, O: Write, E: Write>(
    alloc: Global,
    judging: ReplayOptions,
    source: &mut SourceText<'_, S>,
    history: &mut SourceText<'_, T>,
    streams: &mut Streams<O, E>,
) -> Status
    requires readable { reading_failed source.old ≡ false }
    requires history_readable { reading_failed history.old ≡ false }
    requires writable { writing_failed streams.old.out ≡ false }
    ensures { Serves (OfTwo (BesideAnswers (Beside.Replay judging) (name_of source.old) (name_of history.old)))
        (reading_of S.remaining source.old source.new) (reading_of T.remaining history.old history.new ∷ [])
        O.contents E.contents streams.old streams.new result }
{
    serve_beside(alloc, Beside::Replay(judging), source, history, streams)
}

/// Runs the script of each thread of the program of `source` in a thread of its own. Writes the history text in the
/// second format, or, where a number of runs is given, the text of how these runs differ. Each history is one that
/// `run_threads` promises. Ends as [`serve`] does, if all calls return.
pub fn run<R: Threads + Wait + Sync, S: Read, O: Write, E: Write>(
    rt: &R,
    alloc: Global,
    running: RunOptions,
    source: &mut SourceText<'_, S>,
    streams: &mut Streams<O, E>,
) -> Status
    requires readable { reading_failed source.old ≡ false }
    requires writable { writing_failed streams.old.out ≡ false }
    ensures { Serves (OfOne (AloneAnswers (Alone.Run running) (name_of source.old)))
        (reading_of S.remaining source.old source.new) []
        O.contents E.contents streams.old streams.new result }
{
    let text = match streams.read(alloc, source, SOURCE_LIMIT) {
        Ok(text) => text,
        Err(status) => return status,
    };
    let named = Named {
        file: source.name(),
        text: &text,
    };
    let answer = threads_answer(rt, alloc, running, &named);
    streams.give(&answer)
}
