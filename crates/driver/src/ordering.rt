//! The engine of `order`.

ghost use Rattle.std.specs.Prelude.{◌≡◌, [], false, IfOk, string_bytes};
ghost use Rattle.code.specs.Listing.{line};
ghost use Rattle.compiler.specs.Cycles.{IsCyclic};
ghost use Rattle.compiler.specs.Programs.{IsOfFirstPass};
ghost use Rattle.compiler.specs.Working.Orders.{IsOrdered};
ghost use Rattle.source.specs.Faults.{fault_text};
ghost use Rattle.driver.specs.Answers.{OfOne};
ghost use Rattle.driver.specs.Engines.{Serves, reading_of};
ghost use Rattle.driver.specs.OrderGraphs.{OrderAnswers};
ghost use Rattle.driver.specs.Requests.{AloneAnswers};
ghost use Rattle.driver.specs.Streams.{name_of, reading_failed, writing_failed};
ghost use Rattle.driver.specs.Working.Answering.{Meets};

use crate::answer::{Answer, Named};
use crate::engine::SOURCE_LIMIT;
use crate::source_text::SourceText;
use crate::status::Status;
use crate::streams::Streams;
use compiler::{Cyclic, Ordered, examine};
use driver_words::Alone;
use lockorder::class_pairs;
use report_check::{CyclicOrder, Order};
use rope::Rope;
use source::fault::{Fault, Refusal};
use source::line::fault_line;
use source::memory::NoMemory;
use std::alloc::Global;
use std::io::{Read, Write};

/// The answer to `order` for an accepted program: the graph of its lock classes.
fn ordered(alloc: Global, source: &Named<'_>, found: &Ordered) -> Result<Answer, NoMemory>
    requires { IsOrdered source.now.text.now found.now }
    ensures { IfOk result (Meets (OrderAnswers source.now.file.now source.now.text.now)) }
{
    let program = found.trees.program();
    let pairs = class_pairs(alloc, program, &found.paths)?;
    let order = Order {
        text: source.text,
        program,
        ranks: &found.ranks,
        pairs: &pairs,
    };
    Ok(Answer::done(alloc, Rope::of(alloc, order.text(alloc)?)))
}

/// The line that reports `fault`, with a line feed.
fn told_line(alloc: Global, source: &Named<'_>, fault: &Fault) -> Result<String, NoMemory>
    ensures { IfOk result
        (λ told. string_bytes told ≡ line (fault_text source.now.file.now source.now.text.now fault.now)) }
{
    let mut told = fault_line(alloc, source.file, source.text, fault)?;
    told.push_str("\n")?;
    Ok(told)
}

/// The answer to `order` where the lock classes are on a cycle: the graph with the cycle's edges marked, and the
/// fault's line.
fn cyclic(alloc: Global, source: &Named<'_>, found: &Cyclic) -> Result<Answer, NoMemory>
    requires { IsCyclic source.now.text.now found.now }
    ensures { IfOk result (Meets (OrderAnswers source.now.file.now source.now.text.now)) }
{
    let program = found.trees.program();
    let pairs = class_pairs(alloc, program, &found.paths)?;
    let order = CyclicOrder {
        text: source.text,
        program,
        pairs: &pairs,
        cycle: &found.edges,
    };
    let err = told_line(alloc, source, &found.fault)?;
    Ok(Answer {
        status: Status::Refused,
        out: Rope::of(alloc, order.text(alloc)?),
        err,
    })
}

/// The answer that reports `fault`, which is without a detail.
fn faulty(alloc: Global, source: &Named<'_>, fault: &Fault) -> Result<Answer, NoMemory>
    requires given { IsOfFirstPass source.now.text.now fault.now }
    requires bare { string_bytes fault.now.detail ≡ [] }
    ensures { IfOk result (Meets (OrderAnswers source.now.file.now source.now.text.now)) }
{
    let line = fault_line(alloc, source.file, source.text, fault)?;
    Answer::refused(alloc, Status::Refused, line)
}

/// The answer to `order` for `source`.
fn order_answer(alloc: Global, source: &Named<'_>) -> Result<Answer, NoMemory>
    ensures { IfOk result (Meets (OrderAnswers source.now.file.now source.now.text.now)) }
{
    match examine(alloc, source.text) {
        Ok(Ok(found)) => ordered(alloc, source, &found),
        Ok(Err(found)) => cyclic(alloc, source, &found),
        Err(Refusal::Fault(fault)) => faulty(alloc, source, &fault),
        Err(Refusal::NoMemory) => Err(NoMemory),
    }
}

/// Writes which lock class of the program of `source` has to come before which, as a graph. Ends as
/// [`serve`](crate::serve) does. Where the classes are on a cycle, it ends with `Refused`, and the cycle's edges are
/// marked in the graph.
pub fn order_graph<S: Read, O: Write, E: Write>(
    alloc: Global,
    source: &mut SourceText<'_, S>,
    streams: &mut Streams<O, E>,
) -> Status
    requires readable { reading_failed source.old ≡ false }
    requires writable { writing_failed streams.old.out ≡ false }
    ensures { Serves (OfOne (AloneAnswers Alone.Order (name_of source.old)))
        (reading_of S.remaining source.old source.new) []
        O.contents E.contents streams.old streams.new result }
{
    let text = match streams.read(alloc, source, SOURCE_LIMIT) {
        Ok(text) => text,
        Err(status) => return status,
    };
    let named = Named {
        file: source.name(),
        text: &text,
    };
    let answer = order_answer(alloc, &named);
    streams.give(&answer)
}
