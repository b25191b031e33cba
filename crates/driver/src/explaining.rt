//! The engine of `explain`.

ghost use Rattle.std.specs.Prelude.{◌≡◌, [], false, IfOk, string_bytes};
ghost use Rattle.driver.specs.Working.Answering.{Meets, IsAcceptedAnswer, IsExplainedAnswer};
ghost use Rattle.driver.specs.Working.Answering.{acceptance_told_of, fault_told_of};
ghost use Rattle.driver.specs.Answers.{OfOne};
ghost use Rattle.driver.specs.Engines.{Serves, reading_of};
ghost use Rattle.driver.specs.Explanations.{ExplainAnswers, in_color};
ghost use Rattle.driver.specs.Requests.{AloneAnswers};
ghost use Rattle.driver.specs.Streams.{name_of, reading_failed, writing_failed};

use crate::answer::{Answer, Named};
use crate::engine::SOURCE_LIMIT;
use crate::source_text::SourceText;
use crate::status::Status;
use crate::streams::Streams;
use driver_words::{Alone, Color};
use explanation::{Acceptance, Explanation, accepted_json, fault_json};
use explanations::{Diagnosis, told_of};
use painting::painted;
use rope::Rope;
use source::memory::NoMemory;
use std::alloc::Global;
use std::io::{Read, Write};

/// `text`, in colours where `color` asks for them. `Auto` has been settled by the program, and leaves the text as it
/// is.
fn in_color(alloc: Global, color: Color, text: String) -> Result<String, NoMemory>
    ensures { IfOk result (λ out. string_bytes out ≡ in_color color (string_bytes text)) }
{
    match color {
        Color::Always => Ok(painted(alloc, &text)?),
        Color::Auto | Color::Never => Ok(text),
    }
}

/// The explanation of a fault, as JSON or as a text.
fn fault_told(
    alloc: Global,
    json: bool,
    color: Color,
    explanation: &Explanation<'_>,
) -> Result<String, NoMemory>
    ensures { IfOk result (λ out. string_bytes out ≡ fault_told_of json color explanation.now) }
{
    if json {
        return fault_json(alloc, explanation);
    }
    in_color(alloc, color, explanation.text(alloc)?)
}

/// The report of an accepted program, as JSON or as a text.
fn acceptance_told(
    alloc: Global,
    json: bool,
    color: Color,
    acceptance: &Acceptance<'_>,
) -> Result<String, NoMemory>
    ensures { IfOk result (λ out. string_bytes out ≡ acceptance_told_of json color acceptance.now) }
{
    if json {
        return accepted_json(alloc, acceptance);
    }
    in_color(alloc, color, acceptance.text(alloc)?)
}

/// The answer to `explain` for a program with a fault.
fn explained(
    alloc: Global,
    json: bool,
    color: Color,
    explanation: &Explanation<'_>,
) -> Result<Answer, NoMemory>
    ensures { IfOk result (IsExplainedAnswer json color explanation.now) }
{
    let out = fault_told(alloc, json, color, explanation)?;
    Ok(Answer::written(alloc, Status::Refused, Rope::of(alloc, out)))
}

/// The answer to `explain` for an accepted program.
fn accepted(
    alloc: Global,
    json: bool,
    color: Color,
    acceptance: &Acceptance<'_>,
) -> Result<Answer, NoMemory>
    ensures { IfOk result (IsAcceptedAnswer json color acceptance.now) }
{
    let out = acceptance_told(alloc, json, color, acceptance)?;
    Ok(Answer::done(alloc, Rope::of(alloc, out)))
}

/// The answer to `explain` for `source`.
fn explain_answer(
    alloc: Global,
    json: bool,
    color: Color,
    source: &Named<'_>,
) -> Result<Answer, NoMemory>
    ensures { IfOk result (Meets (ExplainAnswers json color source.now.file.now source.now.text.now)) }
{
    let Named { file, text } = *source;
    match told_of(alloc, text)? {
        Diagnosis::Faulty {
            fault,
            notes,
            further,
        } => {
            let explanation = Explanation {
                file,
                text,
                fault: &fault,
                notes: &notes,
                further: &further,
            };
            explained(alloc, json, color, &explanation)
        }
        Diagnosis::Accepted { notes, warnings } => {
            let acceptance = Acceptance {
                file,
                text,
                notes: &notes,
                warnings: &warnings,
            };
            accepted(alloc, json, color, &acceptance)
        }
    }
}

/// Explains the fault of the program of `source`: writes to `out` the line that reports the fault, its source line,
/// notes on where a lock order cycle comes from, a suggested fix, and further faults of names and types, in colours
/// where `color` asks for them. Where `json` is true, the same is written as a JSON object in one line. Returns how
/// that ended, as [`serve`](crate::serve) does, but:
///
/// - `Refused`: the program has a fault, and its explanation was written to `out`; nothing was written to `err`.
/// - `Done`: the program does not have a fault. Written to `out` were the line `accepted`, the lock class of each rank, the
///   reason of each pair of classes of which the first has to come before the second, and the warnings.
pub fn explain<S: Read, O: Write, E: Write>(
    alloc: Global,
    json: bool,
    color: Color,
    source: &mut SourceText<'_, S>,
    streams: &mut Streams<O, E>,
) -> Status
    requires readable { reading_failed source.old ≡ false }
    requires writable { writing_failed streams.old.out ≡ false }
    ensures { Serves (OfOne (AloneAnswers (Alone.Explain json color) (name_of source.old)))
        (reading_of S.remaining source.old source.new) []
        O.contents E.contents streams.old streams.new result }
{
    explanation::laws::shown_by_first_bytes();
    explanation::json_laws::fault_by_first_bytes();
    let text = match streams.read(alloc, source, SOURCE_LIMIT) {
        Ok(text) => text,
        Err(status) => return status,
    };
    let named = Named {
        file: source.name(),
        text: &text,
    };
    let answer = explain_answer(alloc, json, color, &named);
    streams.give(&answer)
}
