//! The engine of `format`.

ghost use Rattle.std.specs.Prelude.{◌≡◌, [], false, IfOk};
ghost use Rattle.driver.specs.Answers.{OfOne};
ghost use Rattle.driver.specs.Engines.{Serves, reading_of};
ghost use Rattle.driver.specs.Formats.{FormatAnswers};
ghost use Rattle.driver.specs.Requests.{AloneAnswers};
ghost use Rattle.driver.specs.Streams.{name_of, reading_failed, writing_failed};
ghost use Rattle.driver.specs.Working.Answering.{Meets};

use crate::answer::{Answer, Named};
use crate::engine::SOURCE_LIMIT;
use crate::source_text::SourceText;
use crate::status::Status;
use crate::streams::Streams;
use driver_words::Alone;
use rope::Rope;
use source::fault::Refusal;
use source::line::fault_line;
use source::memory::NoMemory;
use std::alloc::Global;
use std::io::{Read, Write};

/// The answer to `format` for `source`.
fn format_answer(alloc: Global, source: &Named<'_>) -> Result<Answer, NoMemory>
    ensures { IfOk result (Meets (FormatAnswers source.now.file.now source.now.text.now)) }
{
    match formatting::format(alloc, source.text) {
        Ok(out) => Ok(Answer::done(alloc, Rope::of_bytes(alloc, out))),
        Err(Refusal::Fault(fault)) => {
            let line = fault_line(alloc, source.file, source.text, &fault)?;
            Answer::refused(alloc, Status::Refused, line)
        }
        Err(Refusal::NoMemory) => Err(NoMemory),
    }
}

/// Writes the text of `source` to `out` in its layout: the same tokens and comments, with other gaps between them.
/// Names and types are not checked. Returns how that ended, as [`serve`](crate::serve) does:
///
/// - `Done`: the layout was written to `out`.
/// - `Refused`: the text has a lexical or a syntax fault, which is reported on `err`.
pub fn format<S: Read, O: Write, E: Write>(
    alloc: Global,
    source: &mut SourceText<'_, S>,
    streams: &mut Streams<O, E>,
) -> Status
    requires readable { reading_failed source.old ≡ false }
    requires writable { writing_failed streams.old.out ≡ false }
    ensures { Serves (OfOne (AloneAnswers Alone.Format (name_of source.old)))
        (reading_of S.remaining source.old source.new) []
        O.contents E.contents streams.old streams.new result }
{
    let text = match streams.read(alloc, source, SOURCE_LIMIT) {
        Ok(text) => text,
        Err(status) => return status,
    };
    let named = Named {
        file: source.name(),
        text: &text,
    };
    let answer = format_answer(alloc, &named);
    streams.give(&answer)
}
