//! The engine of `explain` for a code.

ghost use Rattle.std.specs.Prelude.{◌≡◌, false, IfOk};
ghost use Rattle.explanation.specs.CodePages.{page_text};
ghost use Rattle.driver.specs.Pages.{ServesPage};
ghost use Rattle.driver.specs.Streams.{writing_failed};
ghost use Rattle.driver.specs.Working.PagesAnswered.{IsPage};

use crate::answer::Answer;
use crate::status::Status;
use crate::streams::Streams;
use explanation::page;
use rope::Rope;
use source::fault::Code;
use source::memory::NoMemory;
use std::alloc::Global;
use std::io::Write;

/// The answer to `explain` for `code`: its page.
fn page_answer(alloc: Global, code: Code) -> Result<Answer, NoMemory>
    ensures { IfOk result (IsPage (page_text code)) }
{
    let text = page(alloc, code)?;
    Ok(Answer::done(alloc, Rope::of(alloc, text)))
}

/// Writes the page of the fault code `code` to `out`. Reads no file. Returns how that ended:
///
/// - `Done`: the page of the code was written to `out`.
/// - `Failed`: writing failed, which is reported on `err`.
/// - `OutOfMemory`: a growth was refused, which is reported on `err`; nothing was written to `out`.
///
/// A failure of `err` does not change the status.
pub fn explain_code<O: Write, E: Write>(
    alloc: Global,
    code: Code,
    streams: &mut Streams<O, E>,
) -> Status
    requires { writing_failed streams.old.out ≡ false }
    ensures { ServesPage (page_text code) O.contents E.contents streams.old streams.new result }
{
    let answer = page_answer(alloc, code);
    streams.give(&answer)
}
