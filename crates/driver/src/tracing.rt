//! The answers of `trace` for a program.

ghost use Rattle.std.specs.Prelude.{◌≡◌, IfOk, string_bytes};
ghost use Rattle.driver.specs.Working.Answering.{Meets};
ghost use Rattle.driver.specs.Traces.{IsTraceAnswer};

use crate::answer::{Answer, Named};
use crate::simulating::{bad_steps, turns_in};
use input_files::steps_refusal::StepsRefusal;
use report_runs::Trace;
use rope::Rope;
use source::memory::NoMemory;
use std::alloc::Global;

/// The answer to `trace`: a line for each reported step of a steps file, and the text of the world after them; or the
/// fault of the file.
pub fn traced(alloc: Global, trace: &Trace<'_>, steps: &Named<'_>) -> Result<Answer, NoMemory>
    ensures { IfOk result
        (Meets
        (IsTraceAnswer trace.now.moves trace.now.all steps.now.file.now trace.now.text.now steps.now.text.now
        trace.now.program.now)) }
{
    worlds::laws::every_run();
    let _shown = trace.program.expanded();
    let turns = match turns_in(alloc, trace.program, steps.text) {
        Ok(turns) => turns,
        Err(StepsRefusal::Fault(fault)) => return bad_steps(alloc, steps, fault),
        Err(StepsRefusal::NoMemory) => return Err(NoMemory),
    };
    let out = trace.text(alloc, &turns)?;
    Ok(Answer::done(alloc, Rope::of(alloc, out)))
}
