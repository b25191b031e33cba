//! The answers of `simulate` for a program.

ghost use Rattle.std.specs.Prelude.{◌≡◌, IfOk, string_bytes};
ghost use Rattle.driver.specs.Working.Answering.{Meets, IsMessage};
ghost use Rattle.code.specs.Listing.{line};
ghost use Rattle.interleavings.specs.Items.{turns_in};
ghost use Rattle.input_files.specs.Steps.{steps_fault_text, Answers};
ghost use Rattle.driver.specs.Simulations.{IsSimulated};

use crate::answer::{Answer, Named};
use crate::status::Status;
use input_files::steps_refusal::{StepsFault, StepsRefusal};
use input_files::turn::Turn;
use input_files::{read_items, steps_fault_line};
use interleavings::items::turns_of;
use interleavings::world::run;
use lowering::compiled::Program;
use report_runs::simulation_text;
use rope::Rope;
use source::memory::NoMemory;
use std::alloc::Global;

/// The answer that reports `fault` of the steps file.
pub fn bad_steps(alloc: Global, steps: &Named<'_>, fault: StepsFault) -> Result<Answer, NoMemory>
    ensures { IfOk result
        (IsMessage Status.BadInput (line (steps_fault_text steps.now.file.now steps.now.text.now fault))) }
{
    let line = steps_fault_line(alloc, steps.file, steps.text, fault)?;
    Answer::refused(alloc, Status::BadInput, line)
}

/// The turns that the items of a steps file expand to. Where the text has a `T!` or a `T+`, this runs the steps to find
/// how many they are; the caller runs them once more.
///
/// # Errors
///
/// The fault of the steps file, or `NoMemory`.
pub fn turns_in(alloc: Global, program: &Program, text: &[u8]) -> Result<Vec<Turn>, StepsRefusal>
    ensures { Answers result (turns_in program.now text.now) }
{
    match read_items(alloc, text, &program.expanded().threads) {
        Ok(items) => turns_of(alloc, program, &items),
        Err(refusal) => Err(refusal),
    }
}

/// The answer to `simulate`: the text of the world after the steps, or the fault of the steps file.
pub fn simulated(alloc: Global, program: &Program, steps: &Named<'_>) -> Result<Answer, NoMemory>
    ensures { IfOk result (Meets (IsSimulated steps.now.file.now steps.now.text.now program.now)) }
{
    let turns = match turns_in(alloc, program, steps.text) {
        Ok(turns) => turns,
        Err(StepsRefusal::Fault(fault)) => return bad_steps(alloc, steps, fault),
        Err(StepsRefusal::NoMemory) => return Err(NoMemory),
    };
    let world = run(alloc, program, &turns)?;
    let out = simulation_text(alloc, &world)?;
    Ok(Answer::done(alloc, Rope::of(alloc, out)))
}
