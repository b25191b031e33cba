//! The answers of `schedule` for a program.

ghost use Rattle.std.specs.Prelude.{◌≡◌, IfOk};
ghost use Rattle.driver.specs.Working.Answering.{Meets};
ghost use Rattle.driver.specs.Schedules.{IsScheduled, scheduled_items};

use crate::answer::Answer;
use driver_words::ScheduleOptions;
use input_files::item::Item;
use interleavings::{drawn, rivals, steps_text};
use lowering::compiled::Program;
use rope::Rope;
use source::memory::NoMemory;
use std::alloc::Global;

/// The items of the steps file that `scheduling` asks for.
fn items_of(
    alloc: Global,
    program: &Program,
    scheduling: ScheduleOptions,
) -> Result<Vec<Item>, NoMemory>
    ensures { IfOk result (λ items. items.items ≡ scheduled_items scheduling program.now) }
{
    let length = scheduling.length as usize;
    if scheduling.worst {
        return rivals(alloc, program, length);
    }
    drawn(alloc, program, scheduling.seed, length)
}

/// The answer to `schedule`: a steps file of `program`.
pub fn scheduled(
    alloc: Global,
    program: &Program,
    scheduling: ScheduleOptions,
) -> Result<Answer, NoMemory>
    ensures { IfOk result (Meets (IsScheduled scheduling program.now)) }
{
    let items = items_of(alloc, program, scheduling)?;
    let out = steps_text(alloc, program.expanded(), &items)?;
    Ok(Answer::done(alloc, Rope::of(alloc, out)))
}
