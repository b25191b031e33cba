//! The points of all sections of a program.

ghost use Rattle.std.specs.Prelude.{IfOk};
ghost use Rattle.report_check.specs.Working.AllPoints.{AreAllPoints};

use core_lang::typed::Typed;
use flow::points::{PointRef, points_of};
use source::memory::NoMemory;
use std::alloc::Global;

/// The points of each section of a program, so that each section is visited once for the points of many edges.
///
/// # Errors
///
/// Out of memory.
pub fn points_of_sections<'a>(
    alloc: Global,
    program: &'a Typed,
) -> Result<Vec<Vec<PointRef<'a>>>, NoMemory>
    ensures { IfOk result (λ points. AreAllPoints program.now points.items) }
{
    let mut each = Vec::with_capacity(alloc, program.sections.len())?;
    for section in 0..program.sections.len() {
        let points = points_of(alloc, &program.sections[section])?;
        each.push(points)?;
    }
    Ok(each)
}
