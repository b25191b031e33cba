//! The most that runs of sections need.

ghost use Rattle.std.specs.Prelude.{IfOk};
ghost use Rattle.lockpaths.specs.Paths.{ArePaths};
ghost use Rattle.layout.specs.Layouts.{IsLayoutOf};
ghost use Rattle.lowering.specs.Working.Lowered.{IsCode};
ghost use Rattle.lowering.specs.Working.Rooms.{AreRoomsOf};

use crate::class_sizes::ClassSizes;
use code::section_code::ProgramCode;
use core_lang::typed::Typed;
use layout::room::Room;
use layout::table::Layout;
use lockpaths::table::Paths;
use source::memory::NoMemory;
use std::alloc::Global;

/// The most that one run of each section needs.
///
/// # Errors
///
/// Out of memory, or a room that doesn't fit 64 bits, for which there is no memory.
pub fn rooms(
    alloc: Global,
    program: &Typed,
    code: &ProgramCode,
    paths: &Paths,
    layout: &Layout,
) -> Result<Vec<Room>, NoMemory>
    requires code { IsCode program.now code.now }
    requires paths { ArePaths program.now paths.now }
    requires layout { IsLayoutOf program.now layout.now }
    ensures { IfOk result (λ rooms. AreRoomsOf program.now layout.now rooms.items) }
{
    let sizes = ClassSizes::of(alloc, program, layout)?;
    let mut rooms = Vec::with_capacity(alloc, program.sections.len())?;
    for k in 0..program.sections.len() {
        let section = &program.sections[k];
        let found = &paths.sections[k].paths;
        let Some(locks) = sizes.locks_under(program, found) else {
            return Err(NoMemory);
        };
        let Some(cells) = sizes.cells_under(found) else {
            return Err(NoMemory);
        };
        rooms.push(Room {
            locks,
            cells,
            operands: code.sections[k].operands,
            locals: section.locals.len(),
        })?;
    }
    Ok(rooms)
}
