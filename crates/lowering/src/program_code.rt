//! The code of a program.

ghost use Rattle.std.specs.Prelude.{◌≡◌, IfOk};
ghost use Rattle.inserter.specs.Placement.{all_lists};
ghost use Rattle.code.specs.Lowering.{lists_at};
ghost use Rattle.code.specs.Working.NumberLists.{number_lists};
ghost use Rattle.lowering.specs.Working.Lowered.{IsCodeOf};

use crate::section::code_of;
use code::section_code::ProgramCode;
use core_lang::typed::Typed;
use inserter::placed::Placed;
use source::memory::NoMemory;
use std::alloc::Global;

/// The lists before the points of the section of this number, or none if it has no lists.
pub fn lists_before(placed: &Placed, section: usize) -> &[Vec<u8>]
    ensures { number_lists result.now ≡ lists_at (all_lists placed.now) section }
{
    match placed.sections.get(section) {
        Some(lists) => &lists.before,
        None => &[],
    }
}

/// The code of a program whose sections ask before their points for the lock paths of these lists.
///
/// # Errors
///
/// Out of memory.
pub fn lower(alloc: Global, program: &Typed, placed: &Placed) -> Result<ProgramCode, NoMemory>
    ensures { IfOk result (IsCodeOf program.now (all_lists placed.now)) }
{
    let mut sections = Vec::with_capacity(alloc, program.sections.len())?;
    for k in 0..program.sections.len() {
        let section = &program.sections[k];
        let lists = lists_before(placed, k);
        sections.push(code_of(alloc, section, lists)?)?;
    }
    Ok(ProgramCode { sections })
}
