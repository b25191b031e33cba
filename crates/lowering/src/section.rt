//! The code of a section.

ghost use Rattle.std.specs.Prelude.{◌≡◌, IfOk};
ghost use Rattle.code.specs.Lowering.{section_code};
ghost use Rattle.code.specs.LineTables.{section_begins};
ghost use Rattle.code.specs.Needs.{operand_need};
ghost use Rattle.code.specs.Working.NumberLists.{number_lists};

use crate::emitter::Emitter;
use crate::sizes;
use code::section_code::SectionCode;
use core_lang::tree::Section;
use source::memory::NoMemory;
use std::alloc::Global;

/// The code of a section that has these lists before its points.
///
/// # Errors
///
/// Out of memory.
pub fn code_of(alloc: Global, section: &Section, lists: &[Vec<u8>]) -> Result<SectionCode, NoMemory>
    ensures instructions { IfOk result
        (λ made. made.instructions.items ≡ section_code (number_lists lists.now) section.now) }
    ensures begins { IfOk result (λ made. made.begins.items ≡ section_begins (number_lists lists.now) section.now) }
    ensures operands { IfOk result (λ made. made.operands ≡ operand_need section.now) }
{
    let mut emitter = Emitter::new(alloc, lists, sizes::of_section(section))?;
    emitter.block(&section.body)?;
    emitter.end(&section.result)?;
    let Emitter {
        begins,
        operands,
        code,
        ..
    } = emitter;
    Ok(SectionCode {
        instructions: code.instructions,
        begins,
        operands,
    })
}
