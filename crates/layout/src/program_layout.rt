//! The layout of a program.

ghost use Rattle.std.specs.Prelude.{IfOk};
ghost use Rattle.core_lang.specs.WellFormed.{IsWellFormed};
ghost use Rattle.layout.specs.Layouts.{IsLayoutOf};

use crate::numbering::Numbering;
use crate::protection::lock_of_cell;
use crate::table::Layout;
use core_lang::typed::Typed;
use source::memory::NoMemory;
use std::alloc::Global;

/// The layout of a program.
///
/// # Errors
///
/// Out of memory.
pub fn lay_out(alloc: Global, program: &Typed) -> Result<Layout, NoMemory>
    requires { IsWellFormed program.now }
    ensures { IfOk result (IsLayoutOf program.now) }
{
    let numbering = Numbering::of(alloc, program)?;
    let mut layout = Layout::without_cells(alloc, numbering, program.cells.len())?;
    for cell in 0..program.cells.len() {
        layout.add(program.cells[cell].opening, lock_of_cell(program, cell))?;
    }
    Ok(layout)
}
