//! Writes the lines of a history, each appended to a text without its line feed. The only error is a failed allocation.

ghost use Rattle.std.specs.Prelude.{◌≡◌, OnOk};
ghost use Rattle.locks.specs.Texts.{AddsText};
ghost use Rattle.report.specs.Entry.{scheduled_called};
ghost use Rattle.report.specs.History.{begun_text, call_head, print_line, cell_line};

use crate::pieces::{push_invocation, push_owner, push_value};
use crate::record::CallRef;
use core_lang::typed::{Cell, Typed};
use core_lang::value::Value;
use input_files::Format;
use std::alloc::AllocError;

/// Appends the length of the history at a call's begin, if the format has it.
fn push_begun(out: &mut String, format: Format, begun: usize) -> Result<(), AllocError>
    ensures { OnOk result (AddsText (begun_text format begun) out.old out.new) }
{
    match format {
        Format::One => Ok(()),
        Format::Two => write!(out, "{begun} "),
    }
}

/// Appends the line of a call up to its end: `call T K NAME(ARGS) `, in the second format `call T K B NAME(ARGS) `.
///
/// # Errors
///
/// Out of memory.
pub fn push_call_head(
    out: &mut String,
    format: Format,
    program: &Typed,
    call: &CallRef<'_>,
) -> Result<(), AllocError>
    ensures { OnOk result
        (AddsText (call_head format program.now (scheduled_called call.now) call.now.begun) out.old out.new) }
{
    write!(out, "call {} {} ", call.thread, call.step)?;
    push_begun(out, format, call.begun)?;
    push_invocation(out, program, call.section, call.arguments)?;
    out.push_str(" ")
}

/// Appends `print N`.
///
/// # Errors
///
/// Out of memory.
pub fn push_print(out: &mut String, number: i64) -> Result<(), AllocError>
    ensures { OnOk result (AddsText (print_line number) out.old out.new) }
{
    write!(out, "print {number}")
}

/// Appends a cell and its value: `n V`, `a[0] V` or `p[0].x V`.
///
/// # Errors
///
/// Out of memory.
pub fn push_cell(
    out: &mut String,
    program: &Typed,
    cell: &Cell,
    value: Value,
) -> Result<(), AllocError>
    ensures { OnOk result (AddsText (cell_line program.now cell.now value) out.old out.new) }
{
    push_owner(out, program, cell.owner)?;
    out.push_str(" ")?;
    push_value(out, &program.shape, value)
}
