//! The text of a history.

ghost use Rattle.std.specs.Prelude.{◌≡◌, OnOk, IfOk, length, vec_len, string_bytes, map};
ghost use Rattle.std.specs.List.{flat_map};
ghost use Rattle.code.specs.Listing.{line};
ghost use Rattle.locks.specs.Texts.{AddsText};
ghost use Rattle.input_files.specs.Lines.{header_of};
ghost use Rattle.input_files.specs.declared.format.Format.TheVariants.{One};
ghost use Rattle.report.specs.History.{call_text, entry_text, print_texts, cell_texts, closing_of, commit_texts, calls_of, history_of, unsettled_of};
ghost use Rattle.report.specs.History.{changed_history_of, changed_texts, changes_of};
ghost use Rattle.report.specs.Entry.{entry_of, entry_said, entry_of_commit};

use crate::lines::{push_call_head, push_cell, push_print};
use crate::pieces::push_outcome;
use crate::record::{Record, RecordRef, said_of};
use crate::values::is_value;
use core_lang::typed::{Cell, Typed};
use core_lang::value::Value;
use history::entries::History;
use input_files::Format;
use source::memory::NoMemory;
use std::alloc::{AllocError, Global};

/// Appends a line for each print.
fn push_prints(out: &mut String, prints: &[i64]) -> Result<(), AllocError>
    ensures { OnOk result (AddsText (print_texts prints.now) out.old out.new) }
{
    for number in prints {
        push_print(out, *number)?;
        out.push_str("\n")?;
    }
    Ok(())
}

/// Appends the line of a call.
fn push_call(
    out: &mut String,
    format: Format,
    program: &Typed,
    call: &RecordRef<'_>,
) -> Result<(), AllocError>
    ensures { OnOk result (AddsText (call_text format program.now (entry_said call.now)) out.old out.new) }
{
    push_call_head(out, format, program, &call.call)?;
    push_outcome(out, &program.shape, call.outcome)?;
    out.push_str("\n")
}

/// Appends the line of a call, with its prints.
fn push_entry(
    out: &mut String,
    format: Format,
    program: &Typed,
    call: &RecordRef<'_>,
) -> Result<(), AllocError>
    ensures { OnOk result (AddsText (entry_text format program.now (entry_said call.now)) out.old out.new) }
{
    push_call(out, format, program, call)?;
    push_prints(out, call.prints)
}

/// Appends the line of each call, with its prints.
fn push_records(
    out: &mut String,
    format: Format,
    program: &Typed,
    calls: &[Record<'_>],
) -> Result<(), AllocError>
    ensures { OnOk result
        (AddsText (flat_map (entry_text format program.now) (map entry_of calls.now)) out.old out.new) }
{
    for call in calls {
        push_entry(out, format, program, &call.said())?;
    }
    Ok(())
}

/// Appends the line of each finished section, with its prints. The only error is a failed allocation.
pub fn push_entries(
    out: &mut String,
    format: Format,
    program: &Typed,
    history: &History,
) -> Result<(), AllocError>
    ensures { OnOk result (AddsText (commit_texts format program.now history.now.commits) out.old out.new) }
{
    for position in 0..history.len() {
        push_entry(out, format, program, &said_of(&history.get(position)))?;
    }
    Ok(())
}

/// Appends a line for each cell.
fn push_cells(
    out: &mut String,
    program: &Typed,
    cells: &[Cell],
    values: &[Value],
) -> Result<(), AllocError>
    ensures { OnOk result (AddsText (cell_texts program.now cells.now values.now) out.old out.new) }
{
    for (i, cell) in cells.iter().enumerate() {
        let Some(value) = values.get(i) else {
            return Ok(());
        };
        push_cell(out, program, cell, *value)?;
        out.push_str("\n")?;
    }
    Ok(())
}

/// Appends a line for each cell whose value differs from its initial one.
fn push_changed(
    out: &mut String,
    program: &Typed,
    cells: &[Cell],
    values: &[Value],
) -> Result<(), AllocError>
    ensures { OnOk result (AddsText (changed_texts program.now cells.now values.now) out.old out.new) }
{
    for (i, cell) in cells.iter().enumerate() {
        let Some(value) = values.get(i) else {
            return Ok(());
        };
        if !is_value(*value, cell.opening) {
            push_cell(out, program, cell, *value)?;
            out.push_str("\n")?;
        }
    }
    Ok(())
}

/// Appends the line `cells`, a line for each cell whose value differs from its initial one, and the line `end`.
fn push_changes(out: &mut String, program: &Typed, values: &[Value]) -> Result<(), AllocError>
    ensures { OnOk result (AddsText (changes_of program.now values.now) out.old out.new) }
{
    out.push_str("cells\n")?;
    push_changed(out, program, &program.cells, values)?;
    out.push_str("end\n")
}

/// Appends the line `cells`, a line for each cell of the program with its value, by the cells' numbers, and the line
/// `end`.
///
/// # Errors
///
/// Out of memory.
pub fn push_closing(out: &mut String, program: &Typed, values: &[Value]) -> Result<(), AllocError>
    ensures { OnOk result (AddsText (closing_of program.now values.now) out.old out.new) }
{
    out.push_str("cells\n")?;
    push_cells(out, program, &program.cells, values)?;
    out.push_str("end\n")
}

/// The first line.
fn first_line(alloc: Global, format: Format) -> Result<String, AllocError>
    ensures { IfOk result (λ text. string_bytes text ≡ line (header_of format)) }
{
    let mut out = String::from_str(alloc, format.header())?;
    out.push_str("\n")?;
    Ok(out)
}

/// The first line, and the lines of the calls.
fn calls_text(
    alloc: Global,
    format: Format,
    program: &Typed,
    calls: &[Record<'_>],
) -> Result<String, NoMemory>
    ensures { IfOk result (λ text. string_bytes text ≡ calls_of format program.now (map entry_of calls.now)) }
{
    let mut out = first_line(alloc, format)?;
    push_records(&mut out, format, program, calls)?;
    Ok(out)
}

/// The text of these calls of the program, in this order, and of the values of all its cells, by the cells' numbers.
/// The only error is a failed allocation.
pub fn history_text(
    alloc: Global,
    format: Format,
    program: &Typed,
    calls: &[Record<'_>],
    values: &[Value],
) -> Result<String, NoMemory>
    requires { vec_len program.now.cells ≡ length values.now }
    ensures { IfOk result
        (λ text. string_bytes text ≡ history_of format program.now (map entry_of calls.now) values.now) }
{
    let mut out = calls_text(alloc, format, program, calls)?;
    push_closing(&mut out, program, values)?;
    Ok(out)
}

/// The text of these calls of the program, in this order, and of the cells whose values differ from their initial ones.
/// `values` has the values of all cells, by the cells' numbers. The only error is a failed allocation.
pub fn changed_text(
    alloc: Global,
    program: &Typed,
    calls: &[Record<'_>],
    values: &[Value],
) -> Result<String, NoMemory>
    requires { vec_len program.now.cells ≡ length values.now }
    ensures { IfOk result
        (λ text. string_bytes text ≡ changed_history_of program.now (map entry_of calls.now) values.now) }
{
    let mut out = calls_text(alloc, Format::One, program, calls)?;
    push_changes(&mut out, program, values)?;
    Ok(out)
}

/// The text of these finished sections of the program, in this order, and of the values of all its cells, by the cells'
/// numbers: that of [`history_text`] for their records. The only error is a failed allocation.
pub fn entries_text(
    alloc: Global,
    format: Format,
    program: &Typed,
    history: &History,
    values: &[Value],
) -> Result<String, NoMemory>
    requires { vec_len program.now.cells ≡ length values.now }
    ensures { IfOk result (λ text. string_bytes text
        ≡ history_of format program.now (map entry_of_commit history.now.commits) values.now) }
{
    let mut out = first_line(alloc, format)?;
    push_entries(&mut out, format, program, history)?;
    push_closing(&mut out, program, values)?;
    Ok(out)
}

/// The text of these calls, and a last line that names the call after them, which is not settled within the turns: call
/// `step` of thread `thread`, both from 0. The only error is a failed allocation.
pub fn unsettled_text(
    alloc: Global,
    program: &Typed,
    calls: &[Record<'_>],
    thread: usize,
    step: usize,
) -> Result<String, NoMemory>
    ensures { IfOk result (λ text. string_bytes text ≡ unsettled_of program.now (map entry_of calls.now) thread step) }
{
    let mut out = calls_text(alloc, Format::One, program, calls)?;
    write!(&mut out, "unsettled {thread} {step}\n")?;
    Ok(out)
}
