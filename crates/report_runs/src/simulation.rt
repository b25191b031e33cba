//! The simulation text.

ghost use Rattle.std.specs.Prelude.{◌≡◌, OnOk, IfOk, string_bytes};
ghost use Rattle.locks.specs.Texts.{AddsText};
ghost use Rattle.report_runs.specs.Simulation.{present_text, cells_text, status_text, thread_text, threads_text, simulation_of};

use core_lang::shape::Shape;
use core_lang::typed::Typed;
use core_lang::value::Value;
use input_files::Format;
use interleavings::status::ThreadStatus;
use interleavings::world::World;
use report::pieces::{push_lock, push_owner, push_value};
use report::push_entries;
use source::memory::NoMemory;
use std::alloc::{AllocError, Global};

/// Appends the content of a cell, or that a section holds the cell.
fn push_present(out: &mut String, shape: &Shape, value: Option<Value>) -> Result<(), AllocError>
    ensures { OnOk result (AddsText (present_text shape.now value) out.old out.new) }
{
    match value {
        Some(value) => push_value(out, shape, value),
        None => out.push_str("held"),
    }
}

/// Appends a line for each cell.
fn push_cells(out: &mut String, world: &World<'_>) -> Result<(), AllocError>
    ensures { OnOk result (AddsText (cells_text world.now.plan world.now.world) out.old out.new) }
{
    let program = world.program().expanded();
    for (number, cell) in program.cells.iter().enumerate() {
        push_owner(out, program, cell.owner)?;
        out.push_str(" ")?;
        push_present(out, &program.shape, world.cell(number))?;
        out.push_str("\n")?;
    }
    Ok(())
}

/// Appends the status of a thread.
fn push_status(out: &mut String, program: &Typed, status: ThreadStatus) -> Result<(), AllocError>
    ensures { OnOk result (AddsText (status_text program.now status) out.old out.new) }
{
    match status {
        ThreadStatus::Idle => out.push_str("idle"),
        ThreadStatus::Ready => out.push_str("ready"),
        ThreadStatus::Waits(lock, holder) => {
            out.push_str("waits ")?;
            push_lock(out, program, lock)?;
            write!(out, " for {holder}")
        }
        ThreadStatus::Running => out.push_str("running"),
    }
}

/// Appends the line of `thread`.
fn push_thread(out: &mut String, world: &World<'_>, thread: u32) -> Result<(), AllocError>
    ensures { OnOk result (AddsText (thread_text world.now.plan world.now.world thread) out.old out.new) }
{
    write!(out, "{thread} ")?;
    push_status(out, world.program().expanded(), world.state(thread))?;
    out.push_str("\n")
}

/// Appends a line for each thread.
fn push_threads(out: &mut String, world: &World<'_>) -> Result<(), AllocError>
    ensures { OnOk result (AddsText (threads_text world.now.plan world.now.world) out.old out.new) }
{
    for thread in 0..world.program().threads() {
        push_thread(out, world, thread)?;
    }
    Ok(())
}

/// The text of a world: its finished sections in order, the content of each cell that no section holds, and the status
/// of each thread.
///
/// # Errors
///
/// `NoMemory`: a growth was refused.
pub fn simulation_text(alloc: Global, world: &World<'_>) -> Result<String, NoMemory>
    ensures { IfOk result (λ text. string_bytes text ≡ simulation_of world.now.plan world.now.world) }
{
    let program = world.program().expanded();
    let mut out = String::from_str(alloc, "simulation 1\n")?;
    push_entries(&mut out, Format::One, program, world.history())?;
    out.push_str("cells\n")?;
    push_cells(&mut out, world)?;
    out.push_str("threads\n")?;
    push_threads(&mut out, world)?;
    out.push_str("end\n")?;
    Ok(out)
}
