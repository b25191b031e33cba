//! Writes the items of a steps file.

ghost use Rattle.std.specs.Prelude.{◌≡◌, IfOk, OnOk, string_bytes};
ghost use Rattle.locks.specs.Texts.{AddsText};
ghost use Rattle.interleavings.specs.Schedules.{item_text, schedule_text, thread_name, until_text};

use core_lang::typed::Typed;
use input_files::item::{Item, Until};
use std::alloc::{AllocError, Global};

/// Appends the name of a thread.
fn push_thread(out: &mut String, program: &Typed, thread: u32) -> Result<(), AllocError>
    ensures { OnOk result (AddsText (thread_name program.now thread) out.old out.new) }
{
    match program.threads.get(thread as usize) {
        Some(thread) => out.push_str(&thread.name),
        None => Ok(()),
    }
}

/// Appends the end of an item: `*` and a count, `!` or `+`.
fn push_until(out: &mut String, until: Until) -> Result<(), AllocError>
    ensures { OnOk result (AddsText (until_text until) out.old out.new) }
{
    match until {
        Until::Count(count) => write!(out, "*{count}"),
        Until::Stop => out.push_str("!"),
        Until::CallEnd => out.push_str("+"),
    }
}

/// Appends the line of an item.
fn push_item(out: &mut String, program: &Typed, item: Item) -> Result<(), AllocError>
    ensures { OnOk result (AddsText (item_text program.now item) out.old out.new) }
{
    push_thread(out, program, item.thread)?;
    push_until(out, item.until)?;
    out.push_str("\n")
}

/// Appends the line of each item.
fn push_items(out: &mut String, program: &Typed, items: &[Item]) -> Result<(), AllocError>
    ensures { OnOk result (AddsText (schedule_text program.now items.now) out.old out.new) }
{
    for item in items {
        push_item(out, program, *item)?;
    }
    Ok(())
}

/// A steps file with these items: a line for each, with the name of its thread.
///
/// # Errors
///
/// Out of memory.
pub fn steps_text(alloc: Global, program: &Typed, items: &[Item]) -> Result<String, AllocError>
    ensures { IfOk result (λ text. string_bytes text ≡ schedule_text program.now items.now) }
{
    let mut out = String::new(alloc);
    push_items(&mut out, program, items)?;
    Ok(out)
}
