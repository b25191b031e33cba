//! Writes the parts of lines, each appended to a text. The only error is a failed allocation.

ghost use Rattle.std.specs.Prelude.{◌≡◌, OnOk};
ghost use Rattle.std.specs.Option.{option_copied};
ghost use Rattle.locks.specs.Texts.{AddsText};
ghost use Rattle.report.specs.Pieces as text;

use core_lang::shape::{Pool, Shape};
use core_lang::typed::{CellOwner, LockClass, Typed};
use core_lang::value::{Outcome, Value};
use locks::lock::Lock;
use locks::text::push_last;
use std::alloc::AllocError;

/// Appends the name of a section.
fn push_section(out: &mut String, program: &Typed, section: usize) -> Result<(), AllocError>
    ensures { OnOk result (AddsText (text.section_name program.now section) out.old out.new) }
{
    match program.sections.get(section) {
        Some(section) => out.push_str(section.name.as_str()),
        None => Ok(()),
    }
}

/// The pool that has an object.
fn pool_of(shape: &Shape, object: usize) -> Option<&Pool>
    ensures { option_copied result ≡ text.pool_of shape.now object }
{
    match shape.objects.get(object) {
        Some(object) => shape.pools.get(object.pool),
        None => None,
    }
}

/// Appends an object, as `p[0]`.
fn push_object(out: &mut String, shape: &Shape, object: usize) -> Result<(), AllocError>
    ensures { OnOk result (AddsText (text.object_text shape.now object) out.old out.new) }
{
    match pool_of(shape, object) {
        Some(pool) => {
            let member = object.saturating_sub(pool.first as usize);
            write!(out, "{}[{member}]", pool.name)
        }
        None => Ok(()),
    }
}

/// Appends a number, `null` or an object. The only error is a failed allocation.
pub fn push_value(out: &mut String, shape: &Shape, value: Value) -> Result<(), AllocError>
    ensures { OnOk result (AddsText (text.value_text shape.now value) out.old out.new) }
{
    match value {
        Value::Int(number) => write!(out, "{number}"),
        Value::Ref(None) => out.push_str("null"),
        Value::Ref(Some(object)) => push_object(out, shape, object as usize),
    }
}

/// Appends what precedes the name of a lock: for an object's lock, the object and a dot.
fn push_lock_owner(out: &mut String, program: &Typed, lock: Lock) -> Result<(), AllocError>
    ensures { OnOk result (AddsText (text.lock_owner program.now lock) out.old out.new) }
{
    match program.classes.get(lock.class) {
        Some(LockClass::Field { .. }) => {
            push_object(out, &program.shape, lock.object as usize)?;
            out.push_str(".")
        }
        Some(LockClass::Global(_)) => Ok(()),
        None => Ok(()),
    }
}

/// Appends a lock, as `G` or `p[0].l`.
///
/// # Errors
///
/// Out of memory.
pub fn push_lock(out: &mut String, program: &Typed, lock: Lock) -> Result<(), AllocError>
    ensures { OnOk result (AddsText (text.lock_text program.now lock) out.old out.new) }
{
    push_lock_owner(out, program, lock)?;
    push_last(out, program, lock.class)
}

/// Appends values with a comma and a space between them.
fn push_values(out: &mut String, shape: &Shape, values: &[Value]) -> Result<(), AllocError>
    ensures { OnOk result (AddsText (text.values_text shape.now values.now) out.old out.new) }
{
    let Some((first, rest)) = values.split_first() else {
        return Ok(());
    };
    push_value(out, shape, *first)?;
    for value in rest {
        out.push_str(", ")?;
        push_value(out, shape, *value)?;
    }
    Ok(())
}

/// Appends a call with its arguments, as `inc(1, p[0])`.
///
/// # Errors
///
/// Out of memory.
pub fn push_invocation(
    out: &mut String,
    program: &Typed,
    section: usize,
    arguments: &[Value],
) -> Result<(), AllocError>
    ensures { OnOk result (AddsText (text.invocation_text program.now section arguments.now) out.old out.new) }
{
    push_section(out, program, section)?;
    out.push_str("(")?;
    push_values(out, &program.shape, arguments)?;
    out.push_str(")")
}

/// Appends how a call ended: `ends`, `returns V` or `traps N`.
///
/// # Errors
///
/// Out of memory.
pub fn push_outcome(out: &mut String, shape: &Shape, outcome: Outcome) -> Result<(), AllocError>
    ensures { OnOk result (AddsText (text.outcome_text shape.now outcome) out.old out.new) }
{
    match outcome {
        Outcome::Ends => out.push_str("ends"),
        Outcome::Returns(value) => {
            out.push_str("returns ")?;
            push_value(out, shape, value)
        }
        Outcome::Traps(trap) => {
            let number = trap.number();
            write!(out, "traps {number}")
        }
    }
}

/// Appends the name of a global that is not an array.
fn push_global(out: &mut String, program: &Typed, global: usize) -> Result<(), AllocError>
    ensures { OnOk result (AddsText (text.global_name program.now global) out.old out.new) }
{
    match program.globals.get(global) {
        Some(global) => out.push_str(global.name.as_str()),
        None => Ok(()),
    }
}

/// Appends the name of an array.
fn push_array(out: &mut String, shape: &Shape, array: usize) -> Result<(), AllocError>
    ensures { OnOk result (AddsText (text.array_name shape.now array) out.old out.new) }
{
    match shape.arrays.get(array) {
        Some(array) => out.push_str(array.name.as_str()),
        None => Ok(()),
    }
}

/// Appends the name of a field of an object.
fn push_field(
    out: &mut String,
    program: &Typed,
    object: usize,
    field: usize,
) -> Result<(), AllocError>
    ensures { OnOk result (AddsText (text.field_name program.now object field) out.old out.new) }
{
    let Some(pool) = pool_of(&program.shape, object) else {
        return Ok(());
    };
    let Some(structure) = program.structs.get(pool.structure) else {
        return Ok(());
    };
    match structure.fields.get(field) {
        Some(field) => out.push_str(field.name.as_str()),
        None => Ok(()),
    }
}

/// Appends a cell, as `n`, `a[0]` or `p[0].x`. The only error is a failed allocation.
pub fn push_owner(out: &mut String, program: &Typed, owner: CellOwner) -> Result<(), AllocError>
    ensures { OnOk result (AddsText (text.owner_text program.now owner) out.old out.new) }
{
    match owner {
        CellOwner::Global(global) => push_global(out, program, global),
        CellOwner::Element { array, index } => {
            push_array(out, &program.shape, array)?;
            write!(out, "[{index}]")
        }
        CellOwner::Field { object, field } => {
            push_object(out, &program.shape, object)?;
            out.push_str(".")?;
            push_field(out, program, object, field)
        }
    }
}
