//! The places of cells and objects in the state. The one error is a refused growth.

ghost use Rattle.std.specs.Prelude.{◌≡◌, ◌+◌, OnOk};
ghost use Rattle.std.specs.Option.{option_copied};
ghost use Rattle.locks.specs.Texts.{AddsText};
ghost use Rattle.c_statements.specs.Names as names;
ghost use Rattle.c_data.specs.Openings as text;

use core_lang::shape::Pool;
use core_lang::typed::{CellOwner, GlobalVariable, Struct, Typed};
use locks::text::push_class;
use std::alloc::AllocError;

/// The pool of `object`, if there is the object.
pub fn pool_of(program: &Typed, object: usize) -> Option<&Pool>
    ensures { option_copied result ≡ text.pool_of program.now object }
{
    match program.shape.objects.get(object) {
        Some(object) => program.shape.pools.get(object.pool),
        None => None,
    }
}

/// The struct of `object`, if there is the object.
pub fn struct_of(program: &Typed, object: usize) -> Option<&Struct>
    ensures { option_copied result ≡ text.struct_of program.now object }
{
    match pool_of(program, object) {
        Some(pool) => program.structs.get(pool.structure),
        None => None,
    }
}

/// Appends an object, as `s->p_p[0]`.
pub fn push_object(out: &mut String, program: &Typed, object: usize) -> Result<(), AllocError>
    ensures { OnOk result (AddsText (text.object_place program.now object) out.old out.new) }
{
    match pool_of(program, object) {
        Some(pool) => {
            let member = object.saturating_sub(pool.first as usize);
            write!(out, "s->p_{}[{member}]", pool.name)
        }
        None => Ok(()),
    }
}

/// Appends the name of a field of a struct.
fn push_field_name(out: &mut String, structure: &Struct, field: usize) -> Result<(), AllocError>
    ensures { OnOk result (AddsText (text.field_name field structure.now) out.old out.new) }
{
    match structure.fields.get(field) {
        Some(field) => out.push_str(field.name.as_str()),
        None => Ok(()),
    }
}

/// Appends the name of a field of an object.
fn push_field_of(
    out: &mut String,
    program: &Typed,
    object: usize,
    field: usize,
) -> Result<(), AllocError>
    ensures { OnOk result (AddsText (text.field_of program.now object field) out.old out.new) }
{
    match struct_of(program, object) {
        Some(structure) => push_field_name(out, structure, field),
        None => Ok(()),
    }
}

/// Appends what a global lock protects, as `s->g_G.x_n`.
pub fn push_under_lock(
    out: &mut String,
    program: &Typed,
    class: usize,
    name: &str,
) -> Result<(), AllocError>
    ensures { OnOk result (AddsText (names.under_lock program.now class name.now) out.old out.new) }
{
    out.push_str("s->g_")?;
    push_class(out, program, class)?;
    out.push_str(".x_")?;
    out.push_str(name)
}

/// Appends a global that is not an array.
pub fn push_variable(
    out: &mut String,
    program: &Typed,
    global: &GlobalVariable,
) -> Result<(), AllocError>
    ensures { OnOk result (AddsText (names.variable_of program.now global.now) out.old out.new) }
{
    push_under_lock(out, program, global.class, global.name.as_str())
}

/// Appends a global that is not an array, by its number.
fn push_global(out: &mut String, program: &Typed, global: usize) -> Result<(), AllocError>
    ensures { OnOk result (AddsText (text.global_place program.now global) out.old out.new) }
{
    match program.globals.get(global) {
        Some(global) => push_variable(out, program, global),
        None => Ok(()),
    }
}

/// Appends an array, by its number.
fn push_array(out: &mut String, program: &Typed, array: usize) -> Result<(), AllocError>
    ensures { OnOk result (AddsText (names.array_text program.now array) out.old out.new) }
{
    match program.shape.arrays.get(array) {
        Some(array) => push_under_lock(out, program, array.class, array.name.as_str()),
        None => Ok(()),
    }
}

/// Appends what a cell is part of, as `s->g_G.x_n`, `s->g_G.x_a[0]` or `s->p_p[0].f_x`.
pub fn push_owner(out: &mut String, program: &Typed, owner: CellOwner) -> Result<(), AllocError>
    ensures { OnOk result (AddsText (text.owner_place program.now owner) out.old out.new) }
{
    match owner {
        CellOwner::Global(global) => push_global(out, program, global),
        CellOwner::Element { array, index } => {
            push_array(out, program, array)?;
            write!(out, "[{index}]")
        }
        CellOwner::Field { object, field } => {
            push_object(out, program, object)?;
            out.push_str(".f_")?;
            push_field_of(out, program, object, field)
        }
    }
}
