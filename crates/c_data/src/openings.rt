//! The functions that open and close the state. The one error is a refused growth.

ghost use Rattle.std.specs.Prelude.{◌≡◌, OnOk};
ghost use Rattle.locks.specs.Texts.{AddsText};
ghost use Rattle.c_data.specs.Openings as text;

use crate::places::{push_object, push_owner, push_under_lock, push_variable, struct_of};
use crate::writer::DataWriter;
use c_statements::names::{push_number, push_zero};
use core_lang::shape::{Array, Object, Pool};
use core_lang::typed::{
    Cell, CellOwner, Field, FinalField, GlobalVariable, LockClass, LockField, Struct, Typed,
};
use core_lang::value::Value;
use std::alloc::AllocError;

/// Appends the statement that opens a lock field of a pool's member at index i.
#[tactic(auto, unfolding(crate::specs::Openings::lock_opened))]
fn push_lock_opened(out: &mut String, pool: &Pool, lock: &LockField) -> Result<(), AllocError>
    ensures { OnOk result (AddsText (text.lock_opened pool.now lock.now) out.old out.new) }
{
    write!(
        out,
        "    AL_MUTEX_OPEN(&s->p_{}[i].l_{});\n",
        pool.name, lock.name
    )
}

/// Appends the statement that sets a final reference to NULL.
#[tactic(auto, unfolding(crate::specs::Openings::final_opened))]
fn push_final_opened(out: &mut String, pool: &Pool, field: &FinalField) -> Result<(), AllocError>
    ensures { OnOk result (AddsText (text.final_opened pool.now field.now) out.old out.new) }
{
    write!(out, "    s->p_{}[i].f_{} = NULL;\n", pool.name, field.name)
}

/// Appends the statement that sets a field to 0 or NULL.
#[tactic(auto, unfolding(crate::specs::Openings::field_opened))]
fn push_field_opened(out: &mut String, pool: &Pool, field: &Field) -> Result<(), AllocError>
    ensures { OnOk result (AddsText (text.field_opened pool.now field.now) out.old out.new) }
{
    write!(out, "    s->p_{}[i].f_{} = ", pool.name, field.name)?;
    push_zero(out, field.value_type)?;
    out.push_str(";\n")
}

/// Appends the statements that open the lock fields of a member.
fn push_locks_opened(out: &mut String, pool: &Pool, structure: &Struct) -> Result<(), AllocError>
    ensures { OnOk result (AddsText (text.locks_opened pool.now structure.now) out.old out.new) }
{
    for lock in &structure.locks {
        push_lock_opened(out, pool, lock)?;
    }
    Ok(())
}

/// Appends the statements that set the final references and fields of a member to 0 or NULL.
fn push_fields_opened(out: &mut String, pool: &Pool, structure: &Struct) -> Result<(), AllocError>
    ensures { OnOk result (AddsText (text.fields_opened pool.now structure.now) out.old out.new) }
{
    for final_field in &structure.finals {
        push_final_opened(out, pool, final_field)?;
    }
    for field in &structure.fields {
        push_field_opened(out, pool, field)?;
    }
    Ok(())
}

/// Appends the statements for the member of a pool at index i, whose struct is `structure`.
fn push_member_opened(out: &mut String, pool: &Pool, structure: &Struct) -> Result<(), AllocError>
    ensures { OnOk result (AddsText (text.member_opened pool.now structure.now) out.old out.new) }
{
    push_locks_opened(out, pool, structure)?;
    push_fields_opened(out, pool, structure)
}

/// Appends the loop that closes a lock field of a pool's members.
fn push_lock_closed(out: &mut String, pool: &Pool, lock: &LockField) -> Result<(), AllocError>
    ensures { OnOk result (AddsText (text.lock_closed pool.now lock.now) out.old out.new) }
{
    write!(out, "  for (i = 0; i < {}; i++) ", pool.length)?;
    write!(
        out,
        "AL_MUTEX_CLOSE(&s->p_{}[i].l_{});\n",
        pool.name, lock.name
    )
}

/// Appends the loops that close the lock fields of a pool's members.
fn push_locks_closed(out: &mut String, pool: &Pool, structure: &Struct) -> Result<(), AllocError>
    ensures { OnOk result (AddsText (text.locks_closed pool.now structure.now) out.old out.new) }
{
    for lock in &structure.locks {
        push_lock_closed(out, pool, lock)?;
    }
    Ok(())
}

/// Appends the statement that opens a global lock; nothing for a lock field, which is opened with its objects.
fn push_class_opened(out: &mut String, class: &LockClass) -> Result<(), AllocError>
    ensures { OnOk result (AddsText (text.class_opened class.now) out.old out.new) }
{
    match class {
        LockClass::Global(name) => write!(out, "  AL_MUTEX_OPEN(&s->g_{name}.lock);\n"),
        LockClass::Field { .. } => Ok(()),
    }
}

/// Appends the statement that closes a global lock; nothing for a lock field.
fn push_class_closed(out: &mut String, class: &LockClass) -> Result<(), AllocError>
    ensures { OnOk result (AddsText (text.class_closed class.now) out.old out.new) }
{
    match class {
        LockClass::Global(name) => write!(out, "  AL_MUTEX_CLOSE(&s->g_{name}.lock);\n"),
        LockClass::Field { .. } => Ok(()),
    }
}

/// Appends the loop over a pool's members.
#[tactic(auto, unfolding(crate::specs::Openings::pool_opened))]
fn push_pool_opened(out: &mut String, program: &Typed, pool: &Pool) -> Result<(), AllocError>
    ensures { OnOk result (AddsText (text.pool_opened program.now pool.now) out.old out.new) }
{
    write!(out, "  for (i = 0; i < {}; i++) {{\n", pool.length)?;
    push_members_opened(out, program, pool)?;
    out.push_str("  }\n")
}

/// Appends the statements for the member at index i.
fn push_members_opened(out: &mut String, program: &Typed, pool: &Pool) -> Result<(), AllocError>
    ensures { OnOk result (AddsText (text.members_opened program.now pool.now) out.old out.new) }
{
    match program.structs.get(pool.structure) {
        Some(structure) => push_member_opened(out, pool, structure),
        None => Ok(()),
    }
}

/// Appends the loops that close the lock fields of a pool's members.
fn push_pool_closed(out: &mut String, program: &Typed, pool: &Pool) -> Result<(), AllocError>
    ensures { OnOk result (AddsText (text.pool_closed program.now pool.now) out.old out.new) }
{
    match program.structs.get(pool.structure) {
        Some(structure) => push_locks_closed(out, pool, structure),
        None => Ok(()),
    }
}

/// Appends the first value of a cell, which is 0 or NULL.
fn push_cell_zero(out: &mut String, program: &Typed, cell: u32) -> Result<(), AllocError>
    ensures { OnOk result (AddsText (text.cell_zero program.now cell) out.old out.new) }
{
    match program.cells.get(cell as usize) {
        Some(cell) => push_zero(out, cell.value_type),
        None => Ok(()),
    }
}

/// Appends the statement that sets a global to 0 or NULL.
fn push_global_opened(
    out: &mut String,
    program: &Typed,
    global: &GlobalVariable,
) -> Result<(), AllocError>
    ensures { OnOk result (AddsText (text.global_opened program.now global.now) out.old out.new) }
{
    out.push_str("  ")?;
    push_variable(out, program, global)?;
    out.push_str(" = ")?;
    push_cell_zero(out, program, global.cell)?;
    out.push_str(";\n")
}

/// Appends the loop that sets the elements of an array to 0 or NULL.
#[tactic(auto, unfolding(crate::specs::Openings::array_opened))]
fn push_array_opened(out: &mut String, program: &Typed, array: &Array) -> Result<(), AllocError>
    ensures { OnOk result (AddsText (text.array_opened program.now array.now) out.old out.new) }
{
    write!(out, "  for (i = 0; i < {}; i++) ", array.length)?;
    push_under_lock(out, program, array.class, array.name.as_str())?;
    out.push_str("[i] = ")?;
    push_zero(out, array.element)?;
    out.push_str(";\n")
}

/// Appends the statement that sets a cell to a number, if that is not 0.
fn push_number_opened(
    out: &mut String,
    program: &Typed,
    owner: CellOwner,
    number: i64,
) -> Result<(), AllocError>
    ensures { OnOk result (AddsText (text.number_opened program.now owner number) out.old out.new) }
{
    if number == 0 {
        return Ok(());
    }
    out.push_str("  ")?;
    push_owner(out, program, owner)?;
    out.push_str(" = ")?;
    push_number(out, number)?;
    out.push_str(";\n")
}

/// Appends the statement that sets a cell to a reference.
fn push_reference_opened(
    out: &mut String,
    program: &Typed,
    owner: CellOwner,
    object: usize,
) -> Result<(), AllocError>
    ensures { OnOk result (AddsText (text.reference_opened program.now owner object) out.old out.new) }
{
    out.push_str("  ")?;
    push_owner(out, program, owner)?;
    out.push_str(" = &")?;
    push_object(out, program, object)?;
    out.push_str(";\n")
}

/// Appends the statement that sets a cell to its opening value, if that is neither 0 nor null.
fn push_cell_opened(out: &mut String, program: &Typed, cell: &Cell) -> Result<(), AllocError>
    ensures { OnOk result (AddsText (text.cell_opened program.now cell.now) out.old out.new) }
{
    match cell.opening {
        Value::Int(number) => push_number_opened(out, program, cell.owner, number),
        Value::Ref(None) => Ok(()),
        Value::Ref(Some(object)) => {
            push_reference_opened(out, program, cell.owner, object as usize)
        }
    }
}

/// Appends the object at `place` among those that final references name.
fn push_named(out: &mut String, program: &Typed, place: usize) -> Result<(), AllocError>
    ensures { OnOk result (AddsText (text.named_object program.now place) out.old out.new) }
{
    match program.shape.finals.get(place) {
        Some(object) => push_object(out, program, *object as usize),
        None => Ok(()),
    }
}

/// Appends the statement that sets a final reference of an object, the one at `place`, to the object that it names.
fn push_final_named(
    out: &mut String,
    program: &Typed,
    object: usize,
    place: usize,
    field: &FinalField,
) -> Result<(), AllocError>
    ensures { OnOk result (AddsText (text.final_named program.now object place field.now) out.old out.new) }
{
    out.push_str("  ")?;
    push_object(out, program, object)?;
    write!(out, ".f_{} = &", field.name)?;
    push_named(out, program, place)?;
    out.push_str(";\n")
}

/// Appends those statements for the final references of an object, the first of which is the one at `first`.
fn push_finals_named(
    out: &mut String,
    program: &Typed,
    object: usize,
    first: u32,
    structure: &Struct,
) -> Result<(), AllocError>
    ensures { OnOk result (AddsText
        (text.finals_named program.now object first structure.now.finals.items) out.old out.new) }
{
    let first = first as usize;
    for (number, field) in structure.finals.iter().enumerate() {
        push_final_named(out, program, object, first + number, field)?;
    }
    Ok(())
}

/// Appends those statements for the final references of `object`.
#[tactic(auto, unfolding(crate::specs::Openings::object_named))]
fn push_object_named(
    out: &mut String,
    program: &Typed,
    number: usize,
    object: &Object,
) -> Result<(), AllocError>
    ensures { OnOk result (AddsText (text.object_named program.now number object.now) out.old out.new) }
{
    match struct_of(program, number) {
        Some(structure) => push_finals_named(out, program, number, object.finals, structure),
        None => Ok(()),
    }
}

/// Appends the statements that open all locks, and set everything else to 0 or NULL.
fn push_zeros(out: &mut String, program: &Typed) -> Result<(), AllocError>
    ensures { OnOk result (AddsText (text.zeros_text program.now) out.old out.new) }
{
    for pool in &program.shape.pools {
        push_pool_opened(out, program, pool)?;
    }
    for class in &program.classes {
        push_class_opened(out, class)?;
    }
    for global in &program.globals {
        push_global_opened(out, program, global)?;
    }
    for array in &program.shape.arrays {
        push_array_opened(out, program, array)?;
    }
    Ok(())
}

/// Appends the statements for the final references, object after object.
fn push_all_named(out: &mut String, program: &Typed) -> Result<(), AllocError>
    ensures { OnOk result (AddsText (text.all_named program.now) out.old out.new) }
{
    for (number, object) in program.shape.objects.iter().enumerate() {
        push_object_named(out, program, number, object)?;
    }
    Ok(())
}

/// Appends the statements for the opening values and for the final references.
fn push_values(out: &mut String, program: &Typed) -> Result<(), AllocError>
    ensures { OnOk result (AddsText (text.values_text program.now) out.old out.new) }
{
    for cell in &program.cells {
        push_cell_opened(out, program, cell)?;
    }
    push_all_named(out, program)
}

/// Appends the statements that close all locks.
fn push_all_closed(out: &mut String, program: &Typed) -> Result<(), AllocError>
    ensures { OnOk result (AddsText (text.all_closed program.now) out.old out.new) }
{
    for pool in &program.shape.pools {
        push_pool_closed(out, program, pool)?;
    }
    for class in &program.classes {
        push_class_closed(out, class)?;
    }
    Ok(())
}

impl DataWriter<'_> {
    // Appends the function that opens the state.
    fn push_open(&self, out: &mut String) -> Result<(), AllocError>
        ensures { OnOk result (AddsText
            (text.open_text self.now.names.prefix.now self.now.names.program.now) out.old out.new) }
    {
        let prefix = self.names.prefix;
        write!(
            out,
            "void {prefix}Open(struct {prefix}State *s)\n{{\n  int64_t i;\n"
        )?;
        push_zeros(out, self.names.program)?;
        push_values(out, self.names.program)?;
        out.push_str("  s->history = NULL;\n  (void)i;\n}\n")
    }

    // Appends the function that returns the size of the state.
    fn push_size(&self, out: &mut String) -> Result<(), AllocError>
        ensures { OnOk result (AddsText (text.size_text self.now.names.prefix.now) out.old out.new) }
    {
        let prefix = self.names.prefix;
        write!(
            out,
            "size_t {prefix}Size(void)\n{{\n  return sizeof(struct {prefix}State);\n}}\n"
        )
    }

    // Appends the function that returns the members of a pool.
    fn push_member(&self, out: &mut String, pool: &Pool) -> Result<(), AllocError>
        ensures { OnOk result (AddsText
            (text.member_text self.now.names.prefix.now self.now.names.program.now pool.now) out.old out.new) }
    {
        self.push_member_prototype(out, pool)?;
        write!(out, "\n{{\n  return i >= 0 && i < {}", pool.length)?;
        write!(out, " ? &s->p_{}[i] : NULL;\n}}\n", pool.name)
    }

    // Appends those functions for all pools.
    fn push_pool_members(&self, out: &mut String) -> Result<(), AllocError>
        ensures { OnOk result (AddsText
            (text.members_text self.now.names.prefix.now self.now.names.program.now) out.old out.new) }
    {
        for pool in &self.names.program.shape.pools {
            self.push_member(out, pool)?;
        }
        Ok(())
    }

    // Appends the function that closes the state.
    fn push_close(&self, out: &mut String) -> Result<(), AllocError>
        ensures { OnOk result (AddsText
            (text.close_text self.now.names.prefix.now self.now.names.program.now) out.old out.new) }
    {
        let prefix = self.names.prefix;
        write!(
            out,
            "void {prefix}Close(struct {prefix}State *s)\n{{\n  int64_t i;\n"
        )?;
        push_all_closed(out, self.names.program)?;
        out.push_str("  (void)i;\n  (void)s;\n}\n")
    }

    /// Appends all four kinds of functions. The one error is a refused growth.
    #[tactic(auto, unfolding(crate::specs::Openings::openings_text))]
    pub fn push_openings(&self, out: &mut String) -> Result<(), AllocError>
        ensures { OnOk result (AddsText
            (text.openings_text self.now.names.prefix.now self.now.names.program.now) out.old out.new) }
    {
        self.push_open(out)?;
        self.push_size(out)?;
        self.push_pool_members(out)?;
        self.push_close(out)
    }
}
