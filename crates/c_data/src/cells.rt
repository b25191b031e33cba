//! The function that writes the cells. The one error is a refused growth.

ghost use Rattle.std.specs.Prelude.{◌≡◌, ◌++◌, OnOk, codes};
ghost use Rattle.c_statements.specs.Names.{variable_of};
ghost use Rattle.locks.specs.Texts.{AddsText};
ghost use Rattle.c_data.specs.Cells as text;

use crate::places::{pool_of, push_under_lock, push_variable};
use crate::writer::DataWriter;
use c_statements::names::push_struct;
use core_lang::shape::{Array, Pool};
use core_lang::typed::{Cell, CellOwner, Field, GlobalVariable, Struct};
use core_lang::value::ValueType;
use std::alloc::AllocError;

/// Appends the head of a loop of `count` turns.
fn push_loop(out: &mut String, count: u32) -> Result<(), AllocError>
    ensures { OnOk result (AddsText (text.loop_text count) out.old out.new) }
{
    write!(out, "  for (i = 0; i < {count}; i++) {{\n")
}

/// Appends the label of a field of a pool's members.
fn push_field_label(out: &mut String, pool: &Pool, field: &Field) -> Result<(), AllocError>
    ensures { OnOk result (AddsText (text.field_label pool.now field.now) out.old out.new) }
{
    write!(
        out,
        "    fprintf(f, \"{}[%\" PRId64 \"].{} \", i);\n",
        pool.name, field.name
    )
}

/// Appends the place of a field of a pool's members.
fn push_field_place(out: &mut String, pool: &Pool, field: &Field) -> Result<(), AllocError>
    ensures { OnOk result (AddsText (text.field_place pool.now field.now) out.old out.new) }
{
    write!(out, "s->p_{}[i].f_{}", pool.name, field.name)
}

/// Appends the label of an array's elements.
fn push_array_label(out: &mut String, array: &Array) -> Result<(), AllocError>
    ensures { OnOk result (AddsText (text.array_label array.now) out.old out.new) }
{
    write!(
        out,
        "    fprintf(f, \"{}[%\" PRId64 \"] \", i);\n",
        array.name
    )
}

/// Appends the label of a global.
fn push_global_label(out: &mut String, global: &GlobalVariable) -> Result<(), AllocError>
    ensures { OnOk result (AddsText (text.global_label global.now) out.old out.new) }
{
    write!(out, "  fputs(\"{} \", f);\n", global.name)
}

impl DataWriter<'_> {
    ghost use Rattle.c_data.specs.Working.Shown.{before_of, behind_of, global_of, array_of, array_place_of, element_of};
    ghost use Rattle.c_data.specs.Working.Shown.{field_of, fields_of, members_of, pool_shown_of, from_of, object_of};
    ghost use Rattle.c_data.specs.Working.Shown.{global_at, array_at, owner_of, cells_of, head_of, name_of};

    // Appends the text before the place of a value that is written.
    fn push_before(&self, out: &mut String, value_type: ValueType) -> Result<(), AllocError>
        ensures { OnOk result (AddsText (before_of self.now value_type) out.old out.new) }
    {
        match value_type {
            ValueType::Integer => out.push_str("    fprintf(f, \"%\" PRId64 \"\\n\", "),
            ValueType::Reference(structure) => {
                write!(out, "    {}Write_", self.names.prefix)?;
                push_struct(out, self.names.program, structure)?;
                out.push_str("(f, s, ")
            }
        }
    }

    // Appends the text after the place of a value that is written.
    fn push_behind(&self, out: &mut String, value_type: ValueType) -> Result<(), AllocError>
        ensures { OnOk result (AddsText (behind_of value_type) out.old out.new) }
    {
        match value_type {
            ValueType::Integer => out.push_str(");\n"),
            ValueType::Reference(_) => out.push_str(");\n    fputs(\"\\n\", f);\n"),
        }
    }

    // Appends the statements for a global with a value of this type.
    #[tactic(auto, unfolding(crate::specs::Cells::global_shown))]
    fn push_global_shown(
        &self,
        out: &mut String,
        value_type: ValueType,
        global: &GlobalVariable,
    ) -> Result<(), AllocError>
        ensures { OnOk result (AddsText (global_of self.now value_type global.now) out.old out.new) }
    {
        push_global_label(out, global)?;
        self.push_before(out, value_type)?;
        push_variable(out, self.names.program, global)?;
        self.push_behind(out, value_type)
    }

    // Appends the place of the element at index i.
    fn push_array_place(&self, out: &mut String, array: &Array) -> Result<(), AllocError>
        ensures { OnOk result (AddsText (array_place_of self.now array.now) out.old out.new) }
    {
        push_under_lock(out, self.names.program, array.class, array.name.as_str())?;
        out.push_str("[i]")
    }

    // Appends the statements for the element at index i.
    #[tactic(auto, unfolding(crate::specs::Cells::element_shown))]
    fn push_element_shown(&self, out: &mut String, array: &Array) -> Result<(), AllocError>
        ensures { OnOk result (AddsText (element_of self.now array.now) out.old out.new) }
    {
        push_array_label(out, array)?;
        self.push_before(out, array.element)?;
        self.push_array_place(out, array)?;
        self.push_behind(out, array.element)
    }

    // Appends the loop for an array.
    #[tactic(auto, unfolding(crate::specs::Cells::array_shown))]
    fn push_array_shown(&self, out: &mut String, array: &Array) -> Result<(), AllocError>
        ensures { OnOk result (AddsText (array_of self.now array.now) out.old out.new) }
    {
        push_loop(out, array.length)?;
        self.push_element_shown(out, array)?;
        out.push_str("  }\n")
    }

    // Appends the statements for a field of a pool's members.
    #[tactic(auto, unfolding(crate::specs::Cells::field_shown))]
    fn push_field_shown(
        &self,
        out: &mut String,
        pool: &Pool,
        field: &Field,
    ) -> Result<(), AllocError>
        ensures { OnOk result (AddsText (field_of self.now pool.now field.now) out.old out.new) }
    {
        push_field_label(out, pool, field)?;
        self.push_before(out, field.value_type)?;
        push_field_place(out, pool, field)?;
        self.push_behind(out, field.value_type)
    }

    // Appends the statements for the fields of a pool's members, whose struct is `structure`.
    fn push_fields_shown(
        &self,
        out: &mut String,
        pool: &Pool,
        structure: &Struct,
    ) -> Result<(), AllocError>
        ensures { OnOk result (AddsText (fields_of self.now pool.now structure.now) out.old out.new) }
    {
        for field in &structure.fields {
            self.push_field_shown(out, pool, field)?;
        }
        Ok(())
    }

    // Appends the statements for the member of a pool at index i.
    fn push_members_shown(&self, out: &mut String, pool: &Pool) -> Result<(), AllocError>
        ensures { OnOk result (AddsText (members_of self.now pool.now) out.old out.new) }
    {
        match self.names.program.structs.get(pool.structure) {
            Some(structure) => self.push_fields_shown(out, pool, structure),
            None => Ok(()),
        }
    }

    // Appends the loop for a pool.
    #[tactic(auto, unfolding(crate::specs::Cells::pool_shown))]
    fn push_pool_shown(&self, out: &mut String, pool: &Pool) -> Result<(), AllocError>
        ensures { OnOk result (AddsText (pool_shown_of self.now pool.now) out.old out.new) }
    {
        push_loop(out, pool.length)?;
        self.push_members_shown(out, pool)?;
        out.push_str("  }\n")
    }

    // Appends the loop for a pool, if `object` is its first member.
    fn push_from(&self, out: &mut String, object: usize, pool: &Pool) -> Result<(), AllocError>
        ensures { OnOk result (AddsText (from_of self.now object pool.now) out.old out.new) }
    {
        if pool.first as usize == object {
            return self.push_pool_shown(out, pool);
        }
        Ok(())
    }

    // Appends the loop for the pool of `object`, if the object is its first member.
    fn push_object_shown(&self, out: &mut String, object: usize) -> Result<(), AllocError>
        ensures { OnOk result (AddsText (object_of self.now object) out.old out.new) }
    {
        match pool_of(self.names.program, object) {
            Some(pool) => self.push_from(out, object, pool),
            None => Ok(()),
        }
    }

    // Appends the statements for the global with the number `global`.
    fn push_global_at(
        &self,
        out: &mut String,
        value_type: ValueType,
        global: usize,
    ) -> Result<(), AllocError>
        ensures { OnOk result (AddsText (global_at self.now value_type global) out.old out.new) }
    {
        match self.names.program.globals.get(global) {
            Some(global) => self.push_global_shown(out, value_type, global),
            None => Ok(()),
        }
    }

    // Appends the loop for the array with the number `array`.
    fn push_array_at(&self, out: &mut String, array: usize) -> Result<(), AllocError>
        ensures { OnOk result (AddsText (array_at self.now array) out.old out.new) }
    {
        match self.names.program.shape.arrays.get(array) {
            Some(array) => self.push_array_shown(out, array),
            None => Ok(()),
        }
    }

    // Appends the statements for what a cell is part of, if the cell is its first one.
    fn push_owner_shown(
        &self,
        out: &mut String,
        value_type: ValueType,
        owner: CellOwner,
    ) -> Result<(), AllocError>
        ensures { OnOk result (AddsText (owner_of self.now value_type owner) out.old out.new) }
    {
        match owner {
            CellOwner::Global(global) => self.push_global_at(out, value_type, global),
            CellOwner::Element { array, index } => {
                if index == 0 {
                    return self.push_array_at(out, array);
                }
                Ok(())
            }
            CellOwner::Field { object, field } => {
                if field == 0 {
                    return self.push_object_shown(out, object);
                }
                Ok(())
            }
        }
    }

    // Appends the statements for all cells.
    fn push_all_cells(&self, out: &mut String) -> Result<(), AllocError>
        ensures { OnOk result (AddsText (cells_of self.now) out.old out.new) }
    {
        for cell in &self.names.program.cells {
            self.push_owner_shown(out, cell.value_type, cell.owner)?;
        }
        Ok(())
    }

    // Appends the name of the function, and its first parameter.
    #[tactic(auto, unfolding(crate::specs::Cells::cells_name))]
    fn push_cells_name(&self, out: &mut String) -> Result<(), AllocError>
        ensures { OnOk result (AddsText (name_of self.now) out.old out.new) }
    {
        write!(out, "static void {}Cells(FILE *f, ", self.names.prefix)
    }

    // Appends the text before the cells.
    #[tactic(auto, unfolding(crate::specs::Cells::cells_head))]
    fn push_cells_head(&self, out: &mut String) -> Result<(), AllocError>
        ensures { OnOk result (AddsText (head_of self.now) out.old out.new) }
    {
        self.push_cells_name(out)?;
        self.push_state_pointer(out)?;
        out.push_str(")\n{\n  int64_t i = 0;\n  (void)s;\n  (void)i;\n  fputs(\"cells\\n\", f);\n")
    }

    /// Appends the function that writes the cells. The one error is a refused growth.
    pub fn push_cells(&self, out: &mut String) -> Result<(), AllocError>
        ensures { OnOk result (AddsText
            (text.cells_text self.now.names.prefix.now self.now.names.program.now) out.old out.new) }
    {
        self.push_cells_head(out)?;
        self.push_all_cells(out)?;
        out.push_str("  fputs(\"end\\n\", f);\n}\n")
    }
}
