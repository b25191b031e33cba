//! The types of a program's C text. The one error is a refused growth.

ghost use Rattle.std.specs.Prelude.{◌≡◌, OnOk};
ghost use Rattle.std.specs.List.{flat_map};
ghost use Rattle.locks.specs.Texts.{AddsText};
ghost use Rattle.c_data.specs.Types as text;

use crate::writer::DataWriter;
use core_lang::shape::{Array, Pool};
use core_lang::typed::{Field, FinalField, GlobalVariable, LockClass, LockField, Struct};
use std::alloc::AllocError;

/// Whether `lock`, a lock field of the object itself, protects `field`.
fn is_under(lock: &LockField, field: &Field) -> bool
    ensures { result ≡ text.is_under lock.now field.now }
{
    field.protection.through.is_empty() && field.protection.class == lock.class
}

/// Whether some lock field of the struct protects `field`.
fn is_beside(structure: &Struct, field: &Field) -> bool
    ensures { result ≡ text.is_beside structure.now field.now }
{
    for lock in &structure.locks {
        if is_under(lock, field) {
            return true;
        }
    }
    false
}

/// Whether a struct is without members.
fn is_bare(structure: &Struct) -> bool
    ensures { result ≡ text.is_bare structure.now }
{
    structure.locks.is_empty() && structure.finals.is_empty() && structure.fields.is_empty()
}

/// The length of an array in C, where an array has at least one element.
fn room(length: u32) -> u32
    ensures { result ≡ text.room length }
{
    length.max(1)
}

impl DataWriter<'_> {
    // Appends the declaration of a struct's name, and the struct that a section with a reference as its result returns.
    fn push_announced(&self, out: &mut String, structure: &Struct) -> Result<(), AllocError>
        ensures { OnOk result (AddsText
            (text.announced_text self.now.names.prefix.now structure.now) out.old out.new) }
    {
        let prefix = self.names.prefix;
        write!(
            out,
            "struct {prefix}_{};\nstruct {prefix}Ref_{}",
            structure.name, structure.name
        )?;
        write!(
            out,
            " {{ int trap; struct {prefix}_{} *value; }};\n",
            structure.name
        )
    }

    // Appends a field of a struct.
    fn push_field(&self, out: &mut String, field: &Field) -> Result<(), AllocError>
        ensures { OnOk result (AddsText
            (text.field_text self.now.names.prefix.now self.now.names.program.now field.now) out.old out.new) }
    {
        out.push_str("  ")?;
        self.names.push_type(out, field.value_type)?;
        write!(out, "f_{};\n", field.name)
    }

    // Appends a final reference of a struct.
    fn push_final(&self, out: &mut String, field: &FinalField) -> Result<(), AllocError>
        ensures { OnOk result (AddsText
            (text.final_text self.now.names.prefix.now self.now.names.program.now field.now) out.old out.new) }
    {
        out.push_str("  ")?;
        self.names.push_struct_type(out, field.target)?;
        write!(out, " *f_{};\n", field.name)
    }

    // Appends a field, if `lock` protects it.
    fn push_under(
        &self,
        out: &mut String,
        lock: &LockField,
        field: &Field,
    ) -> Result<(), AllocError>
        ensures { OnOk result (AddsText
            (text.under_text self.now.names.prefix.now self.now.names.program.now lock.now field.now)
            out.old out.new) }
    {
        if is_under(lock, field) {
            self.push_field(out, field)
        } else {
            Ok(())
        }
    }

    // Appends the fields that a lock field protects.
    fn push_all_under(
        &self,
        out: &mut String,
        structure: &Struct,
        lock: &LockField,
    ) -> Result<(), AllocError>
        ensures { OnOk result (AddsText
            (text.all_under_text self.now.names.prefix.now self.now.names.program.now structure.now lock.now)
            out.old out.new) }
    {
        for field in &structure.fields {
            self.push_under(out, lock, field)?;
        }
        Ok(())
    }

    // Appends a lock field, and after it the fields that it protects.
    fn push_locked(
        &self,
        out: &mut String,
        structure: &Struct,
        lock: &LockField,
    ) -> Result<(), AllocError>
        ensures { OnOk result (AddsText
            (text.locked_text self.now.names.prefix.now self.now.names.program.now structure.now lock.now)
            out.old out.new) }
    {
        write!(out, "  AL_ALIGNED AL_MUTEX l_{};\n", lock.name)?;
        self.push_all_under(out, structure, lock)
    }

    // Appends a field, if no lock field of the struct protects it.
    fn push_other(
        &self,
        out: &mut String,
        structure: &Struct,
        field: &Field,
    ) -> Result<(), AllocError>
        ensures { OnOk result (AddsText
            (text.other_text self.now.names.prefix.now self.now.names.program.now structure.now field.now)
            out.old out.new) }
    {
        if is_beside(structure, field) {
            Ok(())
        } else {
            self.push_field(out, field)
        }
    }

    // Appends a member for a struct that is without members.
    fn push_filler(&self, out: &mut String, structure: &Struct) -> Result<(), AllocError>
        ensures { OnOk result (AddsText (text.filler_text structure.now) out.old out.new) }
    {
        if is_bare(structure) {
            out.push_str("  char empty;\n")
        } else {
            Ok(())
        }
    }

    // Appends the members of a struct.
    fn push_members(&self, out: &mut String, structure: &Struct) -> Result<(), AllocError>
        ensures { OnOk result (AddsText
            (text.members_text self.now.names.prefix.now self.now.names.program.now structure.now) out.old out.new) }
    {
        for lock in &structure.locks {
            self.push_locked(out, structure, lock)?;
        }
        for final_field in &structure.finals {
            self.push_final(out, final_field)?;
        }
        for field in &structure.fields {
            self.push_other(out, structure, field)?;
        }
        self.push_filler(out, structure)
    }

    // Appends a struct.
    fn push_struct(&self, out: &mut String, structure: &Struct) -> Result<(), AllocError>
        ensures { OnOk result (AddsText
            (text.struct_text self.now.names.prefix.now self.now.names.program.now structure.now) out.old out.new) }
    {
        write!(out, "struct {}_{} {{\n", self.names.prefix, structure.name)?;
        self.push_members(out, structure)?;
        out.push_str("};\n")
    }

    // Appends a pool, as a member of the state.
    fn push_pool(&self, out: &mut String, pool: &Pool) -> Result<(), AllocError>
        ensures { OnOk result (AddsText
            (text.pool_text self.now.names.prefix.now self.now.names.program.now pool.now) out.old out.new) }
    {
        let room = room(pool.length);
        out.push_str("  ")?;
        self.names.push_struct_type(out, pool.structure)?;
        write!(out, " p_{}[{room}];\n", pool.name)
    }

    // Appends the type of a cell.
    fn push_cell_type(&self, out: &mut String, cell: u32) -> Result<(), AllocError>
        ensures { OnOk result (AddsText
            (text.cell_type self.now.names.prefix.now self.now.names.program.now cell) out.old out.new) }
    {
        match self.names.program.cells.get(cell as usize) {
            Some(cell) => self.names.push_type(out, cell.value_type),
            None => Ok(()),
        }
    }

    // Appends a global, if the lock of the class protects it.
    fn push_global(
        &self,
        out: &mut String,
        class: usize,
        global: &GlobalVariable,
    ) -> Result<(), AllocError>
        ensures { OnOk result (AddsText
            (text.global_text self.now.names.prefix.now self.now.names.program.now class global.now)
            out.old out.new) }
    {
        if global.class != class {
            return Ok(());
        }
        out.push_str("    ")?;
        self.push_cell_type(out, global.cell)?;
        write!(out, "x_{};\n", global.name)
    }

    // Appends an array, if the lock of the class protects it.
    fn push_array(&self, out: &mut String, class: usize, array: &Array) -> Result<(), AllocError>
        ensures { OnOk result (AddsText
            (text.array_text self.now.names.prefix.now self.now.names.program.now class array.now) out.old out.new) }
    {
        if array.class != class {
            return Ok(());
        }
        let room = room(array.length);
        out.push_str("    ")?;
        self.names.push_type(out, array.element)?;
        write!(out, "x_{}[{room}];\n", array.name)
    }

    // Appends what the lock of a class protects.
    fn push_protected(&self, out: &mut String, class: usize) -> Result<(), AllocError>
        ensures { OnOk result (AddsText
            (text.protected_text self.now.names.prefix.now self.now.names.program.now class) out.old out.new) }
    {
        for global in &self.names.program.globals {
            self.push_global(out, class, global)?;
        }
        for array in &self.names.program.shape.arrays {
            self.push_array(out, class, array)?;
        }
        Ok(())
    }

    // Appends a global lock whose class has the number `class`, and what it protects.
    fn push_lock(&self, out: &mut String, class: usize, name: &str) -> Result<(), AllocError>
        ensures { OnOk result (AddsText
            (text.lock_text self.now.names.prefix.now self.now.names.program.now class name.now) out.old out.new) }
    {
        out.push_str("  struct {\n    AL_ALIGNED AL_MUTEX lock;\n")?;
        self.push_protected(out, class)?;
        write!(out, "  }} g_{name};\n")
    }

    // Appends the class with the number `number`, if it is a global lock.
    fn push_class(
        &self,
        out: &mut String,
        number: usize,
        class: &LockClass,
    ) -> Result<(), AllocError>
        ensures { OnOk result (AddsText
            (text.class_text self.now.names.prefix.now self.now.names.program.now number class.now) out.old out.new) }
    {
        match class {
            LockClass::Global(name) => self.push_lock(out, number, name.as_str()),
            LockClass::Field { .. } => Ok(()),
        }
    }

    // Appends the pools and the global locks.
    fn push_state_members(&self, out: &mut String) -> Result<(), AllocError>
        ensures { OnOk result (AddsText
            (text.state_members self.now.names.prefix.now self.now.names.program.now) out.old out.new) }
    {
        for pool in &self.names.program.shape.pools {
            self.push_pool(out, pool)?;
        }
        for (number, class) in self.names.program.classes.iter().enumerate() {
            self.push_class(out, number, class)?;
        }
        Ok(())
    }

    // Appends the state.
    fn push_state(&self, out: &mut String) -> Result<(), AllocError>
        ensures { OnOk result (AddsText
            (text.state_text self.now.names.prefix.now self.now.names.program.now) out.old out.new) }
    {
        write!(out, "struct {}State {{\n", self.names.prefix)?;
        self.push_state_members(out)?;
        out.push_str("  struct autolock_history *history;\n};\n")
    }

    /// Appends the function that returns a pool's members, without its body. The one error is a refused growth.
    pub fn push_member_prototype(&self, out: &mut String, pool: &Pool) -> Result<(), AllocError>
        ensures { OnOk result (AddsText
            (text.member_prototype self.now.names.prefix.now self.now.names.program.now pool.now) out.old out.new) }
    {
        let prefix = self.names.prefix;
        self.names.push_struct_type(out, pool.structure)?;
        write!(
            out,
            " *{prefix}_{}(struct {prefix}State *s, int64_t i)",
            pool.name
        )
    }

    // Appends the declarations of the functions that return the members of pools.
    fn push_members_declared(&self, out: &mut String) -> Result<(), AllocError>
        ensures { OnOk result (AddsText
            (text.members_declared self.now.names.prefix.now self.now.names.program.now) out.old out.new) }
    {
        for pool in &self.names.program.shape.pools {
            self.push_member_prototype(out, pool)?;
            out.push_str(";\n")?;
        }
        Ok(())
    }

    // Appends the declarations of the functions of a history.
    fn push_histories_declared(&self, out: &mut String) -> Result<(), AllocError>
        ensures { OnOk result (AddsText
            (text.histories_declared self.now.names.prefix.now self.now.names.program.now) out.old out.new) }
    {
        let prefix = self.names.prefix;
        write!(
            out,
            "#ifdef AL_HISTORY\nint {prefix}HistoryOpen(struct {prefix}State *s);\n"
        )?;
        write!(out, "int64_t {prefix}Seat(struct {prefix}State *s);\n")?;
        write!(
            out,
            "int {prefix}HistoryWrite(FILE *f, struct {prefix}State *s);\n"
        )?;
        write!(
            out,
            "void {prefix}HistoryClose(struct {prefix}State *s);\n#endif\n"
        )
    }

    // Appends the declarations of what the file offers besides the sections.
    fn push_functions(&self, out: &mut String) -> Result<(), AllocError>
        ensures { OnOk result (AddsText
            (text.functions_text self.now.names.prefix.now self.now.names.program.now) out.old out.new) }
    {
        let prefix = self.names.prefix;
        write!(out, "void {prefix}Open(struct {prefix}State *s);\n")?;
        write!(out, "void {prefix}Close(struct {prefix}State *s);\n")?;
        write!(out, "size_t {prefix}Size(void);\n")?;
        self.push_histories_declared(out)?;
        self.push_members_declared(out)
    }

    /// Appends all types, and the functions that the file offers besides the sections. The one error is a refused
    /// growth.
    #[tactic(auto, unfolding(crate::specs::Types::types_text))]
    pub fn push_types(&self, out: &mut String) -> Result<(), AllocError>
        ensures { OnOk result (AddsText
            (text.types_text self.now.names.prefix.now self.now.names.program.now) out.old out.new) }
    {
        for announced in &self.names.program.structs {
            self.push_announced(out, announced)?;
        }
        for structure in &self.names.program.structs {
            self.push_struct(out, structure)?;
        }
        self.push_state(out)?;
        self.push_functions(out)
    }
}
