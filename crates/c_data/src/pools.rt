//! The functions over the pools of a struct. The one error is a refused growth.

ghost use Rattle.std.specs.Prelude.{◌≡◌, ◌+◌, OnOk};
ghost use Rattle.locks.specs.Texts.{AddsText};
ghost use Rattle.c_data.specs.Pools as text;

use crate::writer::DataWriter;
use core_lang::shape::Pool;
use core_lang::typed::Struct;
use std::alloc::AllocError;

/// Appends the condition that the address a is one of a pool.
fn push_within(out: &mut String, pool: &Pool) -> Result<(), AllocError>
    ensures { OnOk result (AddsText (text.within_text pool.now) out.old out.new) }
{
    write!(out, "a >= (uintptr_t)s->p_{}", pool.name)?;
    write!(
        out,
        " && a < (uintptr_t)(s->p_{} + {})",
        pool.name, pool.length
    )
}

/// Appends the line that tests for a pool.
fn push_tested(out: &mut String, pool: &Pool) -> Result<(), AllocError>
    ensures { OnOk result (AddsText (text.pool_tested pool.now) out.old out.new) }
{
    out.push_str("  if (")?;
    push_within(out, pool)?;
    write!(
        out,
        ") return (a - (uintptr_t)s->p_{}) % sizeof *p == 0;\n",
        pool.name
    )
}

/// Appends the line that finds an object of a pool.
fn push_numbered(out: &mut String, pool: &Pool) -> Result<(), AllocError>
    ensures { OnOk result (AddsText (text.pool_numbered pool.now) out.old out.new) }
{
    let end = pool.first as u64 + pool.length as u64;
    write!(out, "  if (o >= {} && o < {end}) return &s->p_", pool.first)?;
    write!(out, "{}[o - {}];\n", pool.name, pool.first)
}

/// Appends the lines that write the name of an object of a pool.
fn push_written(out: &mut String, pool: &Pool) -> Result<(), AllocError>
    ensures { OnOk result (AddsText (text.pool_written pool.now) out.old out.new) }
{
    out.push_str("  if (")?;
    push_within(out, pool)?;
    write!(out, ") {{\n    fprintf(f, \"{}[%\" PRId64 \"]\"", pool.name)?;
    write!(
        out,
        ", (int64_t)(p - s->p_{}));\n    return;\n  }}\n",
        pool.name
    )
}

/// Appends the line that tests for a pool, if its struct has the number `number`.
fn push_tested_of(out: &mut String, pool: &Pool, number: usize) -> Result<(), AllocError>
    ensures { OnOk result (AddsText (text.of_struct text.pool_tested number pool.now) out.old out.new) }
{
    if pool.structure == number {
        push_tested(out, pool)
    } else {
        Ok(())
    }
}

/// Appends the line that finds an object of a pool, if its struct has the number `number`.
fn push_numbered_of(out: &mut String, pool: &Pool, number: usize) -> Result<(), AllocError>
    ensures { OnOk result (AddsText (text.of_struct text.pool_numbered number pool.now) out.old out.new) }
{
    if pool.structure == number {
        push_numbered(out, pool)
    } else {
        Ok(())
    }
}

/// Appends the lines that write the name of an object of a pool, if its struct has the number `number`.
fn push_written_of(out: &mut String, pool: &Pool, number: usize) -> Result<(), AllocError>
    ensures { OnOk result (AddsText (text.of_struct text.pool_written number pool.now) out.old out.new) }
{
    if pool.structure == number {
        push_written(out, pool)
    } else {
        Ok(())
    }
}

impl DataWriter<'_> {
    /// Appends the parameter that is the state. The one error is a refused growth.
    pub fn push_state_pointer(&self, out: &mut String) -> Result<(), AllocError>
        ensures { OnOk result (AddsText (text.state_pointer self.now.names.prefix.now) out.old out.new) }
    {
        write!(out, "struct {}State *s", self.names.prefix)
    }

    // Appends the type of a pointer to an object of a struct.
    fn push_object_pointer(&self, out: &mut String, structure: &Struct) -> Result<(), AllocError>
        ensures { OnOk result (AddsText
            (text.object_pointer self.now.names.prefix.now structure.now) out.old out.new) }
    {
        write!(out, "struct {}_{} *", self.names.prefix, structure.name)
    }

    // Appends the lines that test for each pool of the struct with the number `number`.
    fn push_tests(&self, out: &mut String, number: usize) -> Result<(), AllocError>
        ensures { OnOk result (AddsText
            (text.for_pools self.now.names.program.now text.pool_tested number) out.old out.new) }
    {
        for pool in &self.names.program.shape.pools {
            push_tested_of(out, pool, number)?;
        }
        Ok(())
    }

    // Appends the lines that find an object of each pool of the struct.
    fn push_numbers(&self, out: &mut String, number: usize) -> Result<(), AllocError>
        ensures { OnOk result (AddsText
            (text.for_pools self.now.names.program.now text.pool_numbered number) out.old out.new) }
    {
        for pool in &self.names.program.shape.pools {
            push_numbered_of(out, pool, number)?;
        }
        Ok(())
    }

    // Appends the lines that write an object of each pool of the struct.
    fn push_writes(&self, out: &mut String, number: usize) -> Result<(), AllocError>
        ensures { OnOk result (AddsText
            (text.for_pools self.now.names.program.now text.pool_written number) out.old out.new) }
    {
        for pool in &self.names.program.shape.pools {
            push_written_of(out, pool, number)?;
        }
        Ok(())
    }

    // Appends the test whether a pointer is NULL or one to an object of the struct with the number `number`.
    fn push_test(
        &self,
        out: &mut String,
        number: usize,
        structure: &Struct,
    ) -> Result<(), AllocError>
        ensures { OnOk result (AddsText
            (text.test_text self.now.names.prefix.now self.now.names.program.now number structure.now)
            out.old out.new) }
    {
        out.push_str("#ifdef AL_CHECK\nAL_INLINE int ")?;
        write!(out, "{}Is_{}(", self.names.prefix, structure.name)?;
        self.push_state_pointer(out)?;
        out.push_str(", ")?;
        self.push_object_pointer(out, structure)?;
        out.push_str(
            "p)\n{\n  uintptr_t a = (uintptr_t)p;\n  (void)s;\n  (void)a;\n  if (p == NULL) return 1;\n",
        )?;
        self.push_tests(out, number)?;
        out.push_str("  return 0;\n}\n#endif\n")
    }

    // Appends the function that finds an object of the struct with the number `number` by the object's number.
    fn push_number(
        &self,
        out: &mut String,
        number: usize,
        structure: &Struct,
    ) -> Result<(), AllocError>
        ensures { OnOk result (AddsText
            (text.number_text self.now.names.prefix.now self.now.names.program.now number structure.now)
            out.old out.new) }
    {
        out.push_str("AL_INLINE ")?;
        self.push_object_pointer(out, structure)?;
        write!(out, "{}At_{}(", self.names.prefix, structure.name)?;
        self.push_state_pointer(out)?;
        out.push_str(", int64_t o)\n{\n")?;
        self.push_numbers(out, number)?;
        out.push_str("  (void)s;\n  (void)o;\n  return NULL;\n}\n")
    }

    // Appends the function that writes the name of an object of the struct with the number `number`.
    fn push_write(
        &self,
        out: &mut String,
        number: usize,
        structure: &Struct,
    ) -> Result<(), AllocError>
        ensures { OnOk result (AddsText
            (text.write_text self.now.names.prefix.now self.now.names.program.now number structure.now)
            out.old out.new) }
    {
        write!(
            out,
            "AL_INLINE void {}Write_{}(FILE *f, ",
            self.names.prefix, structure.name
        )?;
        self.push_state_pointer(out)?;
        out.push_str(", ")?;
        self.push_object_pointer(out, structure)?;
        out.push_str("p)\n{\n  uintptr_t a = (uintptr_t)p;\n")?;
        self.push_writes(out, number)?;
        out.push_str("  (void)s;\n  (void)a;\n  fputs(\"null\", f);\n}\n")
    }

    // Appends both functions for the struct with the number `number`.
    #[tactic(auto, unfolding(crate::specs::Pools::object_text))]
    fn push_object(
        &self,
        out: &mut String,
        number: usize,
        structure: &Struct,
    ) -> Result<(), AllocError>
        ensures { OnOk result (AddsText
            (text.object_text self.now.names.prefix.now self.now.names.program.now number structure.now)
            out.old out.new) }
    {
        self.push_number(out, number, structure)?;
        self.push_write(out, number, structure)
    }

    /// Appends the test of pointers for each struct. The one error is a refused growth.
    #[tactic(auto, unfolding(crate::specs::Pools::tests_text))]
    pub fn push_pointer_tests(&self, out: &mut String) -> Result<(), AllocError>
        ensures { OnOk result (AddsText
            (text.tests_text self.now.names.prefix.now self.now.names.program.now) out.old out.new) }
    {
        for (number, structure) in self.names.program.structs.iter().enumerate() {
            self.push_test(out, number, structure)?;
        }
        Ok(())
    }

    /// Appends the functions that find objects and write their names, for each struct. The one error is a refused
    /// growth.
    #[tactic(auto, unfolding(crate::specs::Pools::objects_text))]
    pub fn push_objects(&self, out: &mut String) -> Result<(), AllocError>
        ensures { OnOk result (AddsText
            (text.objects_text self.now.names.prefix.now self.now.names.program.now) out.old out.new) }
    {
        for (number, structure) in self.names.program.structs.iter().enumerate() {
            self.push_object(out, number, structure)?;
        }
        Ok(())
    }
}
