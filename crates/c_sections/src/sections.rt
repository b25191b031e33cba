//! Writes sections as C text. The only error is a failed allocation.

ghost use Rattle.std.specs.Prelude.{◌≡◌, OnOk, map};
ghost use Rattle.std.specs.List.{flat_map, list_any};
ghost use Rattle.std.specs.List.Sorted.{IsNonDecreasing};
ghost use Rattle.code.specs.Lowering.{section_code};
ghost use Rattle.code.specs.Working.Asked.{lists_of};
ghost use Rattle.locks.specs.LockPaths.{lock_path_of, lock_paths};
ghost use Rattle.locks.specs.Texts.{AddsText};
ghost use Rattle.c_statements.specs.Acquires.{numbered};
ghost use Rattle.c_sections.specs.Instructions.{is_print};
ghost use Rattle.c_sections.specs.Instructions as instruction;
ghost use Rattle.c_sections.specs.Sections as text;
ghost use Rattle.c_sections.specs.Sections.{has_reference};
ghost use Rattle.c_sections.specs.Working.Marked.{marks_of};

use crate::instructions::InstructionLines;
use crate::marks::LineMarks;
use crate::names::Writer;
use crate::releases::push_unlocks;
use crate::temporaries::temporaries_of;
use c_language::group_laws::sections_have_plans;
use c_language::statement::Temporary;
use c_statements::names::{push_local, push_struct, push_temporary, push_zero};
use code::Listed;
use code::instr::Instr;
use core_lang::tree::{Local, Section};
use core_lang::value::ValueType;
use locks::path::LockPath;
use source::memory::NoMemory;
use std::alloc::{AllocError, Global};

/// Whether a section with this code prints.
pub fn prints(code: &[Instr]) -> bool
    ensures { result ≡ instruction.prints code.now }
{
    code.iter().any(
        |instr: &Instr| -> bool
            ensures { result ≡ is_print instr.now }
        { matches!(*instr, Instr::PrintTop) },
    )
}

/// The parameters of a section.
fn parameters(section: &Section) -> &[Local]
    ensures { result.now ≡ text.parameters section.now }
{
    let locals = section.locals.as_slice();
    &locals[..section.parameters.min(locals.len())]
}

/// Whether the type is one of references.
fn is_reference(value_type: ValueType) -> bool
    ensures { result ≡ text.is_reference value_type }
{
    match value_type {
        ValueType::Integer => false,
        ValueType::Reference(_) => true,
    }
}

/// Whether some of the locals are references.
fn some_reference(list: &[Local]) -> bool
    ensures { result ≡ list_any has_reference list.now }
{
    list.iter().any(
        |local: &Local| -> bool
            ensures { result ≡ has_reference local.now }
        { is_reference(local.value_type) },
    )
}

/// Whether a section with this number of lock paths has locks.
fn has_locks(count: usize) -> bool
    ensures { result ≡ text.has_locks count }
{
    count != 0
}

/// Appends an array of pointers to locks, and its initial value.
fn push_locks_line(
    out: &mut String,
    name: &str,
    count: usize,
    first: &str,
) -> Result<(), AllocError>
    ensures { OnOk result (AddsText (text.locks_line name.now count first.now) out.old out.new) }
{
    write!(out, "  AL_MUTEX *{name}[{count}]{first};\n")
}

/// Appends the arrays of pointers to locks: those that are held, and those that a run asks for.
fn push_locks_lines(out: &mut String, count: usize) -> Result<(), AllocError>
    ensures { OnOk result (AddsText (text.locks_lines count) out.old out.new) }
{
    if has_locks(count) {
        push_locks_line(out, "h", count, " = { NULL }")?;
        return push_locks_line(out, "m", count, "");
    }
    Ok(())
}

/// Appends the variable with the number of prints.
fn push_prints_line(out: &mut String, prints: bool) -> Result<(), AllocError>
    ensures { OnOk result (AddsText (text.prints_line prints) out.old out.new) }
{
    if prints {
        return out.push_str("  int prints = 0;\n");
    }
    Ok(())
}

/// Appends a use of each local.
fn push_used_locals(out: &mut String, section: &Section) -> Result<(), AllocError>
    ensures { OnOk result (AddsText (text.used_locals section.now) out.old out.new) }
{
    for (number, local) in section.locals.iter().enumerate() {
        push_used_local(out, number, local)?;
    }
    Ok(())
}

/// Appends a use of a local.
fn push_used_local(out: &mut String, number: usize, local: &Local) -> Result<(), AllocError>
    ensures { OnOk result (AddsText (text.used_local number local.now) out.old out.new) }
{
    out.push_str("  (void)")?;
    push_local(out, number, local)?;
    out.push_str(";\n")
}

/// Appends uses of the arrays of pointers to locks.
fn push_used_locks(out: &mut String, count: usize) -> Result<(), AllocError>
    ensures { OnOk result (AddsText (text.used_locks count) out.old out.new) }
{
    if has_locks(count) {
        return out.push_str("  (void)h;\n  (void)m;\n");
    }
    Ok(())
}

/// Appends uses of what may be unused, so that no compiler warns.
fn push_uses(out: &mut String, section: &Section, count: usize) -> Result<(), AllocError>
    ensures { OnOk result (AddsText (text.uses section.now count) out.old out.new) }
{
    out.push_str("  (void)s;\n")?;
    push_used_locals(out, section)?;
    push_used_locks(out, count)
}

/// Appends that the caller gets the number of prints.
fn push_count_line(out: &mut String, prints: bool) -> Result<(), AllocError>
    ensures { OnOk result (AddsText (text.count_line prints) out.old out.new) }
{
    if prints {
        return out.push_str("  if (out != NULL) out->count = prints;\n");
    }
    Ok(())
}

/// Appends that the caller gets the result, if there is one.
fn push_give_line(out: &mut String, result_type: Option<ValueType>) -> Result<(), AllocError>
    ensures { OnOk result (AddsText (text.give_line result_type) out.old out.new) }
{
    match result_type {
        Some(_) => out.push_str("  result.value = value;\n"),
        None => Ok(()),
    }
}

/// Appends the cast of a value to a number for the history.
pub fn push_cast(out: &mut String, value_type: ValueType) -> Result<(), AllocError>
    ensures { OnOk result (AddsText (text.cast_text value_type) out.old out.new) }
{
    match value_type {
        ValueType::Integer => Ok(()),
        ValueType::Reference(_) => out.push_str("(int64_t)(uintptr_t)"),
    }
}

/// Appends an argument as a number, before others.
fn push_argument(out: &mut String, number: usize, local: &Local) -> Result<(), AllocError>
    ensures { OnOk result (AddsText (text.argument_text number local.now) out.old out.new) }
{
    push_cast(out, local.value_type)?;
    push_local(out, number, local)?;
    out.push_str(", ")
}

/// Appends the arguments as numbers.
fn push_arguments(out: &mut String, list: &[Local]) -> Result<(), AllocError>
    ensures { OnOk result (AddsText (text.arguments_text list.now) out.old out.new) }
{
    for (number, local) in list.iter().enumerate() {
        push_argument(out, number, local)?;
    }
    Ok(())
}

/// Appends that prints are kept.
fn push_kept(out: &mut String, prints: bool) -> Result<(), AllocError>
    ensures { OnOk result (AddsText (text.kept_line prints) out.old out.new) }
{
    if prints {
        return out.push_str("  if (seat != NULL && out == NULL) out = &seat->prints;\n");
    }
    Ok(())
}

/// Appends the section's result as a number.
fn push_value_word(out: &mut String, result_type: Option<ValueType>) -> Result<(), AllocError>
    ensures { OnOk result (AddsText (text.value_word result_type) out.old out.new) }
{
    match result_type {
        None => out.push_str("0"),
        Some(ValueType::Integer) => out.push_str("value"),
        Some(ValueType::Reference(_)) => out.push_str("(int64_t)(uintptr_t)value"),
    }
}

/// Appends what was printed.
fn push_printed(out: &mut String, prints: bool) -> Result<(), AllocError>
    ensures { OnOk result (AddsText (text.printed_words prints) out.old out.new) }
{
    if prints {
        return out.push_str(", prints, out");
    }
    out.push_str(", 0, NULL")
}

/// Appends the call's entry in the history.
fn push_ended(out: &mut String, section: &Section, prints: bool) -> Result<(), AllocError>
    ensures { OnOk result (AddsText (text.ended_text section.now prints) out.old out.new) }
{
    out.push_str("#ifdef AL_HISTORY\n  autolock_ended(seat, trap, ")?;
    push_value_word(out, section.result_type)?;
    push_printed(out, prints)?;
    out.push_str(");\n#endif\n")
}

/// Appends the parameter for the prints, after the others.
fn push_out(out: &mut String, prints: bool) -> Result<(), AllocError>
    ensures { OnOk result (AddsText (text.out_text prints) out.old out.new) }
{
    if prints {
        return out.push_str(", struct autolock_prints *out");
    }
    Ok(())
}

impl Writer<'_> {
    ghost use Rattle.c_sections.specs.Working.Prototypes.{result_of, declared_of, parameter_of, parameters_of};
    ghost use Rattle.c_sections.specs.Working.Prototypes.{local_of, locals_of, temporary_of, value_of, result_line_of};
    ghost use Rattle.c_sections.specs.Working.Prototypes.{declarations_of, reference_of, check_line_of, guarded_of, checks_of};
    ghost use Rattle.c_sections.specs.Working.Prototypes.{head_of, further_of, front_of, code_of, HasPlan};
    ghost use Rattle.c_sections.specs.Working.Prototypes.{section_name_of, begun_of};

    // Appends the struct of a section's return type.
    fn push_result_struct(
        &self,
        out: &mut String,
        result_type: Option<ValueType>,
    ) -> Result<(), AllocError>
        ensures { OnOk result (AddsText (result_of self.now result_type) out.old out.new) }
    {
        match result_type {
            None => out.push_str("autolock_end"),
            Some(ValueType::Integer) => out.push_str("autolock_int"),
            Some(ValueType::Reference(structure)) => {
                self.push_own(out, "Ref_")?;
                push_struct(out, self.program, structure)
            }
        }
    }

    // Appends a local with its type.
    fn push_declared(
        &self,
        out: &mut String,
        number: usize,
        local: &Local,
    ) -> Result<(), AllocError>
        ensures { OnOk result (AddsText (declared_of self.now number local.now) out.old out.new) }
    {
        self.push_type(out, local.value_type)?;
        push_local(out, number, local)
    }

    // Appends a parameter after others.
    fn push_parameter(
        &self,
        out: &mut String,
        number: usize,
        local: &Local,
    ) -> Result<(), AllocError>
        ensures { OnOk result (AddsText (parameter_of self.now number local.now) out.old out.new) }
    {
        out.push_str(", ")?;
        self.push_declared(out, number, local)
    }

    // Appends the parameters of a section.
    fn push_parameters(&self, out: &mut String, section: &Section) -> Result<(), AllocError>
        ensures { OnOk result (AddsText (parameters_of self.now section.now) out.old out.new) }
    {
        for (number, local) in parameters(section).iter().enumerate() {
            self.push_parameter(out, number, local)?;
        }
        Ok(())
    }

    // Appends the name of a section's function, after the struct of its return type.
    fn push_head(&self, out: &mut String, section: &Section) -> Result<(), AllocError>
        ensures { OnOk result (AddsText (head_of self.now section.now) out.old out.new) }
    {
        out.push_str("struct ")?;
        self.push_result_struct(out, section.result_type)?;
        out.push_str(" ")?;
        self.push_named(out, section.name.as_str())
    }

    /// Appends the prototype of a section, which prints or not.
    pub fn push_prototype(
        &self,
        out: &mut String,
        section: &Section,
        prints: bool,
    ) -> Result<(), AllocError>
        ensures { OnOk result (AddsText (text.prototype_text self.now.prefix.now self.now.program.now section.now
            prints) out.old out.new) }
    {
        self.push_head(out, section)?;
        out.push_str("(struct ")?;
        self.push_own(out, "State")?;
        out.push_str(" *s")?;
        self.push_parameters(out, section)?;
        push_out(out, prints)?;
        out.push_str(")")
    }

    // Appends a local after the parameters.
    fn push_local_line(
        &self,
        out: &mut String,
        number: usize,
        local: &Local,
    ) -> Result<(), AllocError>
        ensures { OnOk result (AddsText (local_of self.now number local.now) out.old out.new) }
    {
        out.push_str("  ")?;
        self.push_declared(out, number, local)?;
        out.push_str(" = ")?;
        push_zero(out, local.value_type)?;
        out.push_str(";\n")
    }

    // Appends the locals after the parameters.
    fn push_locals(&self, out: &mut String, section: &Section) -> Result<(), AllocError>
        ensures { OnOk result (AddsText (locals_of self.now section.now) out.old out.new) }
    {
        let locals = section.locals.as_slice();
        for number in section.parameters..locals.len() {
            self.push_local_line(out, number, &locals[number])?;
        }
        Ok(())
    }

    // Appends a temporary.
    fn push_temporary_line(&self, out: &mut String, temporary: Temporary) -> Result<(), AllocError>
        ensures { OnOk result (AddsText (temporary_of self.now temporary) out.old out.new) }
    {
        out.push_str("  ")?;
        self.push_type(out, temporary.holds)?;
        push_temporary(out, self.program, temporary)?;
        out.push_str(";\n")
    }

    // Appends the temporaries.
    fn push_temporaries(&self, out: &mut String, list: &[Temporary]) -> Result<(), AllocError>
        ensures { OnOk result (AddsText (flat_map (temporary_of self.now) list.now) out.old out.new) }
    {
        for temporary in list {
            self.push_temporary_line(out, *temporary)?;
        }
        Ok(())
    }

    // Appends the variable of the section's result, if it has one.
    fn push_value_line(
        &self,
        out: &mut String,
        result_type: Option<ValueType>,
    ) -> Result<(), AllocError>
        ensures { OnOk result (AddsText (value_of self.now result_type) out.old out.new) }
    {
        let Some(value_type) = result_type else {
            return Ok(());
        };
        out.push_str("  ")?;
        self.push_type(out, value_type)?;
        out.push_str("value = ")?;
        push_zero(out, value_type)?;
        out.push_str(";\n")
    }

    // Appends the variable that the section returns.
    fn push_result_line(
        &self,
        out: &mut String,
        result_type: Option<ValueType>,
    ) -> Result<(), AllocError>
        ensures { OnOk result (AddsText (result_line_of self.now result_type) out.old out.new) }
    {
        out.push_str("  struct ")?;
        self.push_result_struct(out, result_type)?;
        out.push_str(" result;\n")
    }

    // Appends the variables of a section with this number of lock paths that follow locals and temporaries.
    fn push_further(
        &self,
        out: &mut String,
        section: &Section,
        prints: bool,
        count: usize,
    ) -> Result<(), AllocError>
        ensures { OnOk result (AddsText (further_of self.now section.now prints count) out.old out.new) }
    {
        push_locks_lines(out, count)?;
        out.push_str("  int trap = 0;\n")?;
        push_prints_line(out, prints)?;
        self.push_value_line(out, section.result_type)?;
        self.push_result_line(out, section.result_type)
    }

    // Appends the variables of a section.
    fn push_declarations(
        &self,
        alloc: Global,
        out: &mut String,
        listed: Listed<'_>,
    ) -> Result<(), NoMemory>
        requires { HasPlan self.now listed }
        ensures { OnOk result (AddsText (declarations_of self.now listed.entry) out.old out.new) }
    {
        let code = listed.code.instructions.as_slice();
        let list = temporaries_of(alloc, self.program, code)?;
        self.push_locals(out, listed.section)?;
        self.push_temporaries(out, &list)?;
        self.push_further(out, listed.section, prints(code), listed.paths.len())?;
        Ok(())
    }

    // Appends the test that a parameter is null or refers to an object of this struct.
    fn push_check_of(
        &self,
        out: &mut String,
        number: usize,
        local: &Local,
        structure: usize,
    ) -> Result<(), AllocError>
        ensures { OnOk result (AddsText (reference_of self.now number local.now structure) out.old out.new) }
    {
        out.push_str("  if (AL_RARE(!")?;
        self.push_own(out, "Is_")?;
        push_struct(out, self.program, structure)?;
        out.push_str("(s, ")?;
        push_local(out, number, local)?;
        out.push_str("))) AL_TRAP(7);\n")
    }

    // Appends the test of a parameter, if it is a reference.
    fn push_check_line(
        &self,
        out: &mut String,
        number: usize,
        local: &Local,
    ) -> Result<(), AllocError>
        ensures { OnOk result (AddsText (check_line_of self.now number local.now) out.old out.new) }
    {
        match local.value_type {
            ValueType::Integer => Ok(()),
            ValueType::Reference(structure) => self.push_check_of(out, number, local, structure),
        }
    }

    // Appends the tests of parameters.
    fn push_check_lines(&self, out: &mut String, list: &[Local]) -> Result<(), AllocError>
        ensures { OnOk result (AddsText (numbered (check_line_of self.now) 0 list.now) out.old out.new) }
    {
        for (number, local) in list.iter().enumerate() {
            self.push_check_line(out, number, local)?;
        }
        Ok(())
    }

    // Appends the tests of parameters, inside the `#ifdef` of the macro.
    fn push_guarded(&self, out: &mut String, list: &[Local]) -> Result<(), AllocError>
        ensures { OnOk result (AddsText (guarded_of self.now list.now) out.old out.new) }
    {
        out.push_str("#ifdef AL_CHECK\n")?;
        self.push_check_lines(out, list)?;
        out.push_str("#endif\n")
    }

    // Appends the tests of parameters, if some are references.
    fn push_checks(&self, out: &mut String, section: &Section) -> Result<(), AllocError>
        ensures { OnOk result (AddsText (checks_of self.now section.now) out.old out.new) }
    {
        let list = parameters(section);
        if some_reference(list) {
            return self.push_guarded(out, list);
        }
        Ok(())
    }

    // Appends the section's number.
    fn push_section_name(&self, out: &mut String, section: &Section) -> Result<(), AllocError>
        ensures { OnOk result (AddsText (section_name_of self.now section.now) out.old out.new) }
    {
        self.push_own(out, "Section_")?;
        out.push_str(section.name.as_str())
    }

    // Appends the begin of a call in the history.
    fn push_begun(
        &self,
        out: &mut String,
        section: &Section,
        prints: bool,
    ) -> Result<(), AllocError>
        ensures { OnOk result (AddsText (begun_of self.now section.now prints) out.old out.new) }
    {
        let list = parameters(section);
        out.push_str(
            "#ifdef AL_HISTORY\n  struct autolock_seat *seat = autolock_begin(s->history, ",
        )?;
        self.push_section_name(out, section)?;
        write!(out, ", {}, (const int64_t[]) {{ ", list.len())?;
        push_arguments(out, list)?;
        out.push_str("0 });\n")?;
        push_kept(out, prints)?;
        out.push_str("#endif\n")
    }

    // Appends what precedes a section's end.
    fn push_front(
        &self,
        alloc: Global,
        out: &mut String,
        listed: Listed<'_>,
    ) -> Result<(), NoMemory>
        requires { HasPlan self.now listed }
        ensures { OnOk result (AddsText (front_of self.now listed.entry) out.old out.new) }
    {
        let printed = prints(&listed.code.instructions);
        self.push_prototype(out, listed.section, printed)?;
        out.push_str("\n{\n")?;
        self.push_declarations(alloc, out, listed)?;
        push_uses(out, listed.section, listed.paths.len())?;
        self.push_begun(out, listed.section, printed)?;
        Ok(())
    }

    // Appends the end of a section with these lock paths.
    fn push_end(
        &self,
        out: &mut String,
        section: &Section,
        prints: bool,
        paths: &[LockPath],
    ) -> Result<(), AllocError>
        ensures { OnOk result (AddsText (text.end_text self.now.program.now section.now prints
            (map lock_path_of paths.now)) out.old out.new) }
    {
        out.push_str("  goto begin;\nend:\n")?;
        push_ended(out, section, prints)?;
        push_unlocks(out, self.program, paths)?;
        push_count_line(out, prints)?;
        out.push_str("  result.trap = trap;\n")?;
        push_give_line(out, section.result_type)?;
        out.push_str("  return result;\nbegin:\n")
    }

    /// Appends a section. With marks, its C is marked with those lines of the program's file.
    ///
    /// # Errors
    ///
    /// Out of memory.
    pub fn push_section(
        &self,
        alloc: Global,
        out: &mut String,
        listed: Listed<'_>,
        marks: Option<LineMarks<'_>>,
    ) -> Result<(), NoMemory>
        requires paths { map lock_path_of listed.paths.now ≡ lock_paths self.now.program.now listed.section.now }
        requires code { listed.code.now.instructions.items ≡ section_code (lists_of listed) listed.section.now }
        requires rises { IsNonDecreasing listed.code.now.begins.items }
        ensures { OnOk result (AddsText (text.section_text self.now.prefix.now self.now.program.now
            listed.entry.section.now (lists_of listed.entry) (marks_of marks.entry listed.entry.code.now))
            out.old out.new) }
    {
        sections_have_plans::<usize>();
        let lines = InstructionLines::new(alloc, self.program, listed)?;
        self.push_front(alloc, out, listed)?;
        let printed = prints(&listed.code.instructions);
        self.push_end(out, listed.section, printed, listed.paths)?;
        self.push_checks(out, listed.section)?;
        lines.push(alloc, out, marks)?;
        out.push_str("}\n")?;
        Ok(())
    }
}
