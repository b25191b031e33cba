//! The functions that write a history. The one error is a refused growth.

ghost use Rattle.std.specs.Prelude.{◌≡◌, OnOk};
ghost use Rattle.locks.specs.Texts.{AddsText};
ghost use Rattle.c_text.specs.Histories as text;
ghost use Rattle.c_sections.specs.Sections as sections;

use crate::writer::FileWriter;
use c_data::writer::DataWriter;
use c_statements::names::push_struct;
use core_lang::tree::{Local, Section};
use core_lang::value::ValueType;
use std::alloc::AllocError;

/// Appends the comma before each argument but the first.
#[tactic(auto, unfolding(crate::specs::Histories::comma_text))]
fn push_comma(out: &mut String, number: usize) -> Result<(), AllocError>
    ensures { OnOk result (AddsText (text.comma_text number) out.old out.new) }
{
    if number == 0 {
        return Ok(());
    }
    out.push_str("    fputs(\", \", f);\n")
}

/// The parameters of a section.
pub fn parameters(section: &Section) -> &[Local]
    ensures { result.now ≡ sections.parameters section.now }
{
    let locals = section.locals.as_slice();
    &locals[..section.parameters.min(locals.len())]
}

/// Appends the end of a function that switches over the numbers of sections.
#[tactic(auto, unfolding(crate::specs::Histories::cases_end))]
pub fn push_cases_end(out: &mut String) -> Result<(), AllocError>
    ensures { OnOk result (AddsText text.cases_end out.old out.new) }
{
    out.push_str("  default:\n    break;\n  }\n}\n")
}

impl FileWriter<'_> {
    // Appends the number of a section.
    fn push_section_number(&self, out: &mut String, section: &Section) -> Result<(), AllocError>
        ensures { OnOk result (AddsText
            (text.section_number self.now.names.prefix.now section.now) out.old out.new) }
    {
        write!(out, "  {}Section_{},\n", self.names.prefix, section.name)
    }

    // Appends the numbers of all sections.
    fn push_section_numbers(&self, out: &mut String) -> Result<(), AllocError>
        ensures { OnOk result (AddsText
            (text.section_numbers self.now.names.prefix.now self.now.names.program.now.sections.items)
            out.old out.new) }
    {
        for section in &self.names.program.sections {
            self.push_section_number(out, section)?;
        }
        Ok(())
    }

    /// Appends the enumeration of the sections' numbers. The one error is a refused growth.
    pub fn push_numbers_of_sections(&self, out: &mut String) -> Result<(), AllocError>
        ensures { OnOk result (AddsText
            (text.numbers_text self.now.names.prefix.now self.now.names.program.now.sections.items)
            out.old out.new) }
    {
        out.push_str("#ifdef AL_HISTORY\nenum {\n")?;
        self.push_section_numbers(out)?;
        write!(out, "  {}Sections\n}};\n#endif\n", self.names.prefix)
    }

    // Appends the call that writes an object of the struct with the number `structure`, whose address is a number.
    fn push_writer(&self, out: &mut String, structure: usize) -> Result<(), AllocError>
        ensures { OnOk result (AddsText
            (text.writer_text self.now.names.prefix.now self.now.names.program.now structure) out.old out.new) }
    {
        write!(out, "{}Write_", self.names.prefix)?;
        push_struct(out, self.names.program, structure)?;
        write!(out, "(f, s, (struct {}_", self.names.prefix)?;
        push_struct(out, self.names.program, structure)?;
        out.push_str(" *)(uintptr_t)")
    }

    // Appends the statement that writes an argument that is a reference.
    fn push_written_reference(
        &self,
        out: &mut String,
        number: usize,
        structure: usize,
    ) -> Result<(), AllocError>
        ensures { OnOk result (AddsText
            (text.written_reference self.now.names.prefix.now self.now.names.program.now number structure)
            out.old out.new) }
    {
        out.push_str("    ")?;
        self.push_writer(out, structure)?;
        write!(out, "a[{number}]);\n")
    }

    // Appends the statement that writes an argument.
    #[tactic(auto, unfolding(crate::specs::Histories::written_text))]
    fn push_written(
        &self,
        out: &mut String,
        number: usize,
        value_type: ValueType,
    ) -> Result<(), AllocError>
        ensures { OnOk result (AddsText
            (text.written_text self.now.names.prefix.now self.now.names.program.now number value_type)
            out.old out.new) }
    {
        match value_type {
            ValueType::Integer => write!(out, "    fprintf(f, \"%\" PRId64, a[{number}]);\n"),
            ValueType::Reference(structure) => self.push_written_reference(out, number, structure),
        }
    }

    // Appends the statement that writes an argument, after a comma.
    fn push_written_next(
        &self,
        out: &mut String,
        number: usize,
        local: &Local,
    ) -> Result<(), AllocError>
        ensures { OnOk result (AddsText
            (text.written_next self.now.names.prefix.now self.now.names.program.now number local.now)
            out.old out.new) }
    {
        push_comma(out, number)?;
        self.push_written(out, number, local.value_type)
    }

    // Appends the statements that write the arguments `locals`.
    fn push_each_written(&self, out: &mut String, locals: &[Local]) -> Result<(), AllocError>
        ensures { OnOk result (AddsText
            (text.all_written self.now.names.prefix.now self.now.names.program.now locals.now) out.old out.new) }
    {
        for (number, local) in locals.iter().enumerate() {
            self.push_written_next(out, number, local)?;
        }
        Ok(())
    }

    // Appends the statements that write all arguments of a section.
    fn push_all_written(&self, out: &mut String, section: &Section) -> Result<(), AllocError>
        ensures { OnOk result (AddsText
            (text.all_written self.now.names.prefix.now self.now.names.program.now (sections.parameters section.now))
            out.old out.new) }
    {
        self.push_each_written(out, parameters(section))
    }

    // Appends the statement that writes how a call ended whose result is a reference.
    fn push_reference_ending(&self, out: &mut String, structure: usize) -> Result<(), AllocError>
        ensures { OnOk result (AddsText
            (text.reference_ending self.now.names.prefix.now self.now.names.program.now structure) out.old out.new) }
    {
        out.push_str("    else {\n      fputs(\") returns \", f);\n      ")?;
        self.push_writer(out, structure)?;
        out.push_str("value);\n      fputs(\"\\n\", f);\n    }\n")
    }

    // Appends the statement that writes how a call ended without a trap.
    #[tactic(auto, unfolding(crate::specs::Histories::ending_text))]
    fn push_ending(
        &self,
        out: &mut String,
        result_type: Option<ValueType>,
    ) -> Result<(), AllocError>
        ensures { OnOk result (AddsText
            (text.ending_text self.now.names.prefix.now self.now.names.program.now result_type) out.old out.new) }
    {
        match result_type {
            None => out.push_str("    else fputs(\") ends\\n\", f);\n"),
            Some(ValueType::Integer) => {
                out.push_str("    else fprintf(f, \") returns %\" PRId64 \"\\n\", value);\n")
            }
            Some(ValueType::Reference(structure)) => self.push_reference_ending(out, structure),
        }
    }

    // Appends the case that writes the line of a call of the section with the number `number`.
    fn push_tell(
        &self,
        out: &mut String,
        number: usize,
        section: &Section,
    ) -> Result<(), AllocError>
        ensures { OnOk result (AddsText
            (text.tell_text self.now.names.prefix.now self.now.names.program.now number section.now)
            out.old out.new) }
    {
        write!(
            out,
            "  case {number}:\n    fputs(\" {}(\", f);\n",
            section.name
        )?;
        self.push_all_written(out, section)?;
        out.push_str("    if (trap != 0) fprintf(f, \") traps %d\\n\", trap);\n")?;
        self.push_ending(out, section.result_type)?;
        out.push_str("    break;\n")
    }

    // Appends the cases of all sections.
    fn push_all_tells(&self, out: &mut String) -> Result<(), AllocError>
        ensures { OnOk result (AddsText
            (text.all_tells self.now.names.prefix.now self.now.names.program.now) out.old out.new) }
    {
        for (number, section) in self.names.program.sections.iter().enumerate() {
            self.push_tell(out, number, section)?;
        }
        Ok(())
    }

    // Appends the text before the cases.
    fn push_tell_start(&self, out: &mut String) -> Result<(), AllocError>
        ensures { OnOk result (AddsText (text.tell_start self.now.names.prefix.now) out.old out.new) }
    {
        write!(out, "AL_INLINE void {}Tell(FILE *f, ", self.names.prefix)?;
        DataWriter { names: self.names }.push_state_pointer(out)?;
        out.push_str(", int section, const int64_t *a, int trap, int64_t value)\n{\n")?;
        out.push_str(
            "  (void)f;\n  (void)s;\n  (void)a;\n  (void)trap;\n  (void)value;\n  switch (section) {\n",
        )
    }

    // Appends the function that writes a call's line.
    #[tactic(auto, unfolding(crate::specs::Histories::tells_text))]
    fn push_tells(&self, out: &mut String) -> Result<(), AllocError>
        ensures { OnOk result (AddsText
            (text.tells_text self.now.names.prefix.now self.now.names.program.now) out.old out.new) }
    {
        self.push_tell_start(out)?;
        self.push_all_tells(out)?;
        push_cases_end(out)
    }

    /// Appends the functions that write calls and cells. The one error is a refused growth.
    pub fn push_shown(&self, out: &mut String) -> Result<(), AllocError>
        ensures { OnOk result (AddsText
            (text.shown_text self.now.names.prefix.now self.now.names.program.now) out.old out.new) }
    {
        out.push_str("#if defined(AL_MAIN) || defined(AL_HISTORY)\n")?;
        DataWriter { names: self.names }.push_objects(out)?;
        self.push_tells(out)?;
        DataWriter { names: self.names }.push_cells(out)?;
        out.push_str("#endif\n")
    }

    // Appends the function that opens a history.
    fn push_history_open(&self, out: &mut String) -> Result<(), AllocError>
        ensures { OnOk result (AddsText (text.open_text self.now.names.prefix.now) out.old out.new) }
    {
        let prefix = self.names.prefix;
        write!(
            out,
            "#ifdef AL_HISTORY
int {prefix}HistoryOpen(struct {prefix}State *s)
{{
  if (s->history == NULL) s->history = autolock_history_open();
  return s->history == NULL;
}}
"
        )
    }

    // Appends the function that returns the number of the calling thread.
    fn push_history_seat(&self, out: &mut String) -> Result<(), AllocError>
        ensures { OnOk result (AddsText (text.seat_text self.now.names.prefix.now) out.old out.new) }
    {
        let prefix = self.names.prefix;
        write!(
            out,
            "int64_t {prefix}Seat(struct {prefix}State *s)
{{
  struct autolock_seat *seat = s->history != NULL ? autolock_sit(s->history, -1) : NULL;
  return seat != NULL ? seat->number : -1;
}}
"
        )
    }

    // Appends the function that writes the history.
    fn push_history_write(&self, out: &mut String) -> Result<(), AllocError>
        ensures { OnOk result (AddsText (text.write_text self.now.names.prefix.now) out.old out.new) }
    {
        let prefix = self.names.prefix;
        write!(
            out,
            "int {prefix}HistoryWrite(FILE *f, struct {prefix}State *s)
{{
  struct autolock_seat **at = s->history != NULL ? autolock_places(s->history) : NULL;
  int64_t i;
  if (at == NULL) return 1;
  fputs(\"history 2\\n\", f);
  for (i = 0; i < s->history->length; i++) {{
    const struct autolock_entry *e = autolock_next(at[i]);
    fprintf(f, \"call %\" PRId64 \" %\" PRId64 \" %\" PRId64, at[i]->number, at[i]->told++, e->begun);
    {prefix}Tell(f, s, e->section, e->word, e->trap, e->value);
    autolock_write_prints(f, e->prints, e->word + e->arguments);
  }}
  {prefix}Cells(f, s);
  AL_FREE(at);
  return fflush(f) != 0 || ferror(f) != 0;
}}
"
        )
    }

    // Appends the function that drops the history.
    fn push_history_close(&self, out: &mut String) -> Result<(), AllocError>
        ensures { OnOk result (AddsText (text.close_text self.now.names.prefix.now) out.old out.new) }
    {
        let prefix = self.names.prefix;
        write!(
            out,
            "void {prefix}HistoryClose(struct {prefix}State *s)
{{
  if (s->history != NULL) autolock_history_close(s->history);
  s->history = NULL;
}}
#endif
"
        )
    }

    /// Appends the functions of the recorder that a caller uses. The one error is a refused growth.
    #[tactic(auto, unfolding(crate::specs::Histories::histories_text))]
    pub fn push_histories(&self, out: &mut String) -> Result<(), AllocError>
        ensures { OnOk result (AddsText (text.histories_text self.now.names.prefix.now) out.old out.new) }
    {
        self.push_history_open(out)?;
        self.push_history_seat(out)?;
        self.push_history_write(out)?;
        self.push_history_close(out)
    }
}
