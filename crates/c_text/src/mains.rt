//! The program that runs the threads. The one error is a refused growth.

ghost use Rattle.std.specs.Prelude.{◌≡◌, OnOk};
ghost use Rattle.locks.specs.Texts.{AddsText};
ghost use Rattle.c_text.specs.Mains as text;
ghost use Rattle.c_sections.specs.Sections as sections;

use crate::histories::parameters;
use crate::writer::FileWriter;
use c_data::writer::DataWriter;
use c_sections::sections::push_cast;
use c_statements::names::{push_number, push_struct};
use core_lang::tree::{Local, Section};
use core_lang::typed::{Call, Thread};
use core_lang::value::{Value, ValueType};
use std::alloc::AllocError;

/// Appends an argument: a number, or the number of an object, or -1 for null.
fn push_argument(out: &mut String, value: Value) -> Result<(), AllocError>
    ensures { OnOk result (AddsText (text.argument_text value) out.old out.new) }
{
    match value {
        Value::Int(number) => push_number(out, number),
        Value::Ref(None) => out.push_str("-1"),
        Value::Ref(Some(object)) => write!(out, "{object}"),
    }
}

/// Appends the arguments of a call, with a comma and a space between them, or 0 where there are none.
fn push_arguments(out: &mut String, values: &[Value]) -> Result<(), AllocError>
    ensures { OnOk result (AddsText (text.arguments_text values.now) out.old out.new) }
{
    let Some((first, rest)) = values.split_first() else {
        return out.push_str("0");
    };
    push_argument(out, *first)?;
    for value in rest {
        out.push_str(", ")?;
        push_argument(out, *value)?;
    }
    Ok(())
}

/// Appends the arguments of `call`.
fn push_arguments_of(out: &mut String, call: &Call) -> Result<(), AllocError>
    ensures { OnOk result (AddsText (text.arguments_text call.now.arguments.items) out.old out.new) }
{
    push_arguments(out, &call.arguments)
}

/// Appends a call.
fn push_call(out: &mut String, call: &Call) -> Result<(), AllocError>
    ensures { OnOk result (AddsText (text.call_text call.now) out.old out.new) }
{
    write!(out, "  {{ {}, {{ ", call.section)?;
    push_arguments_of(out, call)?;
    out.push_str(" } },\n")
}

/// Appends the calls of a thread.
fn push_calls(out: &mut String, thread: &Thread) -> Result<(), AllocError>
    ensures { OnOk result (AddsText (text.calls_text thread.now.calls.items) out.old out.new) }
{
    for call in &thread.calls {
        push_call(out, call)?;
    }
    Ok(())
}

/// Appends the declaration of the buffer for prints, if the section prints.
#[tactic(auto, unfolding(crate::specs::Mains::prints_declared))]
fn push_prints_declared(out: &mut String, prints: bool) -> Result<(), AllocError>
    ensures { OnOk result (AddsText (text.prints_declared prints) out.old out.new) }
{
    if prints {
        return out.push_str("    struct autolock_prints out;\n");
    }
    Ok(())
}

/// Appends the pointer to the buffer as an argument, if the section prints.
#[tactic(auto, unfolding(crate::specs::Mains::prints_passed))]
fn push_prints_passed(out: &mut String, prints: bool) -> Result<(), AllocError>
    ensures { OnOk result (AddsText (text.prints_passed prints) out.old out.new) }
{
    if prints {
        return out.push_str(", &out");
    }
    Ok(())
}

/// Appends the statement that writes the prints, if the section prints.
#[tactic(auto, unfolding(crate::specs::Mains::prints_written))]
fn push_prints_written(out: &mut String, prints: bool) -> Result<(), AllocError>
    ensures { OnOk result (AddsText (text.prints_written prints) out.old out.new) }
{
    if prints {
        return out.push_str("    autolock_write_prints(f, out.count, out.value);\n");
    }
    Ok(())
}

/// Appends the result as a number.
fn push_result_word(out: &mut String, result_type: Option<ValueType>) -> Result<(), AllocError>
    ensures { OnOk result (AddsText (text.result_word result_type) out.old out.new) }
{
    match result_type {
        None => out.push_str("0"),
        Some(ValueType::Integer) => out.push_str("r.value"),
        Some(ValueType::Reference(_)) => out.push_str("(int64_t)(uintptr_t)r.value"),
    }
}

impl FileWriter<'_> {
    // Appends the calls of the thread with the number `number`.
    fn push_script(
        &self,
        out: &mut String,
        number: usize,
        thread: &Thread,
    ) -> Result<(), AllocError>
        ensures { OnOk result (AddsText
            (text.script_text self.now.names.prefix.now number thread.now) out.old out.new) }
    {
        write!(
            out,
            "static const struct autolock_call {}Script_{number}[] = {{\n",
            self.names.prefix
        )?;
        push_calls(out, thread)?;
        out.push_str("  { -1, { 0 } }\n};\n")
    }

    // Appends the name of that list of calls.
    #[tactic(auto, unfolding(crate::specs::Mains::script_name))]
    fn push_script_name(
        &self,
        out: &mut String,
        number: usize,
        thread: &Thread,
    ) -> Result<(), AllocError>
        ensures { OnOk result (AddsText
            (text.script_name self.now.names.prefix.now number thread.now) out.old out.new) }
    {
        let _thread = thread;
        write!(out, "  {}Script_{number},\n", self.names.prefix)
    }

    // Appends the calls of all threads.
    fn push_all_scripts(&self, out: &mut String) -> Result<(), AllocError>
        ensures { OnOk result (AddsText
            (text.all_scripts self.now.names.prefix.now self.now.names.program.now.threads.items) out.old out.new) }
    {
        for (number, thread) in self.names.program.threads.iter().enumerate() {
            self.push_script(out, number, thread)?;
        }
        Ok(())
    }

    // Appends the names of all lists of calls.
    fn push_script_names(&self, out: &mut String) -> Result<(), AllocError>
        ensures { OnOk result (AddsText
            (text.script_names self.now.names.prefix.now self.now.names.program.now.threads.items) out.old out.new) }
    {
        for (number, thread) in self.names.program.threads.iter().enumerate() {
            self.push_script_name(out, number, thread)?;
        }
        Ok(())
    }

    /// Appends the calls of all threads, and the list of these lists. The one error is a refused growth.
    pub fn push_scripts(&self, out: &mut String) -> Result<(), AllocError>
        ensures { OnOk result (AddsText
            (text.scripts_text self.now.names.prefix.now self.now.names.program.now.threads.items) out.old out.new) }
    {
        self.push_all_scripts(out)?;
        write!(
            out,
            "static const struct autolock_call *const {}Scripts[] = {{\n",
            self.names.prefix
        )?;
        self.push_script_names(out)?;
        out.push_str("  NULL\n};\n")
    }

    // Appends an argument, by its number and its type.
    fn push_passed(
        &self,
        out: &mut String,
        number: usize,
        value_type: ValueType,
    ) -> Result<(), AllocError>
        ensures { OnOk result (AddsText
            (text.passed_text self.now.names.prefix.now self.now.names.program.now number value_type)
            out.old out.new) }
    {
        match value_type {
            ValueType::Integer => write!(out, "a[{number}]"),
            ValueType::Reference(structure) => {
                write!(out, "{}At_", self.names.prefix)?;
                push_struct(out, self.names.program, structure)?;
                write!(out, "(s, a[{number}])")
            }
        }
    }

    // Appends an argument after others.
    fn push_passed_next(
        &self,
        out: &mut String,
        number: usize,
        local: &Local,
    ) -> Result<(), AllocError>
        ensures { OnOk result (AddsText
            (text.passed_next self.now.names.prefix.now self.now.names.program.now number local.now)
            out.old out.new) }
    {
        out.push_str(", ")?;
        self.push_passed(out, number, local.value_type)
    }

    // Appends the arguments for the parameters `locals`.
    fn push_each_passed(&self, out: &mut String, locals: &[Local]) -> Result<(), AllocError>
        ensures { OnOk result (AddsText
            (text.all_passed self.now.names.prefix.now self.now.names.program.now locals.now) out.old out.new) }
    {
        for (number, local) in locals.iter().enumerate() {
            self.push_passed_next(out, number, local)?;
        }
        Ok(())
    }

    // Appends all arguments of a section.
    fn push_all_passed(&self, out: &mut String, section: &Section) -> Result<(), AllocError>
        ensures { OnOk result (AddsText
            (text.all_passed self.now.names.prefix.now self.now.names.program.now (sections.parameters section.now))
            out.old out.new) }
    {
        self.push_each_passed(out, parameters(section))
    }

    // Appends the name of the struct that a section returns.
    fn push_result_struct(
        &self,
        out: &mut String,
        result_type: Option<ValueType>,
    ) -> Result<(), AllocError>
        ensures { OnOk result (AddsText
            (sections.result_struct self.now.names.prefix.now self.now.names.program.now result_type)
            out.old out.new) }
    {
        match result_type {
            None => out.push_str("autolock_end"),
            Some(ValueType::Integer) => out.push_str("autolock_int"),
            Some(ValueType::Reference(structure)) => {
                write!(out, "{}Ref_", self.names.prefix)?;
                push_struct(out, self.names.program, structure)
            }
        }
    }

    // Appends the call of a section.
    fn push_made(&self, out: &mut String, section: &Section, prints: bool) -> Result<(), AllocError>
        ensures { OnOk result (AddsText
            (text.made_text self.now.names.prefix.now self.now.names.program.now section.now prints)
            out.old out.new) }
    {
        push_prints_declared(out, prints)?;
        out.push_str("    struct ")?;
        self.push_result_struct(out, section.result_type)?;
        write!(out, " r = {}_{}(s", self.names.prefix, section.name)?;
        self.push_all_passed(out, section)?;
        push_prints_passed(out, prints)?;
        out.push_str(");\n")
    }

    // Appends an argument as a number.
    fn push_word_next(
        &self,
        out: &mut String,
        number: usize,
        local: &Local,
    ) -> Result<(), AllocError>
        ensures { OnOk result (AddsText
            (text.word_next self.now.names.prefix.now self.now.names.program.now number local.now)
            out.old out.new) }
    {
        push_cast(out, local.value_type)?;
        self.push_passed(out, number, local.value_type)?;
        out.push_str(", ")
    }

    // Appends the arguments for the parameters `locals` as numbers.
    fn push_each_word(&self, out: &mut String, locals: &[Local]) -> Result<(), AllocError>
        ensures { OnOk result (AddsText
            (text.all_words self.now.names.prefix.now self.now.names.program.now locals.now) out.old out.new) }
    {
        for (number, local) in locals.iter().enumerate() {
            self.push_word_next(out, number, local)?;
        }
        Ok(())
    }

    // Appends all arguments of a section as numbers.
    fn push_all_words(&self, out: &mut String, section: &Section) -> Result<(), AllocError>
        ensures { OnOk result (AddsText
            (text.all_words self.now.names.prefix.now self.now.names.program.now (sections.parameters section.now))
            out.old out.new) }
    {
        self.push_each_word(out, parameters(section))
    }

    // Appends the statements that write the lines of the call.
    fn push_told(&self, out: &mut String, section: &Section, prints: bool) -> Result<(), AllocError>
        ensures { OnOk result (AddsText
            (text.told_text self.now.names.prefix.now self.now.names.program.now section.now prints)
            out.old out.new) }
    {
        write!(
            out,
            "    fprintf(f, \"call %d %\" PRId64, t, k);\n    {}Tell(f, s, c->section, (const int64_t[9]) {{ ",
            self.names.prefix
        )?;
        self.push_all_words(out, section)?;
        out.push_str("0 }, r.trap, ")?;
        push_result_word(out, section.result_type)?;
        out.push_str(");\n")?;
        push_prints_written(out, prints)
    }

    /// Appends the case of the section with the number `number`: its call, and the lines of the call. The one error is
    /// a refused growth.
    pub fn push_case(
        &self,
        out: &mut String,
        number: usize,
        section: &Section,
        prints: bool,
    ) -> Result<(), AllocError>
        ensures { OnOk result (AddsText
            (text.case_text self.now.names.prefix.now self.now.names.program.now number section.now prints)
            out.old out.new) }
    {
        write!(out, "  case {number}: {{\n")?;
        self.push_made(out, section, prints)?;
        out.push_str("    if (f == NULL) break;\n")?;
        self.push_told(out, section, prints)?;
        out.push_str("    break;\n  }\n")
    }

    /// Appends the start of the function that makes a call. The one error is a refused growth.
    pub fn push_call_start(&self, out: &mut String) -> Result<(), AllocError>
        ensures { OnOk result (AddsText (text.call_start self.now.names.prefix.now) out.old out.new) }
    {
        write!(out, "static void {}Call(FILE *f, ", self.names.prefix)?;
        DataWriter { names: self.names }.push_state_pointer(out)?;
        out.push_str(", int t, int64_t k, const struct autolock_call *c)\n{\n")?;
        out.push_str("  const int64_t *a = c->a;\n  (void)f;\n  (void)s;\n  (void)t;\n")?;
        out.push_str("  (void)k;\n  (void)a;\n  switch (c->section) {\n")
    }

    // Appends the function that runs a thread.
    fn push_run(&self, out: &mut String) -> Result<(), AllocError>
        ensures { OnOk result (AddsText (text.run_text self.now.names.prefix.now) out.old out.new) }
    {
        let prefix = self.names.prefix;
        write!(
            out,
            "static struct {prefix}State {prefix}Main;
static const struct autolock_call *{prefix}Starts[64];
static void *{prefix}Run(void *start)
{{
  const struct autolock_call **from = (const struct autolock_call **)start;
"
        )?;
        write!(
            out,
            "  const struct autolock_call *c;
#ifdef AL_HISTORY
  autolock_sit({prefix}Main.history, from - {prefix}Starts);
#endif
"
        )?;
        write!(
            out,
            "  for (c = *from; c->section >= 0; c++) {prefix}Call(NULL, &{prefix}Main, 0, 0, c);
  return NULL;
}}
"
        )
    }

    // Appends the function that makes all calls, thread after thread.
    fn push_serial(&self, out: &mut String) -> Result<(), AllocError>
        ensures { OnOk result (AddsText (text.serial_text self.now.names.prefix.now) out.old out.new) }
    {
        let prefix = self.names.prefix;
        write!(
            out,
            "static void {prefix}Serial(FILE *f)
{{
  int t;
  int64_t k;
  fputs(\"history 1\\n\", f);
  for (t = 0; {prefix}Scripts[t] != NULL; t++)
"
        )?;
        write!(
            out,
            "    for (k = 0; {prefix}Scripts[t][k].section >= 0; k++)
      {prefix}Call(f, &{prefix}Main, t, k, &{prefix}Scripts[t][k]);
}}
"
        )
    }

    // Appends the start of the run.
    fn push_start(&self, out: &mut String) -> Result<(), AllocError>
        ensures { OnOk result (AddsText (text.start_text self.now.names.prefix.now) out.old out.new) }
    {
        let prefix = self.names.prefix;
        write!(
            out,
            "int main(int argc, char **argv)
{{
  static pthread_t threads[64];
  int t;
  {prefix}Open(&{prefix}Main);
  if (argc > 1 && strcmp(argv[1], \"serial\") == 0) {{
    {prefix}Serial(stdout);
  }} else {{
#ifdef AL_HISTORY
    if ({prefix}HistoryOpen(&{prefix}Main) != 0) return 4;
#endif
"
        )
    }

    // Appends the statements that start and join the threads.
    fn push_threads(&self, out: &mut String) -> Result<(), AllocError>
        ensures { OnOk result (AddsText (text.threads_text self.now.names.prefix.now) out.old out.new) }
    {
        let prefix = self.names.prefix;
        write!(
            out,
            "    for (t = 0; {prefix}Scripts[t] != NULL; t++) {{
      {prefix}Starts[t] = {prefix}Scripts[t];
      if (pthread_create(&threads[t], NULL, {prefix}Run, &{prefix}Starts[t]) != 0) return 4;
    }}
    while (t > 0) pthread_join(threads[--t], NULL);
"
        )
    }

    // Appends the end of the run.
    fn push_end(&self, out: &mut String) -> Result<(), AllocError>
        ensures { OnOk result (AddsText (text.end_text self.now.names.prefix.now) out.old out.new) }
    {
        let prefix = self.names.prefix;
        write!(
            out,
            "#ifdef AL_HISTORY
    t = {prefix}HistoryWrite(stdout, &{prefix}Main);
    {prefix}HistoryClose(&{prefix}Main);
"
        )?;
        write!(
            out,
            "    {prefix}Close(&{prefix}Main);
    return t == 0 ? 0 : 4;
#endif
  }}
"
        )?;
        write!(
            out,
            "  {prefix}Cells(stdout, &{prefix}Main);
  {prefix}Close(&{prefix}Main);
  return 0;
}}
#endif
"
        )
    }

    /// Appends the run. The one error is a refused growth.
    #[tactic(auto, unfolding(crate::specs::Mains::run_all))]
    pub fn push_run_all(&self, out: &mut String) -> Result<(), AllocError>
        ensures { OnOk result (AddsText (text.run_all self.now.names.prefix.now) out.old out.new) }
    {
        self.push_run(out)?;
        self.push_serial(out)?;
        self.push_start(out)?;
        self.push_threads(out)?;
        self.push_end(out)
    }
}
