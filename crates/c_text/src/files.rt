//! The C text of a whole program.

ghost use Rattle.std.specs.Prelude.{◌≡◌, ◌<◌, OnOk, IfOk, Some, None, length, string_bytes};
ghost use Rattle.locks.specs.Texts.{AddsText};
ghost use Rattle.c_text.specs.Fixed as fixed;
ghost use Rattle.c_text.specs.Files as text;
ghost use Rattle.c_text.specs.Histories as histories;
ghost use Rattle.c_text.specs.Mains as mains;
ghost use Rattle.c_data.specs.Openings as openings;
ghost use Rattle.c_data.specs.Pools as pools;
ghost use Rattle.c_data.specs.Types as types;
ghost use Rattle.c_text.specs.Files.{file_of, source_of};

use crate::fixed::{
    push_arithmetic, push_closed, push_locking, push_opened, push_runs,
    push_types as push_fixed_types,
};
use crate::histories::push_cases_end;
use crate::recording::push_recorder;
use crate::writer::FileWriter;
use c_data::writer::DataWriter;
use c_sections::marks::LineMarks;
use c_sections::names::Writer;
use c_sections::sections::prints;
use code::Listed;
use code::places::SectionPlaces;
use lowering::compiled::Program;
use source::cursor::Cursor;
use source::memory::NoMemory;
use std::alloc::{AllocError, Global};

/// The program's file.
#[derive(Clone, Copy)]
pub struct SourceFile<'a> {
    /// The file's name.
    pub name: &'a str,
    /// The file's text.
    pub text: &'a [u8],
}

/// A program whose text is written, and the prefix of its names.
#[derive(Clone, Copy)]
struct FileText<'a> {
    program: &'a Program,
    prefix: &'a str,
    // The program's file, where its lines are to be marked.
    source: Option<SourceFile<'a>>,
}

/// A cursor over the lines of the program's file, for section after section.
#[derive(Drop)]
struct Marker<'a> {
    name: &'a str,
    cursor: Cursor<'a>,
}

impl<'a> FileText<'a> {
    ghost use Rattle.c_text.specs.Working.Sections.{at_number, IsListed, file_in};

    // The number of sections.
    fn count(&self) -> usize
        ensures { result ≡ length self.now.program.now.program.sections.items }
    {
        self.program.expanded().sections.len()
    }

    // The section with the number `number`, with its code and its lock paths.
    fn listed(&self, number: usize) -> Listed<'a>
        requires { number < length self.now.program.now.program.sections.items }
        ensures { IsListed self.now.program.now.program self.now.program.now.lists number result }
    {
        Listed {
            section: &self.program.expanded().sections[number],
            code: &self.program.code().sections[number],
            lists: self.program.lists_before(number),
            paths: &self.program.paths().sections[number].paths,
        }
    }

    // The writer of the file's parts.
    fn writer(&self) -> FileWriter<'a>
        ensures program { result.names.program.now ≡ self.now.program.now.program }
        ensures prefix { result.names.prefix.now ≡ self.now.prefix.now }
    {
        FileWriter {
            names: Writer {
                program: self.program.expanded(),
                prefix: self.prefix,
            },
        }
    }

    // Appends the prototype of the section with the number `number`.
    fn push_prototype(&self, out: &mut String, number: usize) -> Result<(), AllocError>
        requires { number < length self.now.program.now.program.sections.items }
        ensures { OnOk result (AddsText (at_number
            (text.prototype_of self.now.prefix.now self.now.program.now.program self.now.program.now.lists)
            self.now.program.now.program number) out.old out.new) }
    {
        let listed = self.listed(number);
        let printing = prints(&listed.code.instructions);
        self.writer()
            .names
            .push_prototype(out, listed.section, printing)?;
        out.push_str(";\n")
    }

    // Appends the section with the number `number`.
    fn push_section(&self, alloc: Global, out: &mut String, number: usize) -> Result<(), NoMemory>
        requires { number < length self.now.program.now.program.sections.items }
        ensures { OnOk result (AddsText (at_number
            (text.section_of self.now.prefix.now self.now.program.now.program self.now.program.now.lists)
            self.now.program.now.program number) out.old out.new) }
    {
        self.writer()
            .names
            .push_section(alloc, out, self.listed(number), None)
    }

    // Appends the section with the number `number`, with the lines of the program's file.
    fn push_marked_section(
        &self,
        alloc: Global,
        out: &mut String,
        marker: &mut Marker<'_>,
        number: usize,
    ) -> Result<(), NoMemory>
        requires { number < length self.now.program.now.program.sections.items }
        ensures same { file_in marker.new ≡ file_in marker.old }
        ensures text { OnOk result (AddsText (at_number
            (text.marked_of self.now.prefix.now self.now.program.now.program self.now.program.now.lists
            (file_in marker.old)) self.now.program.now.program number) out.old out.new) }
    {
        let listed = self.listed(number);
        let places = SectionPlaces::of(alloc, &mut marker.cursor, listed.section)?;
        let marks = LineMarks {
            name: marker.name,
            places: &places,
        };
        self.writer()
            .names
            .push_section(alloc, out, listed, Some(marks))
    }

    // Appends the call of the section with the number `number`.
    fn push_case(&self, out: &mut String, number: usize) -> Result<(), AllocError>
        requires { number < length self.now.program.now.program.sections.items }
        ensures { OnOk result (AddsText (at_number
            (text.case_of self.now.prefix.now self.now.program.now.program self.now.program.now.lists)
            self.now.program.now.program number) out.old out.new) }
    {
        let listed = self.listed(number);
        let printing = prints(&listed.code.instructions);
        self.writer()
            .push_case(out, number, listed.section, printing)
    }

    // Appends the prototypes of all sections.
    fn push_prototypes(&self, out: &mut String) -> Result<(), AllocError>
        ensures { OnOk result (AddsText
            (text.prototypes_text self.now.prefix.now self.now.program.now.program self.now.program.now.lists)
            out.old out.new) }
    {
        for number in 0..self.count() {
            self.push_prototype(out, number)?;
        }
        Ok(())
    }

    // Appends all sections.
    fn push_plain_sections(&self, alloc: Global, out: &mut String) -> Result<(), NoMemory>
        ensures { OnOk result (AddsText
            (text.sections_text self.now.prefix.now self.now.program.now.program self.now.program.now.lists None)
            out.old out.new) }
    {
        for number in 0..self.count() {
            self.push_section(alloc, out, number)?;
        }
        Ok(())
    }

    // Appends all sections, with the lines of the program's file.
    fn push_marked_sections(
        &self,
        alloc: Global,
        out: &mut String,
        source: SourceFile<'_>,
    ) -> Result<(), NoMemory>
        ensures { OnOk result (AddsText
            (text.sections_text self.now.prefix.now self.now.program.now.program self.now.program.now.lists
            (Some (file_of source.entry))) out.old out.new) }
    {
        let mut marker = Marker {
            name: source.name,
            cursor: Cursor::new(source.text),
        };
        for number in 0..self.count() {
            self.push_marked_section(alloc, out, &mut marker, number)?;
        }
        Ok(())
    }

    // Appends all sections, with the lines of the program's file where they are to be marked.
    fn push_sections(&self, alloc: Global, out: &mut String) -> Result<(), NoMemory>
        ensures { OnOk result (AddsText
            (text.sections_text self.now.prefix.now self.now.program.now.program self.now.program.now.lists
            (source_of self.now.source)) out.old out.new) }
    {
        match self.source {
            None => self.push_plain_sections(alloc, out),
            Some(source) => self.push_marked_sections(alloc, out, source),
        }
    }

    // Appends the calls of all sections.
    fn push_cases(&self, out: &mut String) -> Result<(), AllocError>
        ensures { OnOk result (AddsText
            (text.cases_text self.now.prefix.now self.now.program.now.program self.now.program.now.lists)
            out.old out.new) }
    {
        for number in 0..self.count() {
            self.push_case(out, number)?;
        }
        Ok(())
    }

    // Appends the first lines.
    #[tactic(auto, unfolding(crate::specs::Files::head_text))]
    fn push_head(&self, out: &mut String) -> Result<(), AllocError>
        ensures { OnOk result (AddsText (text.head_text self.now.prefix.now) out.old out.new) }
    {
        let prefix = self.prefix;
        write!(
            out,
            "/* Sections with their locks placed, by autolock. */\n#ifndef {prefix}Header\n#define {prefix}Header\n"
        )
    }

    // Appends all types.
    fn push_types(&self, out: &mut String) -> Result<(), AllocError>
        ensures { OnOk result (AddsText
            (types.types_text self.now.prefix.now self.now.program.now.program) out.old out.new) }
    {
        DataWriter {
            names: self.writer().names,
        }
        .push_types(out)
    }

    // Appends the tests of pointers.
    fn push_pointer_tests(&self, out: &mut String) -> Result<(), AllocError>
        ensures { OnOk result (AddsText
            (pools.tests_text self.now.prefix.now self.now.program.now.program) out.old out.new) }
    {
        DataWriter {
            names: self.writer().names,
        }
        .push_pointer_tests(out)
    }

    // Appends the functions that open and close the state.
    fn push_openings(&self, out: &mut String) -> Result<(), AllocError>
        ensures { OnOk result (AddsText
            (openings.openings_text self.now.prefix.now self.now.program.now.program) out.old out.new) }
    {
        DataWriter {
            names: self.writer().names,
        }
        .push_openings(out)
    }

    // Appends the numbers of the sections.
    fn push_numbers(&self, out: &mut String) -> Result<(), AllocError>
        ensures { OnOk result (AddsText
            (histories.numbers_text self.now.prefix.now self.now.program.now.program.sections.items)
            out.old out.new) }
    {
        self.writer().push_numbers_of_sections(out)
    }

    // Appends the functions that write calls and cells.
    fn push_shown(&self, out: &mut String) -> Result<(), AllocError>
        ensures { OnOk result (AddsText
            (histories.shown_text self.now.prefix.now self.now.program.now.program) out.old out.new) }
    {
        self.writer().push_shown(out)
    }

    // Appends the functions of the recorder that a caller uses.
    fn push_histories(&self, out: &mut String) -> Result<(), AllocError>
        ensures { OnOk result (AddsText (histories.histories_text self.now.prefix.now) out.old out.new) }
    {
        self.writer().push_histories(out)
    }

    // Appends the calls of all threads.
    fn push_scripts(&self, out: &mut String) -> Result<(), AllocError>
        ensures { OnOk result (AddsText
            (mains.scripts_text self.now.prefix.now self.now.program.now.program.threads.items) out.old out.new) }
    {
        self.writer().push_scripts(out)
    }

    // Appends the text before the calls of sections.
    fn push_call_start(&self, out: &mut String) -> Result<(), AllocError>
        ensures { OnOk result (AddsText (mains.call_start self.now.prefix.now) out.old out.new) }
    {
        self.writer().push_call_start(out)
    }

    // Appends the run.
    fn push_run(&self, out: &mut String) -> Result<(), AllocError>
        ensures { OnOk result (AddsText (mains.run_all self.now.prefix.now) out.old out.new) }
    {
        self.writer().push_run_all(out)
    }

    // Appends the header.
    #[tactic(auto, unfolding(crate::specs::Files::header_text))]
    fn push_header(&self, out: &mut String) -> Result<(), AllocError>
        ensures { OnOk result (AddsText
            (text.header_text self.now.prefix.now self.now.program.now.program self.now.program.now.lists)
            out.old out.new) }
    {
        self.push_head(out)?;
        push_fixed_types(out)?;
        push_opened(out)?;
        self.push_types(out)?;
        self.push_prototypes(out)?;
        push_closed(out)
    }

    // Appends the functions.
    #[tactic(auto, unfolding(crate::specs::Files::functions_text))]
    fn push_functions(&self, alloc: Global, out: &mut String) -> Result<(), NoMemory>
        ensures { OnOk result (AddsText
            (text.functions_text self.now.prefix.now self.now.program.now.program self.now.program.now.lists
            (source_of self.now.source)) out.old out.new) }
    {
        push_arithmetic(out)?;
        push_locking(out)?;
        push_recorder(out)?;
        self.push_pointer_tests(out)?;
        self.push_openings(out)?;
        self.push_numbers(out)?;
        self.push_sections(alloc, out)
    }

    // Appends the program that runs the threads.
    #[tactic(auto, unfolding(crate::specs::Files::main_text))]
    fn push_main(&self, out: &mut String) -> Result<(), AllocError>
        ensures { OnOk result (AddsText
            (text.main_text self.now.prefix.now self.now.program.now.program self.now.program.now.lists)
            out.old out.new) }
    {
        push_runs(out)?;
        self.push_scripts(out)?;
        self.push_call_start(out)?;
        self.push_cases(out)?;
        push_cases_end(out)?;
        self.push_run(out)
    }
}

/// The parts of a program that another C or C++ file can use: its types, the functions that open and close the state,
/// and the prototypes of its sections. Each name begins with `prefix`, a word of letters and digits.
///
/// # Errors
///
/// `NoMemory`: a growth was refused.
pub fn header<'a>(alloc: Global, program: &'a Program, prefix: &'a str) -> Result<String, NoMemory>
    ensures { IfOk result (λ made. string_bytes made
        ≡ text.header_text prefix.now program.now.program program.now.lists) }
{
    let mut out = String::new(alloc);
    let file = FileText {
        program,
        prefix,
        source: None,
    };
    file.push_header(&mut out)?;
    Ok(out)
}

/// The C file of a program, which begins with the header: all functions, where AL_HISTORY is defined also the recorder
/// of a history of the calls, where AL_MAIN is defined also a program that runs the threads. Where `source` is given,
/// `#line` directives give the C of each statement the statement's line.
///
/// # Errors
///
/// `NoMemory`: a growth was refused.
#[tactic(auto, unfolding(crate::specs::Files::file_text))]
pub fn file<'a>(
    alloc: Global,
    program: &'a Program,
    prefix: &'a str,
    source: Option<SourceFile<'a>>,
) -> Result<String, NoMemory>
    ensures { IfOk result (λ made. string_bytes made
        ≡ text.file_text prefix.now program.now.program program.now.lists (source_of source.entry)) }
{
    let mut out = String::new(alloc);
    let file = FileText {
        program,
        prefix,
        source,
    };
    file.push_header(&mut out)?;
    file.push_functions(alloc, &mut out)?;
    file.push_shown(&mut out)?;
    file.push_histories(&mut out)?;
    file.push_main(&mut out)?;
    Ok(out)
}
