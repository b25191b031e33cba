//! The lines of notes and of warnings, and their places.

ghost use Rattle.std.specs.Prelude.{◌≡◌, IfOk, OnOk, map, string_bytes};
ghost use Rattle.source.specs.Faults.{place_text};
ghost use Rattle.explanation.specs.Working.Lines.{told_words};
ghost use Rattle.locks.specs.Texts.{AddsText};
ghost use Rattle.explanation.specs.Further.{further_of, more_text};
ghost use Rattle.explanation.specs.Notes.{note_of, said_text};
ghost use Rattle.explanation.specs.Warnings.{warning_of};

use crate::further::Further;
use crate::marks::CursorMarks;
use crate::note::Note;
use crate::shown::push_place;
use crate::warning::Warning;
use source::cursor::Cursor;
use source::memory::NoMemory;
use source::mistake::Mistake;
use std::alloc::{AllocError, Global};

/// Appends the line of a note without a place.
fn push_said(out: &mut String, words: &str) -> Result<(), AllocError>
    ensures { OnOk result (AddsText (said_text words.now) out.old out.new) }
{
    out.push_str("note: ")?;
    out.push_str(words)?;
    out.push_str("\n")
}

/// Appends that more faults were found, if so.
fn push_more(out: &mut String, has_more: bool) -> Result<(), AllocError>
    ensures { OnOk result (AddsText (more_text has_more) out.old out.new) }
{
    if has_more {
        out.push_str("there are more faults\n")?;
    }
    Ok(())
}

/// The line FILE:LINE:COL: LABEL WORDS.
fn line_at(
    alloc: Global,
    file: &str,
    at: Cursor<'_>,
    label: &str,
    words: &str,
) -> Result<String, AllocError>
    ensures { IfOk result
        (λ told. string_bytes told ≡ told_words file.now at.entry.line at.entry.column label.now words.now) }
{
    let (line, column) = (at.line, at.column);
    let mut told = String::from_str(alloc, file)?;
    write!(told, ":{line}:{column}: ")?;
    told.push_str(label)?;
    told.push_str(" ")?;
    told.push_str(words)?;
    Ok(told)
}

/// A text and the name of its file, with marks in the text.
#[derive(Drop)]
pub struct Places<'a> {
    alloc: Global,
    file: &'a str,
    text: &'a [u8],
    marks: CursorMarks<'a>,
    ghost same: { marks.text.now ≡ text.now },
}

impl<'a> Places<'a> {
    ghost use Rattle.explanation.specs.Working.Values.{labelled_text_of, note_text_of, note_texts_of, warning_text_of, warning_texts_of};
    ghost use Rattle.explanation.specs.Working.Values.{further_fault_text_of, further_fault_texts_of, further_text_of};

    /// The places of `text`.
    pub fn of(alloc: Global, file: &'a str, text: &'a [u8]) -> Result<Places<'a>, NoMemory>
        ensures file { IfOk result (λ places. places.file.now ≡ file.entry.now) }
        ensures text { IfOk result (λ places. places.text.now ≡ text.entry.now) }
    {
        Ok(Places {
            alloc,
            file,
            text,
            marks: CursorMarks::of(alloc, text)?,
        })
    }

    // The line of this place.
    fn line(&self, start: usize, label: &str, words: &str) -> Result<String, AllocError>
        ensures { IfOk result
            (λ told. string_bytes told ≡ place_text self.now.file.now self.now.text.now start label.now words.now) }
    {
        let at = self.marks.at(start);
        line_at(self.alloc, self.file, at, label, words)
    }

    // Appends the line, and the place.
    fn push_placed(
        &self,
        out: &mut String,
        start: usize,
        label: &str,
        words: &str,
    ) -> Result<(), AllocError>
        ensures { OnOk result (AddsText (labelled_text_of self.now start label.now words.now) out.old out.new) }
    {
        let line = self.line(start, label, words)?;
        out.push_str(line.as_str())?;
        out.push_str("\n")?;
        push_place(out, self.text, start)
    }

    // Appends the line of a note, and its place, if it has one.
    fn push_note(&self, out: &mut String, note: &Note) -> Result<(), AllocError>
        ensures { OnOk result (AddsText (note_text_of self.now (note_of note.now)) out.old out.new) }
    {
        match note.start {
            Some(start) => self.push_placed(out, start, "note:", note.words.as_str()),
            None => push_said(out, note.words.as_str()),
        }
    }

    // Appends the line of a warning, and its place.
    fn push_warning(&self, out: &mut String, warning: &Warning) -> Result<(), AllocError>
        ensures { OnOk result (AddsText (warning_text_of self.now (warning_of warning.now)) out.old out.new) }
    {
        let words = warning.what.words(self.alloc)?;
        self.push_placed(out, warning.start, "warning:", words.as_str())
    }

    /// Appends notes, one after another.
    pub fn push_notes(&self, out: &mut String, notes: &[Note]) -> Result<(), AllocError>
        ensures { OnOk result (AddsText (note_texts_of self.now (map note_of notes.now)) out.old out.new) }
    {
        for note in notes {
            self.push_note(out, note)?;
        }
        Ok(())
    }

    /// Appends warnings, one after another.
    pub fn push_warnings(&self, out: &mut String, warnings: &[Warning]) -> Result<(), AllocError>
        ensures { OnOk result (AddsText (warning_texts_of self.now (map warning_of warnings.now)) out.old out.new) }
    {
        for warning in warnings {
            self.push_warning(out, warning)?;
        }
        Ok(())
    }

    // Appends the line of a further fault, and its place.
    fn push_further_fault(&self, out: &mut String, fault: Mistake) -> Result<(), AllocError>
        ensures { OnOk result (AddsText (further_fault_text_of self.now fault) out.old out.new) }
    {
        self.push_placed(out, fault.start, fault.code.name(), fault.code.text())
    }

    // Appends further faults, one after another.
    fn push_further_faults(&self, out: &mut String, faults: &[Mistake]) -> Result<(), AllocError>
        ensures { OnOk result (AddsText (further_fault_texts_of self.now faults.now) out.old out.new) }
    {
        for fault in faults {
            self.push_further_fault(out, *fault)?;
        }
        Ok(())
    }

    /// Appends further faults, and whether more were found.
    pub fn push_further(&self, out: &mut String, further: &Further) -> Result<(), AllocError>
        ensures { OnOk result (AddsText (further_text_of self.now (further_of further.now)) out.old out.new) }
    {
        self.push_further_faults(out, &further.faults)?;
        push_more(out, further.has_more)
    }
}
