//! The text that explains a fault, and the text of a program without one.

ghost use Rattle.std.specs.Prelude.{◌≡◌, IfOk, string_bytes};

use crate::further::Further;
use crate::note::Note;
use crate::notes::Places;
use crate::remedy::push_remedy;
use crate::shown::push_place;
use crate::warning::Warning;
use source::fault::Fault;
use source::line::fault_line;
use source::memory::NoMemory;
use std::alloc::Global;

/// The explanation of a fault.
#[derive(Drop)]
pub struct Explanation<'a> {
    /// The name of the text's file.
    pub file: &'a str,
    /// The text.
    pub text: &'a [u8],
    /// The fault.
    pub fault: &'a Fault,
    /// The notes beyond its line.
    pub notes: &'a [Note],
    /// The faults after it.
    pub further: &'a Further,
}

impl Explanation<'_> {
    ghost use Rattle.explanation.specs.Working.Values.{explanation_text_of};

    /// The line that reports the fault, as [`fault_line`] gives it. The line of the source, and below it a caret under
    /// the place. A line for each note, and its place in the same form, if it has one. The remedy. The line and the
    /// place of each further fault, and whether more were found. A line of the source is shown up to 60 bytes before
    /// the place and 60 from it on.
    ///
    /// # Errors
    ///
    /// Out of memory.
    pub fn text(&self, alloc: Global) -> Result<String, NoMemory>
        ensures { IfOk result (λ text. string_bytes text ≡ explanation_text_of self.now) }
    {
        let mut out = fault_line(alloc, self.file, self.text, self.fault)?;
        out.push_str("\n")?;
        push_place(&mut out, self.text, self.fault.start)?;
        let places = Places::of(alloc, self.file, self.text)?;
        places.push_notes(&mut out, self.notes)?;
        push_remedy(&mut out, self.fault.code)?;
        places.push_further(&mut out, self.further)?;
        Ok(out)
    }
}

/// The notes and warnings of a program without a fault.
#[derive(Drop)]
pub struct Acceptance<'a> {
    /// The name of the text's file.
    pub file: &'a str,
    /// The text.
    pub text: &'a [u8],
    /// The notes beyond that it is accepted.
    pub notes: &'a [Note],
    /// The parts of the program that may not be as meant.
    pub warnings: &'a [Warning],
}

impl Acceptance<'_> {
    ghost use Rattle.explanation.specs.Working.Values.{accepted_text_of};

    /// The line `accepted`, for each note what [`Explanation::text`] writes of it, and for each warning the same, with
    /// the word `warning` instead of `note`.
    ///
    /// # Errors
    ///
    /// Out of memory.
    pub fn text(&self, alloc: Global) -> Result<String, NoMemory>
        ensures { IfOk result (λ text. string_bytes text ≡ accepted_text_of self.now) }
    {
        let mut out = String::from_str(alloc, "accepted\n")?;
        let places = Places::of(alloc, self.file, self.text)?;
        places.push_notes(&mut out, self.notes)?;
        places.push_warnings(&mut out, self.warnings)?;
        Ok(out)
    }
}
