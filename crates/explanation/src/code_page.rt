//! The page of a code.

ghost use Rattle.std.specs.Prelude.{◌≡◌, IfOk, OnOk, string_bytes};
ghost use Rattle.locks.specs.Texts.{AddsText};
ghost use Rattle.explanation.specs.CodePages.{heading, meaning, page_text, remedies};

use crate::code_texts::{places, program, ways_out};
use crate::remedy::remedy_of;
use source::fault::Code;
use source::memory::NoMemory;
use std::alloc::{AllocError, Global};

fn push_heading(out: &mut String, code: Code) -> Result<(), AllocError>
    ensures { OnOk result (AddsText (heading code) out.old out.new) }
{
    out.push_str(code.name())?;
    out.push_str(" ")?;
    out.push_str(code.text())?;
    out.push_str("\n")
}

fn push_meaning(out: &mut String, code: Code) -> Result<(), AllocError>
    ensures { OnOk result (AddsText (meaning code) out.old out.new) }
{
    out.push_str("\n")?;
    out.push_str(places(code))?;
    out.push_str("\n")?;
    out.push_str(program(code))
}

fn push_remedies(out: &mut String, code: Code) -> Result<(), AllocError>
    ensures { OnOk result (AddsText (remedies code) out.old out.new) }
{
    out.push_str("\nhelp: ")?;
    out.push_str(remedy_of(code))?;
    out.push_str("\n")?;
    out.push_str(ways_out(code))
}

/// The page of a code: the code with its message, the places of its faults, a program that has one, and remedies.
///
/// # Errors
///
/// Out of memory.
pub fn page(alloc: Global, code: Code) -> Result<String, NoMemory>
    ensures { IfOk result (λ page. string_bytes page ≡ page_text code) }
{
    let mut out = String::new(alloc);
    push_heading(&mut out, code)?;
    push_meaning(&mut out, code)?;
    push_remedies(&mut out, code)?;
    out.push_str("\nMore: docs/LANGUAGE.md\n")?;
    Ok(out)
}
