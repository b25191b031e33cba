//! Why a recorded history differs.

ghost use Rattle.std.specs.Prelude.{◌++◌, OnOk, codes, string_bytes};
ghost use Rattle.std.specs.Fmt.{decimal};
ghost use Rattle.std.specs.List.{flat_map};
ghost use Rattle.code.specs.Listing.{line};
ghost use Rattle.locks.specs.Texts.{AddsText};
ghost use Rattle.input_files.specs.Histories.{recorded_lines};
ghost use Rattle.driver.specs.Replays.{begins_text, call_wanted, form_text, found_text, lack_text, wanted_line, wanted_text, why_text};

use input_files::{Format, Recorded};
use replay::{Judgement, Lack, Verdict, Wanted};
use std::alloc::{AllocError, Global};

/// Appends the lines of the calls that may come, each up to its end.
fn push_calls(out: &mut String, heads: &[String]) -> Result<(), AllocError>
    ensures { OnOk result (AddsText (flat_map (λ head. call_wanted (string_bytes head)) heads.now) out.old out.new) }
{
    for head in heads {
        writeln!(out, "expected: {head}..")?;
    }
    Ok(())
}

/// Appends the line of `words`, which say what may come.
fn push_words(out: &mut String, words: &str) -> Result<(), AllocError>
    ensures { OnOk result (AddsText (wanted_line words.now) out.old out.new) }
{
    writeln!(out, "expected: {words}")
}

/// Appends the form of a call's line.
fn push_form(out: &mut String, format: Format) -> Result<(), AllocError>
    ensures { OnOk result (AddsText (wanted_line (form_text format)) out.old out.new) }
{
    match format {
        Format::One => push_words(out, "call T K NAME(ARGUMENTS) .."),
        Format::Two => push_words(out, "call T K B NAME(ARGUMENTS) .."),
    }
}

/// Appends the form of a call's line, and `cells`.
fn push_open(out: &mut String, format: Format) -> Result<(), AllocError>
    ensures { OnOk result (AddsText (wanted_line (form_text format) ++ wanted_line (codes "cells")) out.old out.new) }
{
    push_form(out, format)?;
    push_words(out, "cells")
}

/// Appends the least begin that a call may have.
fn push_least(out: &mut String, least: usize) -> Result<(), AllocError>
    ensures { OnOk result (AddsText (codes "expected: B from " ++ decimal least) out.old out.new) }
{
    write!(out, "expected: B from {least}")
}

/// Appends the greatest begin that a call may have.
fn push_most(out: &mut String, most: usize) -> Result<(), AllocError>
    ensures { OnOk result (AddsText (line (codes " to " ++ decimal most)) out.old out.new) }
{
    writeln!(out, " to {most}")
}

/// Appends the range of the begins that a call may have.
fn push_begins(out: &mut String, least: usize, most: usize) -> Result<(), AllocError>
    ensures { OnOk result (AddsText (begins_text least most) out.old out.new) }
{
    push_least(out, least)?;
    push_most(out, most)
}

/// Appends what a line lacks to be the line of a call.
fn push_lack(out: &mut String, lack: Lack) -> Result<(), AllocError>
    ensures { OnOk result (AddsText (lack_text lack) out.old out.new) }
{
    match lack {
        Lack::Form(format) => push_open(out, format),
        Lack::Thread => push_words(out, "T from 0 to 4294967295"),
        Lack::Number(number) => writeln!(out, "expected: K {number}"),
        Lack::Begin { least, most } => push_begins(out, least, most),
        Lack::Section => push_words(out, "a section of the program"),
        Lack::Arguments => push_words(out, "arguments that fit the section"),
    }
}

/// Appends what may come.
fn push_wanted(out: &mut String, wanted: &Wanted) -> Result<(), AllocError>
    ensures { OnOk result (AddsText (wanted_text wanted.now) out.old out.new) }
{
    match wanted {
        Wanted::Line(text) => push_words(out, text.as_str()),
        Wanted::Calls(heads) => push_calls(out, heads),
        Wanted::Open(lack) => push_lack(out, *lack),
        Wanted::Nothing => push_words(out, "no line"),
    }
}

/// Appends the line of the file with the number `number`.
fn push_found(
    alloc: Global,
    out: &mut String,
    recorded: &Recorded<'_>,
    number: usize,
) -> Result<(), AllocError>
    ensures { OnOk result (AddsText (found_text (recorded_lines recorded.now) number) out.old out.new) }
{
    let found = match recorded.line(number.saturating_sub(2)) {
        Some(line) => String::from_utf8_lossy(alloc, line)?,
        None => String::from_str(alloc, "no line")?,
    };
    writeln!(out, "found: {found}")
}

/// Appends why the history differs, if it differs.
pub fn push_why(
    alloc: Global,
    out: &mut String,
    judgement: &Judgement,
    recorded: &Recorded<'_>,
) -> Result<(), AllocError>
    ensures { OnOk result
        (AddsText (why_text judgement.now.verdict judgement.now.wanted (recorded_lines recorded.now)) out.old out.new) }
{
    match (judgement.verdict, &judgement.wanted) {
        (Verdict::Differs(number), Some(wanted)) => {
            push_wanted(out, wanted)?;
            push_found(alloc, out, recorded, number)
        }
        _ => Ok(()),
    }
}
