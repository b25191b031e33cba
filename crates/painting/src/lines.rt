//! Writes lines in colours.

ghost use Rattle.std.specs.Prelude.{◌≡◌, ◌==◌, ◌++◌, IfOk, OnOk, map, string_bytes};
ghost use Rattle.std.specs.List.{flat_map, slice_split};
ghost use Rattle.painting.specs.Painted.{behind_line_feed, is_source, painted, painted_line, painted_told, painted_words};

use crate::style::Style;
use std::alloc::{AllocError, Global};

/// Whether a line begins with two spaces.
fn is_source(line: &str) -> bool
    ensures { result ≡ is_source line.now }
{
    match line.as_bytes() {
        [first, second, ..] => *first == b' ' && *second == b' ',
        _ => false,
    }
}

/// Appends what follows the first word of a line.
fn push_words(out: &mut String, text: &str) -> Result<(), AllocError>
    ensures { OnOk result (string_bytes out.new ≡ string_bytes out.old ++ painted_words text.now) }
{
    match text.split_once(' ') {
        Some((word, more)) => {
            Style::of_word(word).push(out, word)?;
            out.push_str(" ")?;
            out.push_str(more)
        }
        None => Style::of_word(text).push(out, text),
    }
}

/// Appends a line that is not of the source.
fn push_told(out: &mut String, line: &str) -> Result<(), AllocError>
    ensures { OnOk result (string_bytes out.new ≡ string_bytes out.old ++ painted_told line.now) }
{
    match line.split_once(' ') {
        Some((start, rest)) => {
            Style::of_start(start).push(out, start)?;
            out.push_str(" ")?;
            push_words(out, rest)
        }
        None => Style::of_start(line).push(out, line),
    }
}

/// Appends a line.
fn push_line(out: &mut String, line: &str) -> Result<(), AllocError>
    ensures { OnOk result (string_bytes out.new ≡ string_bytes out.old ++ painted_line line.now) }
{
    if is_source(line) {
        return Style::of_source(line).push(out, line);
    }
    push_told(out, line)
}

/// Appends further lines, with a line feed before each.
fn push_others(out: &mut String, lines: &[&str]) -> Result<(), AllocError>
    ensures { OnOk result (string_bytes out.new
        ≡ string_bytes out.old ++ flat_map behind_line_feed (map (λ line. line.now) lines.now)) }
{
    for line in lines {
        out.push_str("\n")?;
        push_line(out, line)?;
    }
    Ok(())
}

/// The lines of a text, without their line feeds.
fn split<'t>(alloc: Global, text: &'t str) -> Result<Vec<&'t str>, AllocError>
    ensures { IfOk result
        (λ lines. map (λ line. line.now) lines.items ≡ slice_split (λ byte. byte == 10) text.entry.now) }
{
    text.split('\n').collect(alloc)
}

/// The text that explains a fault, in colours: places in bold type, codes and carets in red, warnings in yellow, notes
/// and remedies in cyan. All other bytes stay.
///
/// # Errors
///
/// Out of memory.
pub fn painted(alloc: Global, text: &str) -> Result<String, AllocError>
    ensures { IfOk result (λ out. string_bytes out ≡ painted text.now) }
{
    let lines = split(alloc, text)?;
    let mut out = String::new(alloc);
    let [first, others @ ..] = lines.as_slice() else {
        return Ok(out);
    };
    push_line(&mut out, first)?;
    push_others(&mut out, others)?;
    Ok(out)
}
