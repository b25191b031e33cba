//! How a place of a source text is shown.

ghost use Rattle.std.specs.Prelude.{◌≡◌, ◌≤◌, IfOk, OnOk, length, min, replicate};
ghost use Rattle.std.specs.List.{flat_map, prefix_len, suffix_len};
ghost use Rattle.locks.specs.Texts.{AddsText};
ghost use Rattle.explanation.specs.Shown.{hex_text, shown_byte, is_in_line, dots, shown_before, shown_after, shown_place, source_line};

use std::alloc::AllocError;

/// The most bytes that are shown before a place, and from it on.
const SIDE: usize = 60;

/// The number of bytes on each side that are read: one more, which shows whether some are left out.
const LOOK: usize = SIDE + 1;

/// Appends a byte as its two hexadecimal digits.
fn push_hex(out: &mut String, byte: u8) -> Result<(), AllocError>
    ensures { OnOk result (AddsText (hex_text byte) out.old out.new) }
{
    write!(out, "<{byte:02X}>")
}

/// Appends a byte of a source text: a tab as eight spaces, no carriage return, and any other byte that is not a
/// printable ASCII character as its two hexadecimal digits.
fn push_byte(out: &mut String, byte: u8) -> Result<(), AllocError>
    ensures { OnOk result (AddsText (shown_byte byte) out.old out.new) }
{
    match byte {
        b'\t' => out.push_str("        "),
        b'\r' => Ok(()),
        b' '..=b'~' => out.push(char::from(byte)),
        _ => push_hex(out, byte),
    }
}

/// Appends bytes of a source text.
fn push_bytes(out: &mut String, bytes: &[u8]) -> Result<(), AllocError>
    ensures { OnOk result (AddsText (flat_map shown_byte bytes.now) out.old out.new) }
{
    for byte in bytes {
        push_byte(out, *byte)?;
    }
    Ok(())
}

/// Appends the given number of spaces.
fn push_spaces(out: &mut String, count: usize) -> Result<(), AllocError>
    ensures { OnOk result (AddsText (replicate count 32) out.old out.new) }
{
    for _ in 0..count {
        out.push_str(" ")?;
    }
    Ok(())
}

/// Appends dots for bytes that are left out, if some of the `count` bytes are.
fn push_dots(out: &mut String, count: usize) -> Result<(), AllocError>
    ensures { OnOk result (AddsText (dots count) out.old out.new) }
{
    if count > SIDE {
        out.push_str("..")?;
    }
    Ok(())
}

/// The number of bytes at the end of these that are on one line.
fn last_of_line(bytes: &[u8]) -> usize
    ensures count { result ≡ suffix_len is_in_line bytes.now }
    ensures few { result ≤ length bytes.now }
{
    bytes
        .iter()
        .rev()
        .take_while(|byte| **byte != b'\n')
        .count()
}

/// The number of bytes at the beginning of these that are on one line.
fn first_of_line(bytes: &[u8]) -> usize
    ensures count { result ≡ prefix_len is_in_line bytes.now }
    ensures few { result ≤ length bytes.now }
{
    bytes.iter().take_while(|byte| **byte != b'\n').count()
}

/// The same as [`last_of_line`], for the bytes that are read.
fn last_near(bytes: &[u8]) -> usize
    ensures count { result ≡ min LOOK (suffix_len is_in_line bytes.now) }
    ensures few { result ≤ length bytes.now }
{
    last_of_line(&bytes[bytes.len() - bytes.len().min(LOOK)..])
}

/// The same as [`first_of_line`], for the bytes that are read.
fn first_near(bytes: &[u8]) -> usize
    ensures count { result ≡ min LOOK (prefix_len is_in_line bytes.now) }
    ensures few { result ≤ length bytes.now }
{
    first_of_line(&bytes[..bytes.len().min(LOOK)])
}

/// A byte of a source text, or its end.
#[derive(Drop)]
struct Shown<'a> {
    text: &'a [u8],
    at: usize,
    ghost within: { at ≤ length text.now },
}

impl Shown<'_> {
    /// Appends what is shown before the place, and returns the number of its characters.
    fn push_before(&self, out: &mut String) -> Result<usize, AllocError>
        ensures shown { OnOk result (AddsText (shown_before self.now.text.now self.now.at) out.old out.new) }
        ensures width { IfOk result (λ width. width ≡ length (shown_before self.now.text.now self.now.at)) }
    {
        let begin = out.len();
        let before = &self.text[..self.at];
        let count = last_near(before);
        push_dots(out, count)?;
        push_bytes(out, &before[self.at - count.min(SIDE)..])?;
        Ok(out.len() - begin)
    }

    /// Appends what is shown from the place on.
    fn push_after(&self, out: &mut String) -> Result<(), AllocError>
        ensures { OnOk result (AddsText (shown_after self.now.text.now self.now.at) out.old out.new) }
    {
        let after = &self.text[self.at..];
        let count = first_near(after);
        push_bytes(out, &after[..count.min(SIDE)])?;
        push_dots(out, count)
    }
}

/// Appends the line of the place at `start`. A place past the text's end is shown at its end. The only error is a
/// failed allocation.
pub fn push_source_line(out: &mut String, text: &[u8], start: usize) -> Result<(), AllocError>
    ensures { OnOk result (AddsText (source_line text.now start) out.old out.new) }
{
    let shown = Shown {
        text,
        at: start.min(text.len()),
    };
    out.push_str("  ")?;
    shown.push_before(out)?;
    shown.push_after(out)?;
    out.push_str("\n")
}

/// Appends the line of the place at `start`, and below it a caret. A place past the text's end is shown at its end.
pub fn push_place(out: &mut String, text: &[u8], start: usize) -> Result<(), AllocError>
    ensures { OnOk result (AddsText (shown_place text.now start) out.old out.new) }
{
    let shown = Shown {
        text,
        at: start.min(text.len()),
    };
    out.push_str("  ")?;
    let width = shown.push_before(out)?;
    shown.push_after(out)?;
    out.push_str("\n  ")?;
    push_spaces(out, width)?;
    out.push_str("^\n")
}
