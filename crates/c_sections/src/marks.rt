//! Marks the C of a section with the lines of the program's file. The only error is a failed allocation.

ghost use Rattle.std.specs.Prelude.{◌≡◌, ◌<◌, [], ◌∷◌, OnOk};
ghost use Rattle.std.specs.List.{flat_map};
ghost use Rattle.std.specs.List.Sorted.{IsNonDecreasing};
ghost use Rattle.locks.specs.Texts.{AddsText};
ghost use Rattle.c_sections.specs.Marks as text;
ghost use Rattle.c_sections.specs.Working.Marked.{mark_in};

use code::places::SectionPlaces;
use code::section_code::SectionCode;
use std::alloc::AllocError;

/// Whether a byte stands for itself in a C string, and begins nothing else there.
fn is_plain(byte: u8) -> bool
    ensures { result ≡ text.is_plain byte }
{
    32 <= byte && byte <= 126 && byte != b'"' && byte != b'?' && byte != b'\\'
}

/// Appends a byte that is not plain, as three octal digits.
fn push_octal(out: &mut String, byte: u8) -> Result<(), AllocError>
    ensures { OnOk result (AddsText (text.octal_text byte) out.old out.new) }
{
    let (first, second, third) = (byte / 64, byte / 8 % 8, byte % 8);
    write!(out, "\\{first}{second}{third}")
}

/// Appends an ASCII byte.
fn push_byte(out: &mut String, byte: u8) -> Result<(), AllocError>
    requires { byte < 128 }
    ensures { OnOk result (AddsText (byte ∷ []) out.old out.new) }
{
    out.push(byte as char)
}

/// Appends a byte of a file's name.
fn push_quoted(out: &mut String, byte: u8) -> Result<(), AllocError>
    ensures { OnOk result (AddsText (text.quoted_byte byte) out.old out.new) }
{
    if is_plain(byte) {
        return push_byte(out, byte);
    }
    push_octal(out, byte)
}

/// Appends a file's name.
fn push_name(out: &mut String, name: &str) -> Result<(), AllocError>
    ensures { OnOk result (AddsText (flat_map text.quoted_byte name.now) out.old out.new) }
{
    for byte in name.as_bytes() {
        push_quoted(out, *byte)?;
    }
    Ok(())
}

/// Appends the directive that what follows is of this line of a file.
fn push_directive(out: &mut String, name: &str, line: usize) -> Result<(), AllocError>
    ensures { OnOk result (AddsText (text.directive name.now line) out.old out.new) }
{
    write!(out, "\n#line {line} \"")?;
    push_name(out, name)?;
    out.push_str("\"\n")
}

/// Appends the directive that what follows is not of a line of the program.
pub fn push_unmarked(out: &mut String) -> Result<(), AllocError>
    ensures { OnOk result (AddsText text.unmarked_text out.old out.new) }
{
    out.push_str("\n#line 1 \"emitted\"\n")
}

/// Appends a byte of a text that is put on one line.
fn push_flat_byte(out: &mut String, byte: u8) -> Result<(), AllocError>
    ensures { OnOk result (AddsText (text.flat_byte byte) out.old out.new) }
{
    if byte == b'\n' {
        return out.push_str(" ");
    }
    if byte < 128 {
        return push_byte(out, byte);
    }
    out.push_str("?")
}

/// Appends a text on one line.
pub fn push_flat(out: &mut String, written: &str) -> Result<(), AllocError>
    ensures { OnOk result (AddsText (text.flat written.now) out.old out.new) }
{
    for byte in written.as_bytes() {
        push_flat_byte(out, *byte)?;
    }
    Ok(())
}

/// Whether two instructions are of the same point, or both of none.
fn same_point(ahead: Option<usize>, here: Option<usize>) -> bool
    ensures { result ≡ text.same_point ahead here }
{
    match (ahead, here) {
        (None, None) => true,
        (Some(ahead), Some(here)) => ahead == here,
        _ => false,
    }
}

/// The point of the instruction before a place.
fn point_ahead(code: &SectionCode, place: usize) -> Option<usize>
    requires { IsNonDecreasing code.now.begins.items }
    ensures { result ≡ text.point_ahead code.now.begins.items place }
{
    if place == 0 {
        return None;
    }
    code.point_at(place - 1)
}

/// Whether the instruction at a place is of the same point as the one before it.
fn goes_on(code: &SectionCode, place: usize) -> bool
    requires { IsNonDecreasing code.now.begins.items }
    ensures { result ≡ text.goes_on code.now.begins.items place }
{
    same_point(point_ahead(code, place), code.point_at(place))
}

/// The lines of the program's file in which a section's statements start.
#[derive(Clone, Copy)]
pub struct LineMarks<'a> {
    /// The file's name.
    pub name: &'a str,
    /// The positions of the section's statements.
    pub places: &'a SectionPlaces,
}

impl LineMarks<'_> {
    /// Appends the directive before the instruction at `place` of the section's code: the line of its point, if the
    /// instructions of another point begin there.
    pub fn push(&self, out: &mut String, code: &SectionCode, place: usize) -> Result<(), AllocError>
        requires { IsNonDecreasing code.now.begins.items }
        ensures { OnOk result (AddsText (mark_in self.now code.now.begins.items place) out.old out.new) }
    {
        if goes_on(code, place) {
            return Ok(());
        }
        match self.places.at(code, place) {
            Some(position) => push_directive(out, self.name, position.line),
            None => Ok(()),
        }
    }
}
