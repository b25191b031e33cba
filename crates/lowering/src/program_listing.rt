//! The listing of a compiled program.

ghost use Rattle.std.specs.Prelude.{◌≡◌, IfOk};
ghost use Rattle.code.specs.Listing.{listing_text, listing_with_places_text, sections_text};
ghost use Rattle.rope.specs.Working.Ropes.{rope_text};
ghost use Rattle.lowering.specs.Working.Listings.{text_of, text_at, AreTold};

use crate::compiled::Program;
use code::places::SectionPlaces;
use code::{Listed, Lister};
use core_lang::tree::Section;
use rope::Rope;
use source::cursor::Cursor;
use source::memory::NoMemory;
use std::alloc::Global;

/// A cursor at the beginning of the text, if one is given.
fn cursor_in<'a>(text: Option<&'a [u8]>) -> Option<Cursor<'a>>
    ensures { text_at result ≡ text_of text.entry }
{
    match text {
        Some(text) => Some(Cursor::new(text)),
        None => None,
    }
}

/// The positions of a section in the cursor's text, if one is given.
fn places_of(
    alloc: Global,
    cursor: &mut Option<Cursor<'_>>,
    section: &Section,
) -> Result<Option<SectionPlaces>, NoMemory>
    ensures same { text_at cursor.new ≡ text_at cursor.old }
    ensures told { IfOk result (AreTold (text_at cursor.old) section.now) }
{
    match cursor {
        Some(cursor) => Ok(Some(SectionPlaces::of(alloc, cursor, section)?)),
        None => Ok(None),
    }
}

/// The instructions of each section; with the program's text, each with the position of its statement.
fn list(alloc: Global, program: &Program, text: Option<&[u8]>) -> Result<Rope, NoMemory>
    ensures { IfOk result (λ listed. rope_text listed
        ≡ sections_text (text_of text.entry) program.now.program program.now.lists 0
        program.now.program.sections.items) }
{
    let typed = program.expanded();
    let paths = program.paths();
    let code = program.code();
    let lister = Lister::new(alloc, typed)?;
    let mut cursor = cursor_in(text);
    let mut out = Rope::new(alloc);
    for k in 0..typed.sections.len() {
        let section = &typed.sections[k];
        let listed = Listed {
            section,
            code: &code.sections[k],
            lists: program.lists_before(k),
            paths: &paths.sections[k].paths,
        };
        let places = places_of(alloc, &mut cursor, section)?;
        lister.push(alloc, &mut out, listed, places.as_ref())?;
    }
    Ok(out)
}

/// The instructions of each section, a line for each with its place.
///
/// # Errors
///
/// Out of memory.
pub fn listing(alloc: Global, program: &Program) -> Result<Rope, NoMemory>
    ensures { IfOk result (λ listed. rope_text listed ≡ listing_text program.now.program program.now.lists) }
{
    list(alloc, program, None)
}

/// The same for a program with this text, with the line and the column of each instruction's statement, both from 1.
/// The statement is that of the point that began last; in a section without points, no position is written.
///
/// # Errors
///
/// Out of memory.
pub fn listing_with_places(alloc: Global, text: &[u8], program: &Program) -> Result<Rope, NoMemory>
    ensures { IfOk result (λ listed. rope_text listed
        ≡ listing_with_places_text text.now program.now.program program.now.lists) }
{
    list(alloc, program, Some(text))
}
