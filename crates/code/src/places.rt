//! The positions of a section's instructions in the program's text.

ghost use Rattle.std.specs.Prelude.{◌≡◌, IfOk, OnOk, slice_get};
ghost use Rattle.std.specs.List.Sorted.{IsNonDecreasing};
ghost use Rattle.locks.specs.Texts.{AddsText};

use crate::section_code::SectionCode;
use core_lang::tree::Section;
use flow::points::points_of;
use source::cursor::Cursor;
use source::memory::NoMemory;
use std::alloc::{AllocError, Global};

/// A line and a column of a text, both from 1.
#[derive(Clone, Copy)]
pub struct LineColumn {
    /// The line.
    pub line: usize,
    /// The column, in bytes.
    pub column: usize,
}

/// The positions of the statements of a section's points in the program's text.
#[derive(Drop)]
pub struct SectionPlaces {
    // The position of each point's statement.
    positions: Vec<LineColumn>,
}

impl SectionPlaces {
    ghost use Rattle.code.specs.Working.Places.{PlacesOf, position_at, table_text};

    /// The positions for a section of the program with the cursor's text. The cursor may be anywhere in it.
    ///
    /// # Errors
    ///
    /// Out of memory.
    pub fn of(
        alloc: Global,
        cursor: &mut Cursor<'_>,
        section: &Section,
    ) -> Result<SectionPlaces, NoMemory>
        ensures same { cursor.new.text.now ≡ cursor.old.text.now }
        ensures made { IfOk result (PlacesOf cursor.old.text.now section.now) }
    {
        let points = points_of(alloc, section)?;
        let mut positions = Vec::with_capacity(alloc, points.len())?;
        for point in &points {
            cursor.go_to(point.start());
            positions.push(LineColumn {
                line: cursor.line,
                column: cursor.column,
            })?;
        }
        Ok(SectionPlaces { positions })
    }

    /// The position of the statement of a point, if the section has that point.
    pub fn of_point(&self, point: usize) -> Option<LineColumn>
        ensures { result ≡ slice_get self.now.positions.items point }
    {
        self.positions.get(point).copied()
    }

    /// The position of the statement of the instruction at `place` of the section's code. `None` if the section has no
    /// point.
    pub fn at(&self, code: &SectionCode, place: usize) -> Option<LineColumn>
        requires { IsNonDecreasing code.now.begins.items }
        ensures { result ≡ position_at self.now code.now.begins.items place }
    {
        self.of_point(code.point_at(place)?)
    }

    /// Appends the position of the instruction at `place` of the section's code, and a space.
    pub fn push(&self, out: &mut String, code: &SectionCode, place: usize) -> Result<(), AllocError>
        requires { IsNonDecreasing code.now.begins.items }
        ensures { OnOk result (AddsText (table_text self.now code.now.begins.items place) out.old out.new) }
    {
        match self.at(code, place) {
            Some(position) => write!(out, "{}:{} ", position.line, position.column),
            None => Ok(()),
        }
    }
}
