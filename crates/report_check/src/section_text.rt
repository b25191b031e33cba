//! The lines of a section in the text of `check`. The only error is a failed allocation.

ghost use Rattle.std.specs.Prelude.{◌≡◌, OnOk};
ghost use Rattle.rope.specs.Working.Ropes.{AddsTo};

use crate::sources::Sources;
use core_lang::tree::Section;
use core_lang::typed::Typed;
use flow::points::{PointRef, points_of};
use inserter::placed::SectionLists;
use rope::Rope;
use source::cursor::Cursor;
use source::memory::NoMemory;
use std::alloc::{AllocError, Global};

/// The data for the lines of a section.
#[derive(Drop)]
pub struct SectionText<'a> {
    /// The program.
    pub program: &'a Typed,
    /// A section of the program.
    pub section: &'a Section,
    /// The index of the group of parts with the texts of the section's lock paths.
    pub group: usize,
    /// The lists before its points.
    pub lists: &'a SectionLists,
    /// What is written of its places beside line and column, if anything is.
    pub sources: Option<&'a Sources<'a>>,
}

impl SectionText<'_> {
    ghost use Rattle.report_check.specs.Working.Values.{AreOf, HasPaths, helper_text_of, line_text_of, at_text_of};
    ghost use Rattle.report_check.specs.Working.Values.{taken_text_of, take_text_of, take_texts_of, section_text_of};

    // Appends the helper at the place, if helpers are written and one has it.
    fn push_helper(&self, out: &mut Rope, start: usize) -> Result<(), AllocError>
        ensures { OnOk result (AddsTo (helper_text_of self.now.sources start) out.old out.new) }
    {
        match self.sources {
            Some(sources) => sources.push_helper(out, start),
            None => Ok(()),
        }
    }

    // Appends the line of the source at the place, if lines are written.
    fn push_line(&self, out: &mut Rope, start: usize) -> Result<(), AllocError>
        ensures { OnOk result (AddsTo (line_text_of self.now.sources start) out.old out.new) }
    {
        match self.sources {
            Some(sources) => sources.push_line(out, start),
            None => Ok(()),
        }
    }

    // Appends the place.
    fn push_at(
        &self,
        out: &mut Rope,
        cursor: &mut Cursor<'_>,
        start: usize,
    ) -> Result<(), AllocError>
        ensures same { cursor.new.text.now ≡ cursor.old.text.now }
        ensures at { OnOk result (AddsTo (at_text_of cursor.old.text.now self.now.sources start) out.old out.new) }
    {
        cursor.go_to(start);
        out.push_str("at ")?;
        out.push_number(cursor.line)?;
        out.push_str(":")?;
        out.push_number(cursor.column)?;
        self.push_helper(out, start)
    }

    // Appends the lock paths of a list, with a space before each.
    fn push_taken(&self, out: &mut Rope, list: &[u8]) -> Result<(), AllocError>
        requires { HasPaths self.now out.old }
        ensures { OnOk result (AddsTo (taken_text_of self.now list.now) out.old out.new) }
    {
        for number in list {
            out.push_str(" ")?;
            out.push_part(self.group, *number as usize)?;
        }
        Ok(())
    }

    // Appends the line of a point whose statement starts at `start`, and that of the source, if its list is not empty.
    fn push_take(
        &self,
        out: &mut Rope,
        cursor: &mut Cursor<'_>,
        start: usize,
        list: &[u8],
    ) -> Result<(), AllocError>
        requires of_text { AreOf cursor.old.text.now self.now.sources }
        requires paths { HasPaths self.now out.old }
        ensures same { cursor.new.text.now ≡ cursor.old.text.now }
        ensures line { OnOk result (AddsTo (take_text_of cursor.old.text.now self.now start list.now) out.old out.new) }
    {
        if list.is_empty() {
            return Ok(());
        }
        self.push_at(out, cursor, start)?;
        out.push_str(" take")?;
        self.push_taken(out, list)?;
        out.push_str("\n")?;
        self.push_line(out, start)
    }

    // Appends the lines of the points whose lists are not empty.
    fn push_takes(
        &self,
        out: &mut Rope,
        cursor: &mut Cursor<'_>,
        points: &[PointRef<'_>],
    ) -> Result<(), AllocError>
        requires of_text { AreOf cursor.old.text.now self.now.sources }
        requires paths { HasPaths self.now out.old }
        ensures same { cursor.new.text.now ≡ cursor.old.text.now }
        ensures lines { OnOk result (AddsTo (take_texts_of cursor.old.text.now self.now points.now) out.old out.new) }
    {
        for (i, point) in points.iter().enumerate() {
            let Some(list) = self.lists.before.get(i) else {
                return Ok(());
            };
            self.push_take(out, cursor, point.start(), list)?;
        }
        Ok(())
    }

    /// Appends the line of the section and those of its points. The cursor may be anywhere in the program's text.
    pub fn push(
        &self,
        alloc: Global,
        out: &mut Rope,
        cursor: &mut Cursor<'_>,
    ) -> Result<(), NoMemory>
        requires of_text { AreOf cursor.old.text.now self.now.sources }
        requires paths { HasPaths self.now out.old }
        ensures same { cursor.new.text.now ≡ cursor.old.text.now }
        ensures lines { OnOk result (AddsTo (section_text_of cursor.old.text.now self.now) out.old out.new) }
    {
        out.push_str("section ")?;
        out.push_str(self.section.name.as_str())?;
        out.push_str("\n")?;
        let points = points_of(alloc, self.section)?;
        self.push_takes(out, cursor, &points)?;
        Ok(())
    }
}
