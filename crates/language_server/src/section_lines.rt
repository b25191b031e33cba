//! The lines on a statement in a section. The one error is a refused growth.

ghost use Rattle.std.specs.Prelude.{◌≡◌, map, string_bytes, IfOk, OnOk};
ghost use Rattle.code.specs.Working.NumberLists.{number_lists};
ghost use Rattle.flow.specs.Working.PointList.{point_at};
ghost use Rattle.locks.specs.Texts.{AddsText};
ghost use Rattle.language_server.specs.Working.Lines.{AddsLines, held_text_of, taken_text_of, held_line_of, line_if_of};
ghost use Rattle.language_server.specs.Working.Lines.{point_lines_of};

use crate::named_section::NamedSection;
use flow::points::PointRef;
use source::memory::NoMemory;
use std::alloc::{AllocError, Global};
use std::collections::BTreeSet;

/// The numbers of the lock paths that are held at a point, and of those that are acquired before it.
#[derive(Clone, Copy)]
pub struct Locks<'a> {
    /// The lock paths that are surely held when the point is reached.
    pub held: &'a [u8],
    /// The lock paths that are acquired before the point.
    pub taken: &'a [u8],
}

/// The points of a section, with two lists for each.
#[derive(Clone, Copy)]
pub struct ListedPoints<'a> {
    /// The points.
    pub points: &'a [PointRef<'a>],
    /// For each point, the numbers of the lock paths that are held.
    pub held: &'a [Vec<u8>],
    /// For each point, the numbers of the lock paths that are acquired.
    pub taken: &'a [Vec<u8>],
}

impl NamedSection<'_> {
    // Appends the lock paths that are held.
    fn push_held(&self, out: &mut String, list: &[u8]) -> Result<(), AllocError>
        ensures { OnOk result (AddsText (held_text_of self.now list.now) out.old out.new) }
    {
        if list.is_empty() {
            return out.push_str(" nothing");
        }
        self.push_paths(out, list)
    }

    // Appends the lock paths that are acquired.
    fn push_taken(&self, out: &mut String, list: &[u8]) -> Result<(), AllocError>
        ensures { OnOk result (AddsText (taken_text_of self.now list.now) out.old out.new) }
    {
        if list.is_empty() {
            return Ok(());
        }
        out.push_str(", takes")?;
        self.push_paths(out, list)
    }

    // The line of a point.
    fn line(&self, alloc: Global, locks: Locks<'_>) -> Result<String, AllocError>
        ensures { IfOk result (λ line. string_bytes line
            ≡ held_line_of self.now locks.entry.held.now locks.entry.taken.now) }
    {
        let mut line = String::from_str(alloc, self.section.name.as_str())?;
        line.push_str(": holds")?;
        self.push_held(&mut line, locks.held)?;
        self.push_taken(&mut line, locks.taken)?;
        Ok(line)
    }

    // Inserts the line of a point, if `meant` is true.
    fn add_line(
        &self,
        alloc: Global,
        found: &mut BTreeSet<String>,
        meant: bool,
        locks: Locks<'_>,
    ) -> Result<(), NoMemory>
        ensures { OnOk result (AddsLines (line_if_of self.now meant locks.entry.held.now locks.entry.taken.now)
            found.old found.new) }
    {
        if !meant {
            return Ok(());
        }
        let line = self.line(alloc, locks)?;
        found.insert(line)?;
        Ok(())
    }

    /// Inserts the lines of the points whose statement starts at byte `start`.
    pub fn add_lines(
        &self,
        alloc: Global,
        found: &mut BTreeSet<String>,
        start: usize,
        listed: ListedPoints<'_>,
    ) -> Result<(), NoMemory>
        ensures { OnOk result (AddsLines (point_lines_of self.now start (map point_at listed.entry.points.now)
            (number_lists listed.entry.held.now) (number_lists listed.entry.taken.now)) found.old found.new) }
    {
        for (i, point) in listed.points.iter().enumerate() {
            let Some(held) = listed.held.get(i) else {
                return Ok(());
            };
            let Some(taken) = listed.taken.get(i) else {
                return Ok(());
            };
            self.add_line(alloc, found, point.start() == start, Locks { held, taken })?;
        }
        Ok(())
    }
}
