//! The lines on a statement. The one error is a refused growth.

ghost use Rattle.std.specs.Prelude.{◌≡◌, ◌<◌, length, IfOk, OnOk};
ghost use Rattle.code.specs.Lowering.{lists_at};
ghost use Rattle.code.specs.Working.NumberLists.{number_lists};
ghost use Rattle.language_server.specs.Working.Lines.{AddsLines, held_in, told_lines, numbered_lines_of, lines_of_statement};

use crate::held_paths::PointLists;
use crate::named_section::NamedSection;
use crate::section_lines::ListedPoints;
use crate::takes::texts_of_paths;
use flow::points::points_of;
use lowering::compiled::Program;
use source::memory::NoMemory;
use std::alloc::Global;
use std::collections::BTreeSet;

/// A statement of a program.
#[derive(Drop)]
pub struct Statement<'a> {
    /// The program.
    pub program: &'a Program,
    /// The lock paths that are held at the points of each of its sections.
    pub held: &'a [PointLists],
    /// The start of the statement in the text, in bytes.
    pub start: usize,
}

/// The lists of the section with the number `number`; empty, where there are none.
fn lists_for(held: &[PointLists], number: usize) -> &[Vec<u8>]
    ensures { number_lists result.now ≡ lists_at (held_in held.entry.now) number }
{
    match held.get(number) {
        Some(lists) => lists.as_slice(),
        None => &[],
    }
}

impl Statement<'_> {
    // Inserts the lines of the section with the number `number`.
    fn add_section(
        &self,
        alloc: Global,
        found: &mut BTreeSet<String>,
        number: usize,
    ) -> Result<(), NoMemory>
        requires { number < length self.now.program.now.program.sections.items }
        ensures { OnOk result (AddsLines (numbered_lines_of self.now number) found.old found.new) }
    {
        let typed = self.program.expanded();
        let section = &typed.sections[number];
        let paths = texts_of_paths(alloc, typed, self.program.paths(), number)?;
        let points = points_of(alloc, section)?;
        let named = NamedSection {
            program: typed,
            section,
            paths: &paths,
        };
        let listed = ListedPoints {
            points: &points,
            held: lists_for(self.held, number),
            taken: self.program.lists_before(number),
        };
        named.add_lines(alloc, found, self.start, listed)
    }

    /// The lines of the sections that run the statement.
    pub fn lines(&self, alloc: Global) -> Result<BTreeSet<String>, NoMemory>
        ensures { IfOk result (λ found. told_lines found ≡ lines_of_statement self.now) }
    {
        let mut found = BTreeSet::new(alloc);
        for number in 0..self.program.expanded().sections.len() {
            self.add_section(alloc, &mut found, number)?;
        }
        Ok(found)
    }
}
