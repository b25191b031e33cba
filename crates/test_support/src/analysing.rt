//! The texts on a program's lock paths, its points, and the order of its lock classes.

ghost use Rattle.lockpaths.specs.Paths.{ArePaths};

use crate::told::Told;
use core_lang::tree::Section;
use core_lang::typed::Typed;
use flow::points::{PointRef, points_of};
use lockpaths::table::{Paths, SectionPaths};
use locks::path::LockPath;
use locks::path_set::PathSet;
use locks::text::{push_class, push_path};
use points::points;
use points::table::Points;
use source::memory::NoMemory;
use std::alloc::Global;

/// A text and the program that it means.
#[derive(Drop)]
pub struct Analysed<'a> {
    /// The text.
    pub text: &'a str,
    /// The program.
    pub program: &'a Typed,
}

impl Analysed<'_> {
    /// Appends the line and the column of a byte of the text, as `4:16`.
    fn push_place(&self, out: &mut Told, start: usize) {
        let mut line = 1u32;
        let mut column = 1u32;
        for byte in self.text.as_bytes().iter().take(start) {
            if *byte == b'\n' {
                line = line.saturating_add(1);
                column = 1;
            } else {
                column = column.saturating_add(1);
            }
        }
        let grown = write!(&mut out.text, "{line}:{column}");
        out.note(grown);
    }

    /// Appends a lock path of the section after a space.
    fn push_path(&self, out: &mut Told, section: &Section, path: &LockPath) {
        out.push_str(" ");
        let grown = push_path(&mut out.text, self.program, section, path);
        out.note(grown);
    }

    /// Appends lock paths of the section, each after a space.
    fn push_set(&self, out: &mut Told, section: &Section, found: &SectionPaths, set: PathSet) {
        for (number, path) in found.paths.iter().enumerate() {
            if number < 64 && set.contains(number) {
                self.push_path(out, section, path);
            }
        }
    }

    /// Appends a line for a section with its lock paths, and one for each of its points with its place and the paths
    /// that it uses.
    fn push_section(
        &self,
        alloc: Global,
        out: &mut Told,
        section: &Section,
        found: &SectionPaths,
    ) -> Result<(), NoMemory> {
        out.push_str(section.name.as_str());
        out.push_str(":");
        for path in &found.paths {
            self.push_path(out, section, path);
        }
        let points = points_of(alloc, section)?;
        for (point, used) in points.iter().zip(found.used.iter()) {
            out.push_str("\n");
            self.push_place(out, point.start());
            self.push_set(out, section, found, *used);
        }
        Ok(())
    }

    /// The text on the lock paths, section after section.
    pub fn paths_said(&self, alloc: Global, paths: &Paths) -> Result<String, NoMemory> {
        let mut out = Told::new(alloc);
        for (number, (section, found)) in self
            .program
            .sections
            .iter()
            .zip(paths.sections.iter())
            .enumerate()
        {
            if number > 0 {
                out.push_str("\n");
            }
            self.push_section(alloc, &mut out, section, found)?;
        }
        out.finish()
    }

    /// Appends a line for each point of the section: its place, and the lock paths in scope, used before it and used
    /// later.
    fn push_points(
        &self,
        alloc: Global,
        out: &mut Told,
        section: &Section,
        found: &SectionPaths,
        points: &Points,
    ) -> Result<(), NoMemory> {
        let sets = points.in_scope.iter().zip(points.used_before.iter());
        let sets = sets.zip(points.used_later.iter());
        for (point, ((in_scope, before), later)) in points_of(alloc, section)?.iter().zip(sets) {
            out.push_str("\n");
            self.push_place(out, point.start());
            out.push_str(" in");
            self.push_set(out, section, found, *in_scope);
            out.push_str(", before");
            self.push_set(out, section, found, *before);
            out.push_str(", later");
            self.push_set(out, section, found, *later);
        }
        Ok(())
    }

    /// Appends the section's name, and the pairs of points of which the second follows the first.
    fn push_pairs(
        &self,
        alloc: Global,
        out: &mut Told,
        section: &Section,
        points: &Points,
    ) -> Result<(), NoMemory> {
        out.push_str(section.name.as_str());
        out.push_str(":");
        let pairs = points.pairs(alloc)?;
        for (from, to) in &pairs {
            let grown = write!(&mut out.text, " {from}-{to}");
            out.note(grown);
        }
        Ok(())
    }

    /// The text on the points, section after section: which point follows which, and the lock paths of each.
    pub fn points_said(&self, alloc: Global, paths: &Paths) -> Result<String, NoMemory>
        requires { ArePaths self.now.program.now paths.now }
    {
        let mut out = Told::new(alloc);
        for number in 0..self.program.sections.len() {
            if number > 0 {
                out.push_str("\n");
            }
            let section = &self.program.sections[number];
            let points = points(alloc, self.program, number, paths)?;
            self.push_pairs(alloc, &mut out, section, &points)?;
            if let Some(found) = paths.sections.get(number) {
                self.push_points(alloc, &mut out, section, found, &points)?;
            }
        }
        out.finish()
    }

    /// Appends a line with the classes by rising rank.
    fn push_classes(&self, out: &mut Told, ranks: &[u32]) {
        out.push_str("order:");
        for rank in 0..ranks.len() {
            for (class, other) in ranks.iter().enumerate() {
                if *other as usize == rank {
                    out.push_str(" ");
                    let grown = push_class(&mut out.text, self.program, class);
                    out.note(grown);
                }
            }
        }
    }

    /// Appends a line for each point of the section: its place, and the lock paths that are wanted and surely held
    /// before it.
    fn push_wanted(
        &self,
        out: &mut Told,
        section: &Section,
        found: &SectionPaths,
        starts: &[PointRef],
        sets: (&[PathSet], &[PathSet]),
    ) {
        for (point, (wanted, held)) in starts.iter().zip(sets.0.iter().zip(sets.1.iter())) {
            out.push_str("\n");
            self.push_place(out, point.start());
            out.push_str(" wants");
            self.push_set(out, section, found, *wanted);
            out.push_str(", holds");
            self.push_set(out, section, found, *held);
        }
    }

    /// The text on the order of the classes, and on what these ranks mean for the points.
    pub fn order_said(
        &self,
        alloc: Global,
        paths: &Paths,
        ranks: &[u32],
    ) -> Result<String, NoMemory>
        requires { ArePaths self.now.program.now paths.now }
    {
        let mut out = Told::new(alloc);
        self.push_classes(&mut out, ranks);
        for number in 0..self.program.sections.len() {
            let section = &self.program.sections[number];
            let points = points(alloc, self.program, number, paths)?;
            let wanted = points.wanted(alloc, ranks)?;
            let held = points.surely_held(alloc, ranks)?;
            let starts = points_of(alloc, section)?;
            out.push_str("\n");
            out.push_str(section.name.as_str());
            out.push_str(":");
            if let Some(found) = paths.sections.get(number) {
                self.push_wanted(&mut out, section, found, &starts, (&wanted, &held));
            }
        }
        out.finish()
    }
}
