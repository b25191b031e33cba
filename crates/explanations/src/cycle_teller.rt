//! The notes on a section. The one error is a refused growth.

ghost use Rattle.std.specs.Prelude.{◌≡◌, ◌<◌, IfOk, Some, length, map, slice_get, string_bytes};
ghost use Rattle.std.specs.Bool.{Decides};
ghost use Rattle.explanation.specs.Notes.{note_of};
ghost use Rattle.flow.specs.Points.{bound_at};
ghost use Rattle.flow.specs.Points.{points as all_points};
ghost use Rattle.flow.specs.Working.PointList.{point_at};
ghost use Rattle.locks.specs.LockPaths.{lock_path_of};
ghost use Rattle.lockpaths.specs.Paths.{AreSectionPaths};
ghost use Rattle.lockorder.specs.Edges.{UsesClass, BindsClass};
ghost use Rattle.explanations.specs.CycleNotes.{TellsUse, TellsBinding, TellsWay, apart_words, around_words, within_words};
ghost use Rattle.explanations.specs.Working.Tellers.{HasClass, BeginsAt, IsUsedPath, IsBoundPath, begins, said_of};

use core_lang::tree::{Action, Section};
use core_lang::typed::Typed;
use explanation::Note;
use flow::points::PointRef;
use lockpaths::table::SectionPaths;
use locks::path::{LockPath, Root};
use locks::text::{push_class, push_path};
use source::memory::NoMemory;
use std::alloc::Global;

/// The local that `point` binds, if it binds one.
fn bound_local(point: PointRef<'_>) -> Option<usize>
    ensures { result ≡ bound_at (point_at point.entry) }
{
    match point {
        PointRef::Statement(statement) => match &statement.action {
            Action::Bind { local, .. } => Some(*local),
            Action::Call {
                result: Some(local),
                ..
            } => Some(*local),
            _ => None,
        },
        PointRef::Result(_) => None,
    }
}

/// Whether a path with this root begins at `local`.
fn begins_at(root: Root, local: Option<usize>) -> bool
    ensures { result ≡ begins root local }
{
    match (root, local) {
        (Root::Local(begin), Some(local)) => begin == local,
        _ => false,
    }
}

/// A section of a program, and its lock paths.
#[derive(Drop)]
pub struct CycleWriter<'a> {
    /// The program.
    pub program: &'a Typed,
    /// The section.
    pub section: &'a Section,
    /// The lock paths of the section.
    pub found: &'a SectionPaths,
}

impl CycleWriter<'_> {
    // Whether the path with the number `number` is of the class.
    fn is_of_class(&self, number: usize, class: usize) -> bool
        requires paths { AreSectionPaths self.now.program.now self.now.section.now self.now.found.now }
        requires within { number < length self.now.found.now.paths.items }
        ensures { Decides result (HasClass self.now.program.now self.now.section.now class number) }
    {
        let path = &self.found.paths[number];
        path.class == class
    }

    // Whether the path with the number `number` is of the class and begins at `local`.
    fn is_rooted(&self, number: usize, local: Option<usize>, class: usize) -> bool
        requires paths { AreSectionPaths self.now.program.now self.now.section.now self.now.found.now }
        requires within { number < length self.now.found.now.paths.items }
        ensures { Decides result (BeginsAt self.now.program.now self.now.section.now local class number) }
    {
        let path = &self.found.paths[number];
        if path.class != class {
            return false;
        }
        begins_at(path.root, local)
    }

    // Whether the point with the number `point` uses a path of the class.
    fn uses_class(&self, point: usize, class: usize) -> bool
        requires paths { AreSectionPaths self.now.program.now self.now.section.now self.now.found.now }
        requires point { point < length (all_points self.now.section.now) }
        ensures { Decides result (UsesClass self.now.program.now self.now.section.now point class) }
    {
        locks::laws::each_path_once();
        let used = &self.found.used[point];
        for number in 0..self.found.paths.len() {
            if self.is_of_class(number, class) && used.contains(number) {
                return true;
            }
        }
        false
    }

    // The words where the binding uses no lock of class CLASS itself, with what can be done.
    fn apart(&self, alloc: Global, class: usize) -> Result<String, NoMemory>
        ensures { IfOk result (λ said. string_bytes said ≡ apart_words self.now.program.now class) }
    {
        let mut said = String::from_str(alloc, "this binding uses no lock of class ")?;
        push_class(&mut said, self.program, class)?;
        said.push_str(" itself: put it before that use, where what it names is known there")?;
        Ok(said)
    }

    // The words where, besides, the binding stands before the use.
    fn around(&self, alloc: Global, class: usize) -> Result<String, NoMemory>
        ensures { IfOk result (λ said. string_bytes said ≡ around_words self.now.program.now class) }
    {
        let mut said = String::from_str(
            alloc,
            "this binding stands before that use, and comes after it by a loop, while a lock of class ",
        )?;
        push_class(&mut said, self.program, class)?;
        said.push_str(
            " is held: bind each object by a let before the loop, or list a class in the section's head, lock(S.l), or take a common owner by where",
        )?;
        Ok(said)
    }

    // The words where the binding itself uses a lock of class CLASS, with what can be done.
    fn within(&self, alloc: Global, class: usize) -> Result<String, NoMemory>
        ensures { IfOk result (λ said. string_bytes said ≡ within_words self.now.program.now class) }
    {
        let mut said = String::from_str(alloc, "this binding uses a lock of class ")?;
        push_class(&mut said, self.program, class)?;
        said.push_str(
            " itself: take a parameter or a final reference, or list a class in the section's head, lock(S.l)",
        )?;
        Ok(said)
    }

    /// The note that says whether the binding with the number `point` uses a path of the class, and otherwise whether
    /// it stands before the point `used`; with a way to avoid the edge.
    pub fn way_note(
        &self,
        alloc: Global,
        used: usize,
        point: usize,
        class: usize,
    ) -> Result<Note, NoMemory>
        requires paths { AreSectionPaths self.now.program.now self.now.section.now self.now.found.now }
        requires point { point < length (all_points self.now.section.now) }
        ensures { IfOk result
            (λ note. TellsWay self.now.program.now self.now.section.now used point class (note_of note)) }
    {
        let words = if self.uses_class(point, class) {
            self.within(alloc, class)?
        } else if point < used {
            self.around(alloc, class)?
        } else {
            self.apart(alloc, class)?
        };
        Ok(Note { start: None, words })
    }

    // The number of a path of the class that the point with the number `point` uses.
    fn used_path(&self, point: usize, class: usize) -> usize
        requires paths { AreSectionPaths self.now.program.now self.now.section.now self.now.found.now }
        requires used { UsesClass self.now.program.now self.now.section.now point class }
        ensures { IsUsedPath self.now.program.now self.now.section.now point class result }
    {
        locks::laws::each_path_once();
        let used = self.found.used[point];
        for number in 0..self.found.paths.len() {
            if self.is_of_class(number, class) && used.contains(number) {
                return number;
            }
        }
        unreachable!()
    }

    // The number of a path of the class whose root is bound by `point`, whose number in the section is `number`.
    fn bound_path(&self, number: usize, point: PointRef<'_>, class: usize) -> usize
        requires paths { AreSectionPaths self.now.program.now self.now.section.now self.now.found.now }
        requires point { slice_get (all_points self.now.section.now) number ≡ Some (point_at point) }
        requires binds { BindsClass self.now.program.now self.now.section.now number class }
        ensures { IsBoundPath self.now.program.now self.now.section.now number class result }
    {
        locks::laws::each_path_once();
        let local = bound_local(point);
        for path in 0..self.found.paths.len() {
            if self.is_rooted(path, local, class) {
                return path;
            }
        }
        unreachable!()
    }

    // The words `in SECTION: PATH of class CLASS WORDS`.
    fn said(&self, alloc: Global, path: &LockPath, words: &str) -> Result<String, NoMemory>
        ensures { IfOk result (λ said. string_bytes said ≡ said_of self.now (lock_path_of path.now) words.now) }
    {
        let mut said = String::from_str(alloc, "in ")?;
        said.push_str(self.section.name.as_str())?;
        said.push_str(": ")?;
        push_path(&mut said, self.program, self.section, path)?;
        said.push_str(" of class ")?;
        push_class(&mut said, self.program, path.class)?;
        said.push_str(" ")?;
        said.push_str(words)?;
        Ok(said)
    }

    /// The note that a path of the class is used at the point with the number `point`.
    pub fn use_note(
        &self,
        alloc: Global,
        points: &[PointRef<'_>],
        point: usize,
        class: usize,
    ) -> Result<Note, NoMemory>
        requires paths { AreSectionPaths self.now.program.now self.now.section.now self.now.found.now }
        requires listed { map point_at points.now ≡ all_points self.now.section.now }
        requires used { UsesClass self.now.program.now self.now.section.now point class }
        ensures { IfOk result (λ note. TellsUse self.now.program.now self.now.section.now point class (note_of note)) }
    {
        let used = self.used_path(point, class);
        let words = self.said(alloc, &self.found.paths[used], "is used here")?;
        Ok(Note {
            start: Some(points[point].start()),
            words,
        })
    }

    /// The note that the root of a used path of the class is bound at the point with the number `point`.
    pub fn binding_note(
        &self,
        alloc: Global,
        points: &[PointRef<'_>],
        point: usize,
        class: usize,
    ) -> Result<Note, NoMemory>
        requires paths { AreSectionPaths self.now.program.now self.now.section.now self.now.found.now }
        requires listed { map point_at points.now ≡ all_points self.now.section.now }
        requires binds { BindsClass self.now.program.now self.now.section.now point class }
        ensures { IfOk result
            (λ note. TellsBinding self.now.program.now self.now.section.now point class (note_of note)) }
    {
        locks::laws::each_path_once();
        let bound = self.bound_path(point, points[point], class);
        let path = &self.found.paths[bound];
        let words = self.said(alloc, path, "is used later, and its root is bound here")?;
        Ok(Note {
            start: Some(points[point].start()),
            words,
        })
    }
}
