//! The calls of helpers that lead from a section to a place in a helper's text. The one error is a refused growth.

ghost use Rattle.std.specs.Prelude.{◌≡◌, ◌++◌, IfOk, OnOk, find, map, option_map, string_bytes};
ghost use Rattle.explanation.specs.Notes.{note_of};
ghost use Rattle.explanations.specs.CycleCalls.{call_note, call_of, calls_in, calls_to, cycle_calls, deepest, edge_calls};
ghost use Rattle.explanations.specs.CycleCalls.{first_call, helper_name, leads, point_start, starts_in};
ghost use Rattle.flow.specs.Working.PointList.{point_at};

use core_lang::tree::{Action, Section};
use core_lang::typed::Typed;
use explanation::Note;
use flow::points::{PointRef, points_of};
use lockorder::ranks::Edge;
use source::limits::DEPTH_LIMIT;
use source::memory::NoMemory;
use std::alloc::{AllocError, Global};

/// The helper that `point` calls, if it calls one.
fn call_of(point: PointRef<'_>) -> Option<usize>
    ensures { result ≡ call_of (point_at point.entry) }
{
    match point {
        PointRef::Statement(statement) => match &statement.action {
            Action::Call { helper, .. } => Some(*helper),
            _ => None,
        },
        PointRef::Result(_) => None,
    }
}

/// Whether one of `points` starts at `at`.
fn starts_in(points: &[PointRef<'_>], at: usize) -> bool
    ensures { result ≡ starts_in (map point_at points.now) at }
{
    for point in points {
        if point.start() == at {
            return true;
        }
    }
    false
}

/// The start of the point with the number `point` of the section with the number `section`.
fn point_start(
    alloc: Global,
    written: &Typed,
    section: usize,
    point: usize,
) -> Result<Option<usize>, NoMemory>
    ensures { IfOk result (λ start. start ≡ point_start written.now section point) }
{
    let Some(section) = written.sections.get(section) else {
        return Ok(None);
    };
    let points = points_of(alloc, section)?;
    match points.get(point) {
        Some(point) => Ok(Some(point.start())),
        None => Ok(None),
    }
}

/// The calls of a program as it was accepted, with its helpers.
#[derive(Clone, Copy)]
pub struct Calls<'a> {
    /// The program.
    pub program: &'a Typed,
}

impl Calls<'_> {
    /// Whether `point` calls a helper that has a point starting at `at`, or a point that leads to such a helper, at
    /// most `depth` calls deep.
    fn leads(
        &self,
        alloc: Global,
        depth: usize,
        at: usize,
        point: PointRef<'_>,
    ) -> Result<bool, NoMemory>
        ensures { IfOk result (λ is. is ≡ leads self.now.program.now depth at (point_at point.entry)) }
    {
        if depth == 0 {
            return Ok(false);
        }
        let Some(number) = call_of(point) else {
            return Ok(false);
        };
        let Some(helper) = self.program.shape.helpers.get(number) else {
            return Ok(false);
        };
        let points = points_of(alloc, helper)?;
        if starts_in(&points, at) {
            return Ok(true);
        }
        for inner in &points {
            if self.leads(alloc, depth - 1, at, *inner)? {
                return Ok(true);
            }
        }
        Ok(false)
    }

    /// The first of `points` that leads to `at`.
    fn first_leading<'p>(
        &self,
        alloc: Global,
        points: &[PointRef<'p>],
        at: usize,
    ) -> Result<Option<PointRef<'p>>, NoMemory>
        ensures { IfOk result (λ point. option_map point_at point
            ≡ find (leads self.now.program.now deepest at) (map point_at points.now)) }
    {
        for point in points {
            if self.leads(alloc, DEPTH_LIMIT, at, *point)? {
                return Ok(Some(*point));
            }
        }
        Ok(None)
    }

    /// The first point of `section` that leads to `at`, unless `at` is in the section's own text.
    fn first_call<'p>(
        &self,
        alloc: Global,
        section: &'p Section,
        at: usize,
    ) -> Result<Option<PointRef<'p>>, NoMemory>
        ensures { IfOk result
            (λ point. option_map point_at point ≡ first_call self.now.program.now section.entry.now at) }
    {
        let points = points_of(alloc, section)?;
        if starts_in(&points, at) {
            return Ok(None);
        }
        self.first_leading(alloc, &points, at)
    }

    /// The name of `helper`.
    fn helper_name(&self, helper: Option<usize>) -> &str
        ensures { result.now ≡ helper_name self.now.program.now helper }
    {
        let Some(number) = helper else {
            return "";
        };
        match self.program.shape.helpers.get(number) {
            Some(helper) => &helper.name,
            None => "",
        }
    }

    /// The note on a call.
    fn note(
        &self,
        alloc: Global,
        section: &Section,
        told: &str,
        point: PointRef<'_>,
    ) -> Result<Note, NoMemory>
        ensures { IfOk result
            (λ note. note_of note ≡ call_note self.now.program.now section.now told.now (point_at point.entry)) }
    {
        let mut words = String::from_str(alloc, "in ")?;
        words.push_str(&section.name)?;
        words.push_str(": ")?;
        words.push_str(told)?;
        words.push_str(self.helper_name(call_of(point)))?;
        Ok(Note {
            start: Some(point.start()),
            words,
        })
    }

    /// Appends the note on the call that leads from `section` to `at`, if there is one.
    fn push_in(
        &self,
        alloc: Global,
        section: &Section,
        told: &str,
        at: Option<usize>,
        notes: &mut Vec<Note>,
    ) -> Result<(), NoMemory>
        ensures { OnOk result (map note_of notes.new.items
            ≡ map note_of notes.old.items ++ calls_in self.now.program.now section.now told.now at) }
    {
        let Some(at) = at else {
            return Ok(());
        };
        let Some(point) = self.first_call(alloc, section, at)? else {
            return Ok(());
        };
        notes.push(self.note(alloc, section, told, point)?)?;
        Ok(())
    }

    /// Appends the note on the call that leads from the section with the number `section` to `at`, if there is one.
    fn push_to(
        &self,
        alloc: Global,
        section: usize,
        told: &str,
        at: Option<usize>,
        notes: &mut Vec<Note>,
    ) -> Result<(), NoMemory>
        ensures { OnOk result (map note_of notes.new.items
            ≡ map note_of notes.old.items ++ calls_to self.now.program.now section told.now at) }
    {
        match self.program.sections.get(section) {
            Some(section) => self.push_in(alloc, section, told, at, notes),
            None => Ok(()),
        }
    }

    /// Appends the notes on the calls that lead to the use and to the binding of an edge of the expanded program
    /// `written`.
    fn push_edge(
        &self,
        alloc: Global,
        written: &Typed,
        edge: Edge,
        notes: &mut Vec<Note>,
    ) -> Result<(), NoMemory>
        ensures { OnOk result (map note_of notes.new.items
            ≡ map note_of notes.old.items ++ edge_calls self.now.program.now written.now edge) }
    {
        let used = point_start(alloc, written, edge.section, edge.used)?;
        let told = "that use comes by this call of ";
        self.push_to(alloc, edge.section, told, used, notes)?;
        let bound = point_start(alloc, written, edge.section, edge.bound)?;
        let told = "that binding comes by this call of ";
        self.push_to(alloc, edge.section, told, bound, notes)
    }

    /// Appends notes on the calls of helpers that lead from sections to the places of a cycle's edges, where these are
    /// in a helper: for each edge the note on its use, then the note on its binding.
    ///
    /// # Errors
    ///
    /// `NoMemory`: a growth was refused.
    pub fn push(
        &self,
        alloc: Global,
        written: &Typed,
        edges: &[Edge],
        notes: &mut Vec<Note>,
    ) -> Result<(), NoMemory>
        ensures { OnOk result (map note_of notes.new.items
            ≡ map note_of notes.old.items ++ cycle_calls self.now.program.now written.now edges.now) }
    {
        for edge in edges {
            self.push_edge(alloc, written, *edge, notes)?;
        }
        Ok(())
    }
}
