//! The notes on the edges of a cycle.

ghost use Rattle.std.specs.Prelude.{◌≡◌, IfOk, OnOk, map};
ghost use Rattle.explanation.specs.Notes.{note_of};
ghost use Rattle.lockpaths.specs.Paths.{ArePaths};
ghost use Rattle.lockorder.specs.Faults.{IsCycleOf};
ghost use Rattle.report_check.specs.Working.AllPoints.{AreAllPoints};
ghost use Rattle.explanations.specs.CycleNotes.{AreCycleNotes};
ghost use Rattle.explanations.specs.CycleNotes as cycle;
ghost use Rattle.explanations.specs.Working.Tellers.{IsMade, AddsEdge, AddsWhole};

use crate::cycle_teller::CycleWriter;
use core_lang::typed::Typed;
use explanation::Note;
use flow::points::PointRef;
use lockorder::ranks::Edge;
use lockpaths::table::Paths;
use report_check::points_of_sections;
use source::memory::NoMemory;
use std::alloc::Global;

/// The class of the next edge, or `first` where there is no next edge.
fn class_of_next(first: usize, rest: &[Edge]) -> usize
    ensures { result ≡ cycle.class_of_next first rest.now }
{
    match rest {
        [] => first,
        [edge, ..] => edge.class,
    }
}

/// A program and its lock paths.
#[derive(Drop)]
pub struct Edges<'a, 'b> {
    /// The program.
    pub program: &'a Typed,
    /// The points of each of its sections.
    pub points: &'b [Vec<PointRef<'a>>],
    /// The lock paths of the program.
    pub paths: &'a Paths,
}

impl Edges<'_, '_> {
    /// Appends the notes on `edge`, which leads to the class `next`.
    pub fn push(
        &self,
        alloc: Global,
        edge: Edge,
        next: usize,
        notes: &mut Vec<Note>,
    ) -> Result<(), NoMemory>
        requires paths { ArePaths self.now.program.now self.now.paths.now }
        requires points { AreAllPoints self.now.program.now self.now.points.now }
        requires made { IsMade self.now.program.now edge next }
        ensures { OnOk result (AddsEdge self.now.program.now edge next notes.old.items notes.new.items) }
    {
        let teller = CycleWriter {
            program: self.program,
            section: &self.program.sections[edge.section],
            found: &self.paths.sections[edge.section],
        };
        let points = &self.points[edge.section];
        notes.push(teller.use_note(alloc, points, edge.used, edge.class)?)?;
        notes.push(teller.binding_note(alloc, points, edge.bound, next)?)?;
        Ok(())
    }

    // Appends the notes on `edge`, and a way to avoid it.
    fn push_whole(
        &self,
        alloc: Global,
        edge: Edge,
        next: usize,
        notes: &mut Vec<Note>,
    ) -> Result<(), NoMemory>
        requires paths { ArePaths self.now.program.now self.now.paths.now }
        requires points { AreAllPoints self.now.program.now self.now.points.now }
        requires made { IsMade self.now.program.now edge next }
        ensures { OnOk result (AddsWhole self.now.program.now edge next notes.old.items notes.new.items) }
    {
        self.push(alloc, edge, next, notes)?;
        let teller = CycleWriter {
            program: self.program,
            section: &self.program.sections[edge.section],
            found: &self.paths.sections[edge.section],
        };
        notes.push(teller.way_note(alloc, edge.used, edge.bound, edge.class)?)?;
        Ok(())
    }
}

/// The notes on a cycle of a program. For each edge they say where a lock of its class is used, and where the root of a
/// path of the next class is bound, each with the section, the path and the class; and whether this binding itself uses
/// a lock of the edge's class, with a way to avoid the edge.
///
/// # Errors
///
/// `NoMemory`: a growth was refused.
pub fn cycle_notes(
    alloc: Global,
    program: &Typed,
    paths: &Paths,
    edges: &[Edge],
) -> Result<Vec<Note>, NoMemory>
    requires paths { ArePaths program.now paths.now }
    requires cycle { IsCycleOf program.now edges.now }
    ensures { IfOk result (λ notes. AreCycleNotes program.now edges.now (map note_of notes.items)) }
{
    let points = points_of_sections(alloc, program)?;
    let told = Edges {
        program,
        points: &points,
        paths,
    };
    let first = edges[0].class;
    let mut notes = Vec::new(alloc);
    for (i, edge) in edges.iter().enumerate() {
        let next = class_of_next(first, &edges[i + 1..]);
        told.push_whole(alloc, *edge, next, &mut notes)?;
    }
    Ok(notes)
}
