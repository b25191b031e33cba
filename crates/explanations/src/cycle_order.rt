//! The notes on the order of a program's lock classes.

ghost use Rattle.std.specs.Prelude.{◌≡◌, IfOk, OnOk, map};
ghost use Rattle.std.specs.List.{All};
ghost use Rattle.core_lang.specs.WellFormed.{IsWellFormed};
ghost use Rattle.explanations.specs.OrderNotes as order;
ghost use Rattle.explanations.specs.OrderNotes.{AreOrderNotes};
ghost use Rattle.explanations.specs.Working.Tellers.{AddsPair, AddsPairs};
ghost use Rattle.explanation.specs.Notes.{note_of};
ghost use Rattle.lockorder.specs.ClassPairs.{IsMadeFirst};
ghost use Rattle.lockpaths.specs.Paths.{ArePaths};
ghost use Rattle.report_check.specs.Working.AllPoints.{AreAllPoints};

use crate::cycle_edges::Edges;
use core_lang::typed::Typed;
use explanation::Note;
use lockorder::class_pairs;
use lockorder::ranks::ClassPair;
use lockpaths::table::Paths;
use locks::text::push_class;
use report_check::{points_of_sections, push_ranked};
use source::memory::NoMemory;
use std::alloc::Global;

/// The note on the class of `rank`.
fn rank_note(alloc: Global, program: &Typed, ranks: &[u32], rank: usize) -> Result<Note, NoMemory>
    ensures { IfOk result (λ note. note_of note ≡ order.rank_note program.now ranks.now rank) }
{
    let mut words = String::new(alloc);
    write!(words, "rank {rank} ")?;
    push_ranked(&mut words, program, ranks, rank)?;
    Ok(Note { start: None, words })
}

/// The notes on the classes of all ranks.
fn rank_notes(alloc: Global, program: &Typed, ranks: &[u32]) -> Result<Vec<Note>, NoMemory>
    ensures { IfOk result (λ notes. map note_of notes.items ≡ order.rank_notes program.now ranks.now) }
{
    let mut notes = Vec::new(alloc);
    for rank in 0..ranks.len() {
        notes.push(rank_note(alloc, program, ranks, rank)?)?;
    }
    Ok(notes)
}

/// The note that says which class of `pair` comes before the other.
fn pair_note(alloc: Global, program: &Typed, pair: ClassPair) -> Result<Note, NoMemory>
    ensures { IfOk result (λ note. note_of note ≡ order.pair_note program.now pair) }
{
    let mut words = String::new(alloc);
    push_class(&mut words, program, pair.edge.class)?;
    words.push_str(" comes before ")?;
    push_class(&mut words, program, pair.next)?;
    Ok(Note { start: None, words })
}

impl Edges<'_, '_> {
    // Appends the notes on a pair.
    fn push_pair(
        &self,
        alloc: Global,
        pair: ClassPair,
        notes: &mut Vec<Note>,
    ) -> Result<(), NoMemory>
        requires paths { ArePaths self.now.program.now self.now.paths.now }
        requires points { AreAllPoints self.now.program.now self.now.points.now }
        requires made { IsMadeFirst self.now.program.now pair }
        ensures { OnOk result (AddsPair self.now.program.now pair notes.old.items notes.new.items) }
    {
        notes.push(pair_note(alloc, self.program, pair)?)?;
        self.push(alloc, pair.edge, pair.next, notes)
    }

    // Appends the notes on pairs.
    fn push_pairs(
        &self,
        alloc: Global,
        pairs: &[ClassPair],
        notes: &mut Vec<Note>,
    ) -> Result<(), NoMemory>
        requires paths { ArePaths self.now.program.now self.now.paths.now }
        requires points { AreAllPoints self.now.program.now self.now.points.now }
        requires made { All (IsMadeFirst self.now.program.now) pairs.now }
        ensures { OnOk result (AddsPairs self.now.program.now pairs.now notes.old.items notes.new.items) }
    {
        for pair in pairs {
            self.push_pair(alloc, *pair, notes)?;
        }
        Ok(())
    }
}

/// The notes on the order of a program's lock classes: the class of each rank; then, for each pair of classes of which
/// the first has to come before the second, a note that says so, and the notes on the use and on the binding of its
/// edge.
///
/// # Errors
///
/// `NoMemory`: a growth was refused.
pub fn order_notes(
    alloc: Global,
    program: &Typed,
    paths: &Paths,
    ranks: &[u32],
) -> Result<Vec<Note>, NoMemory>
    requires program { IsWellFormed program.now }
    requires paths { ArePaths program.now paths.now }
    ensures { IfOk result (λ notes. AreOrderNotes program.now ranks.now (map note_of notes.items)) }
{
    let pairs = class_pairs(alloc, program, paths)?;
    let mut notes = rank_notes(alloc, program, ranks)?;
    let points = points_of_sections(alloc, program)?;
    let edges = Edges {
        program,
        points: &points,
        paths,
    };
    edges.push_pairs(alloc, &pairs, &mut notes)?;
    Ok(notes)
}
