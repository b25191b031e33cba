//! The order of lock classes.

ghost use Rattle.std.specs.Prelude.{◌≡◌, length, map, IfOk, IfErr, OnOk};
ghost use Rattle.std.specs.List.{All};
ghost use Rattle.core_lang.specs.WellFormed.{IsWellFormed};
ghost use Rattle.lockpaths.specs.Paths.{ArePaths};
ghost use Rattle.points.specs.Working.Points.{AreAllPointsOf};
ghost use Rattle.lockorder.specs.ClassPairs.{classes_of_pair, IsMadeFirst, AreClassPairs};
ghost use Rattle.lockorder.specs.Edges as program_edges;
ghost use Rattle.lockorder.specs.Edges.{AreRanksOf, RiseIn};
ghost use Rattle.lockorder.specs.Ranks.{IsCycle};
ghost use Rattle.lockorder.specs.Faults.{HasNoFault, IsRefusal, IsCycleOf};
ghost use Rattle.lockorder.specs.Working.Tables.{HasEdgesOf};
ghost use Rattle.lockorder.specs.Working.Tellings.{AreEdges};

use crate::pairs::{around, edges_of};
use crate::ranks::{ClassPair, Cycle, Edge, OrderRefusal, Ranks};
use crate::section_edges::SectionEdges;
use crate::table::Table;
use crate::telling::Telling;
use core_lang::typed::Typed;
use lockpaths::table::Paths;
use points::all_points;
use points::table::Points;
use source::memory::NoMemory;
use std::alloc::Global;

// The edges that the sections make.
fn table(alloc: Global, program: &Typed, points: &[Points]) -> Result<Table, NoMemory>
    requires program { IsWellFormed program.now }
    requires points { AreAllPointsOf program.now points.now }
    ensures classes { IfOk result (λ table. length table.before.items ≡ length program.now.classes.items) }
    ensures edges { IfOk result (λ table. HasEdgesOf table.before.items (program_edges.Edge program.now)) }
{
    // By the laws, a section has the paths of its list, and their classes are the program's.
    locks::laws::each_path_once();
    locks::laws::paths_have_classes();
    let mut table = Table::new(alloc, program.classes.len())?;
    for section in points {
        let edges = SectionEdges { points: section };
        edges.add_to(&mut table);
    }
    Ok(table)
}

// Edges between pairs of classes, each with the use and binding that make it first.
fn told(
    alloc: Global,
    program: &Typed,
    points: &[Points],
    pairs: &[(usize, usize)],
) -> Result<Vec<ClassPair>, NoMemory>
    requires program { IsWellFormed program.now }
    requires points { AreAllPointsOf program.now points.now }
    requires pairs { AreEdges program.now pairs.now }
    ensures pairs { IfOk result (λ told. map classes_of_pair told.items ≡ pairs.now) }
    ensures made { IfOk result (λ told. All (IsMadeFirst program.now) told.items) }
{
    locks::laws::each_path_once();
    locks::laws::paths_have_classes();
    let mut telling = Telling::open(alloc, program.classes.len())?;
    for section in 0..points.len() {
        telling.tell(alloc, section, &points[section])?;
    }
    let told = telling.close(alloc, pairs)?;
    Ok(told)
}

// The edges of a cycle, each with the use and binding that make it first.
fn told_cycle(
    alloc: Global,
    program: &Typed,
    points: &[Points],
    cycle: &[usize],
) -> Result<Vec<Edge>, NoMemory>
    requires program { IsWellFormed program.now }
    requires points { AreAllPointsOf program.now points.now }
    requires cycle { IsCycle (program_edges.Edge program.now) cycle.now }
    ensures { IfOk result (λ edges. IsCycleOf program.now edges.items) }
{
    let pairs = around(alloc, cycle)?;
    let told = told(alloc, program, points, &pairs)?;
    let edges = edges_of(alloc, &told)?;
    Ok(edges)
}

/// The pairs of lock classes of which the first must precede the second, once each, in rising order; with each the use
/// and binding that make it: those of the lowest section, there the lowest use point, and for that the lowest binding
/// point.
///
/// # Errors
///
/// Out of memory.
pub fn class_pairs(
    alloc: Global,
    program: &Typed,
    paths: &Paths,
) -> Result<Vec<ClassPair>, NoMemory>
    requires program { IsWellFormed program.now }
    requires paths { ArePaths program.now paths.now }
    ensures { IfOk result (λ pairs. AreClassPairs program.now pairs.items) }
{
    let points = all_points(alloc, program, paths)?;
    let table = table(alloc, program, &points)?;
    let pairs = table.pairs(alloc)?;
    let told = told(alloc, program, &points, &pairs)?;
    Ok(told)
}

/// The rank of each lock class, or a cycle of classes of which each must precede the next.
///
/// The cycle goes through the lowest-numbered class that is on any cycle. It has the fewest edges, and is the first in
/// dictionary order of those. Each edge is reported for the lowest section that makes it, there for the lowest use
/// point, and for that the lowest binding point.
///
/// # Errors
///
/// The cycle, or out of memory.
pub fn order(alloc: Global, program: &Typed, paths: &Paths) -> Result<Ranks, OrderRefusal>
    requires program { IsWellFormed program.now }
    requires paths { ArePaths program.now paths.now }
    // The ranks are places in the list in which each class is the lowest-numbered one that is ready.
    ensures ranks { IfOk result (λ ranks. AreRanksOf program.now ranks.items) }
    // A class that must precede another has the lower rank.
    ensures rise { IfOk result (λ ranks. RiseIn program.now ranks.items) }
    // A program with a cycle is not accepted.
    ensures faultless { OnOk result (HasNoFault program.now) }
    // The cycle has distinct classes, and the use and binding of each edge are the first that make it.
    ensures cycle { IfErr result (IsRefusal program.now) }
{
    let points = all_points(alloc, program, paths)?;
    order_by(alloc, program, &points)
}

/// The same as [`order`], given the points of all sections.
///
/// # Errors
///
/// The cycle, or out of memory.
pub fn order_by(alloc: Global, program: &Typed, points: &[Points]) -> Result<Ranks, OrderRefusal>
    requires program { IsWellFormed program.now }
    requires points { AreAllPointsOf program.now points.now }
    ensures ranks { IfOk result (λ ranks. AreRanksOf program.now ranks.items) }
    ensures rise { IfOk result (λ ranks. RiseIn program.now ranks.items) }
    ensures faultless { OnOk result (HasNoFault program.now) }
    ensures cycle { IfErr result (IsRefusal program.now) }
{
    // By the law, each edge is between classes of the program.
    locks::laws::paths_have_classes();
    let table = table(alloc, program, points)?;
    match table.ranks(alloc)? {
        Some(ranks) => Ok(ranks),
        None => {
            let cycle = table.cycle(alloc)?;
            let edges = told_cycle(alloc, program, points, &cycle)?;
            Err(OrderRefusal::Cycle(Cycle { edges }))
        }
    }
}
