//! The lists before the points of all sections.

ghost use Rattle.std.specs.Prelude.{IfOk};
ghost use Rattle.inserter.specs.Placement.{IsPlacement, all_lists};
ghost use Rattle.lockpaths.specs.Paths.{ArePaths};
ghost use Rattle.points.specs.Working.Points.{AreAllPointsOf};

use crate::placed::Placed;
use crate::section_lists::lists_before;
use core_lang::typed::Typed;
use lockpaths::table::Paths;
use points::all_points;
use points::table::Points;
use source::memory::NoMemory;
use std::alloc::Global;

/// The lists of a program: before each point of each section, the lock paths that are wanted there and not surely held,
/// by rising rank, and those of one rank in the order of their first accesses.
///
/// # Errors
///
/// Out of memory.
pub fn place(
    alloc: Global,
    program: &Typed,
    paths: &Paths,
    ranks: &[u32],
) -> Result<Placed, NoMemory>
    requires { ArePaths program.now paths.now }
    ensures { IfOk result (λ placed. IsPlacement program.now ranks.now (all_lists placed)) }
{
    let points = all_points(alloc, program, paths)?;
    place_by(alloc, program, &points, ranks)
}

/// The same as [`place`], given the points of all sections.
///
/// # Errors
///
/// Out of memory.
pub fn place_by(
    alloc: Global,
    program: &Typed,
    points: &[Points],
    ranks: &[u32],
) -> Result<Placed, NoMemory>
    requires { AreAllPointsOf program.now points.now }
    ensures { IfOk result (λ placed. IsPlacement program.now ranks.now (all_lists placed)) }
{
    let mut sections = Vec::with_capacity(alloc, program.sections.len())?;
    for section in 0..program.sections.len() {
        sections.push(lists_before(alloc, &points[section], ranks)?)?;
    }
    Ok(Placed { sections })
}
